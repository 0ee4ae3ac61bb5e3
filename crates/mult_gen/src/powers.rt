//! The powers of x in the field of a multiplier.
ghost use Rattle.std.specs.Prelude.{◌≡◌, ◌<◌, ◌^◌, ◌==◌, IfOk, length};
ghost use Rattle.std.specs.Int.{bit_at};
ghost use Rattle.gf_field.specs.Ring2k.{degree_of, modulus_of};
ghost use Rattle.irreducible.specs.Proved.{ring_of};
ghost use Rattle.make_laws.specs.Indeterminate.{x_of};
ghost use Rattle.mult_gen.specs.Powers.{ArePowers};

use gf_field::{Ring, Ring2k, power};
use irreducible::Proved;
use std::alloc::{AllocError, Global};

/// The element x.
pub fn indeterminate(ring: &Proved<Ring2k>) -> u64
    ensures is { result ≡ x_of (degree_of (ring_of ring.now)) (modulus_of (ring_of ring.now)) }
    ensures element { result < 2 ^ degree_of (ring_of ring.now) }
{
    if ring.k() == 1 {
        (ring.ring().modulus() % 2) as u64
    } else {
        2
    }
}

/// The first powers of x, from x^0.
pub fn powers_of_x(
    alloc: Global,
    ring: &Proved<Ring2k>,
    count: usize,
) -> Result<Vec<u64>, AllocError>
    ensures long { IfOk result (λ powers. length powers.items ≡ count) }
    ensures each { IfOk result (λ powers. ArePowers (degree_of (ring_of ring.now)) (modulus_of (ring_of ring.now)) powers.items) }
{
    let x = indeterminate(ring);
    let mut powers = Vec::new(alloc);
    for e in 0..count {
        powers.push(power(ring, x, e as u64))?;
    }
    Ok(powers)
}

/// Whether a bit, below 64, of a number is 1.
pub fn has_bit(power: u64, bit: usize) -> bool
    requires { bit < 64 }
    ensures { result ≡ (bit_at power bit == 1) }
{
    (power >> bit) & 1 == 1
}
