//! The powers of x and of Y that reduce a product in a tower.
ghost use Rattle.std.specs.Prelude.{◌≡◌, ◌*◌, ◌-◌, ◌/◌, ◌<◌, ◌≤◌, ◌^◌, IfOk, length};
ghost use Rattle.gf_field.specs.Polynomial.{coefficient};
ghost use Rattle.gf_field.specs.Bit.{bit_mul};
ghost use Rattle.gf_field.specs.Quotient.{product};
ghost use Rattle.gf_field.specs.Ring2k.{degree_of, modulus_of};
ghost use Rattle.irreducible.specs.Proved.{ring_of};
ghost use Rattle.gf_tower.specs.TowerParts.{base_of, size_of};
ghost use Rattle.make_laws.specs.ProductBits.{x_to};
ghost use Rattle.mult_composite.specs.private.HighPowers.{AreHighPowers};
ghost use Rattle.mult_gen.specs.Powers.{ArePowers};
ghost use Rattle.make_laws.specs.TowerParts.{base_modulus, polynomial_in};
ghost use Rattle.mult_composite.specs.private.ByPowers.{factor_at};

use crate::places::{bit_of, coefficient_of, group_of};
use gf_field::{Ring, Ring2k, power};
use gf_tower::Tower;
use irreducible::Proved;
use std::alloc::{AllocError, Global};

// x to the i, out of a table of powers.
fn x_power(_base: &Proved<Ring2k>, x_powers: &[u64], i: usize) -> u64
    requires powers { ArePowers (degree_of (ring_of _base.now)) (modulus_of (ring_of _base.now)) x_powers.now }
    requires entry { i < length x_powers.now }
    ensures power { result ≡ x_to (degree_of (ring_of _base.now)) (modulus_of (ring_of _base.now)) i }
    ensures element { result < 2 ^ degree_of (ring_of _base.now) }
{
    x_powers[i]
}

// The element Y.
fn y_of(n: usize) -> u64
    requires { n ≤ 32 }
    ensures { result ≡ 2 ^ n }
{
    1 << n
}

// Y to the m, to the m + 1, .. and to the 2 * m - 2.
pub(crate) fn high_powers(
    alloc: Global,
    tower: &Tower<Proved<Ring2k>>,
    n: usize,
    m: usize,
) -> Result<Vec<u64>, AllocError>
    requires degree { n ≡ degree_of (ring_of (base_of tower.now)) }
    requires size { m ≡ size_of tower.now }
    requires some { 1 ≤ n }
    requires low { n ≤ 32 }
    requires two { 2 ≤ m }
    requires few { m ≤ 64 }
    ensures long { IfOk result (λ powers. length powers.items ≡ m - 1) }
    ensures powers { IfOk result (λ powers. AreHighPowers n m (product 1 n bit_mul (base_modulus tower.now)) (polynomial_in n tower.now) powers.items) }
{
    let mut powers = Vec::new(alloc);
    let y = y_of(n);
    for i in 0..m - 1 {
        let element = power(tower, y, (m + i) as u64);
        powers.push(element)?;
    }
    Ok(powers)
}

// Coefficient e of the power of Y that place q, counted from coefficient m, is in, times the power of x that it is.
pub(crate) fn factor(
    base: &Proved<Ring2k>,
    n: usize,
    m: usize,
    x_powers: &[u64],
    powers: &[u64],
    e: usize,
    q: usize,
) -> u64
    requires degree { n ≡ degree_of (ring_of base.now) }
    requires some { 1 ≤ n }
    requires coefficient { e < m }
    requires place { q < (m - 1) * n }
    requires small { n * m ≤ 64 }
    requires x_powers { ArePowers (degree_of (ring_of base.now)) (modulus_of (ring_of base.now)) x_powers.now }
    requires x_long { length x_powers.now ≡ 2 * n }
    requires long { length powers.now ≡ m - 1 }
    ensures { result ≡ factor_at n (modulus_of (ring_of base.now)) powers.now e q }
{
    let place = group_of(n, m - 1, q);
    let digit = coefficient_of(n, m, powers[place], e);
    let power = x_power(base, x_powers, bit_of(n, q));
    base.mul(power, digit)
}
