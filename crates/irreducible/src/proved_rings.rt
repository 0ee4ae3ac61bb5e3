//! Rings that are fields.

ghost use Rattle.std.specs.Prelude.{◌≡◌, ◌<◌, ◌^◌, IfOk, IfErr, IsOk, IsTrue, ◌↔◌};
ghost use Rattle.gf_field.specs.Field.{HasNoZeroDivisors};

use super::elimination::rank_of;
use gf_field::{Field, Ring, power};

/// A ring that is a field: it has no zero divisors.
#[derive(Drop)]
pub struct Proved<R: Ring> {
    ring: R,
    ghost no_zero_divisors: { HasNoZeroDivisors (R.degree ring) (R.product ring) },
}

// Whether a ring is a field: squaring is one to one, and only 0 and 1 are their own squares.
fn has_no_zero_divisors<R: Ring>(ring: &R) -> bool
    ensures { IsTrue result ↔ HasNoZeroDivisors (R.degree ring.now) (R.product ring.now) }
{
    let k = ring.k() as usize;
    let mut squares = [0; 64];
    let mut moved = [0; 64];
    for i in 0..k {
        let unit = 1 << i;
        let square = ring.square(unit);
        squares[i] = square;
        moved[i] = square ^ unit;
    }
    rank_of(&squares[..k]) as usize == k && rank_of(&moved[1..k]) as usize == k - 1
}

impl<R: Ring> Proved<R> {
    ghost use Rattle.irreducible.specs.Proved.{ring_of};

    /// The ring as a field; where it is none, the ring is handed back.
    pub fn new(ring: R) -> Result<Proved<R>, R>
        ensures accepted { IsOk result ↔ HasNoZeroDivisors (R.degree ring) (R.product ring) }
        ensures kept { IfOk result (λ field. ring_of field ≡ ring) }
        ensures back { IfErr result (λ same. same ≡ ring) }
    {
        if has_no_zero_divisors(&ring) {
            Ok(Proved { ring })
        } else {
            Err(ring)
        }
    }

    /// The ring that the field was made of.
    pub fn ring(&self) -> &R
        ensures { result.now ≡ ring_of self.now }
    {
        &self.ring
    }
}

impl<R: Ring> Ring for Proved<R> {
    ghost use Rattle.irreducible.specs.Proved.{ring_of};

    type Times = R::Times;

    ghost degree = { λ field. R.degree (ring_of field) };

    ghost product = { λ field. R.product (ring_of field) };

    ghost is_table = { λ field table a. R.is_table (ring_of field) table a };

    ghost laws = { λ field. R.laws (ring_of field) };

    fn k(&self) -> u32 {
        self.ring.k()
    }

    fn one(&self) -> u64 {
        self.ring.one()
    }

    fn add(&self, a: u64, b: u64) -> u64 {
        self.ring.add(a, b)
    }

    fn mul(&self, a: u64, b: u64) -> u64 {
        self.ring.mul(a, b)
    }

    fn square(&self, a: u64) -> u64 {
        self.ring.square(a)
    }

    fn times(&self, a: u64) -> R::Times {
        self.ring.times(a)
    }

    fn by(&self, table: &R::Times, b: u64) -> u64 {
        self.ring.by(table, b)
    }
}

impl<R: Ring> Field for Proved<R> {
    ghost no_zero_divisors = { λ field. field.no_zero_divisors };

    fn inv(&self, a: u64) -> u64 {
        let largest = u64::MAX >> (64 - self.ring.k());
        power(&self.ring, a, largest - 1)
    }
}
