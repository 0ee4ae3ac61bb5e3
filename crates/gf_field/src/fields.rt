//! Fields whose elements are the numbers below a power of 2.

ghost use Rattle.std.specs.Prelude.{◌≡◌, ◌≢◌, ◌<◌, ◌^◌};
ghost use Rattle.gf_field.specs.Field.{HasNoZeroDivisors};

use super::rings::Ring;

/// A `Ring` in which each element but 0 has an inverse.
pub trait Field: Ring {
    /// The element whose product with `a`, which is not 0, is one.
    fn inv(&self, a: u64) -> u64
        requires element { a < 2 ^ Self.degree self.now }
        requires nonzero { a ≢ 0 }
        ensures element { result < 2 ^ Self.degree self.now }
        ensures inverse { Self.product self.now a result ≡ 1 };

    /// A product of two elements that are not 0 is not 0.
    ghost no_zero_divisors: { (field : Self) → HasNoZeroDivisors (Self.degree field) (Self.product field) };
}
