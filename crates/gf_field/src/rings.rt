//! Rings whose elements are the numbers below a power of 2.

ghost use Rattle.std.specs.Prelude.{◌≡◌, ℕ, ◌<◌, ◌^◌, bit_xor};
ghost use Rattle.gf_field.specs.Ring.{IsRing};

/// A commutative ring whose elements are the numbers below `2^k` and whose sum is the exclusive or
/// (Lidl and Niederreiter, Finite Fields, chapter 1).
pub trait Ring {
    /// What `times` makes of an element, so that products by it are quick.
    type Times: Drop;

    /// The number k of bits of an element.
    ghost degree: { Self → ℕ };

    /// The product, as a function of all numbers.
    ghost product: { Self → ℕ → ℕ → ℕ };

    /// That a table is of this element in this ring.
    ghost is_table: { Self → Self.Times → ℕ → Type 0 };

    /// The number of bits of an element, 1 to 64.
    fn k(&self) -> u32
        ensures { result ≡ degree self.now };

    /// The neutral element of the product.
    fn one(&self) -> u64
        ensures { result ≡ 1 };

    /// The sum of two elements.
    fn add(&self, a: u64, b: u64) -> u64
        requires first { a < 2 ^ degree self.now }
        requires second { b < 2 ^ degree self.now }
        ensures sum { result ≡ bit_xor a b }
        ensures element { result < 2 ^ degree self.now };

    /// The product of two elements.
    fn mul(&self, a: u64, b: u64) -> u64
        requires first { a < 2 ^ degree self.now }
        requires second { b < 2 ^ degree self.now }
        ensures product { result ≡ product self.now a b }
        ensures element { result < 2 ^ degree self.now };

    /// The product of an element with itself.
    fn square(&self, a: u64) -> u64
        requires { a < 2 ^ degree self.now }
        ensures product { result ≡ product self.now a a }
        ensures element { result < 2 ^ degree self.now };

    /// A table of the element `a`.
    fn times(&self, a: u64) -> Self::Times
        requires { a < 2 ^ degree self.now }
        ensures table { is_table self.now result a };

    /// The product of the element that `table` is of and `b`.
    fn by(&self, table: &Self::Times, b: u64) -> u64
        requires table { (a : ℕ) × (a < 2 ^ degree self.now) × is_table self.now table.now a }
        requires element { b < 2 ^ degree self.now }
        ensures product { (a : ℕ) → a < 2 ^ degree self.now → is_table self.now table.now a → result ≡ product self.now a b }
        ensures element { result < 2 ^ degree self.now };

    /// The laws of a commutative ring.
    ghost laws: { (ring : Self) → IsRing (degree ring) (product ring) };
}
