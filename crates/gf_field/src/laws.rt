//! Laws of rings and fields, each on a function that does nothing.

ghost use Rattle.std.specs.Prelude.{◌≡◌, ◌↔◌, ℕ, bit_xor};
ghost use Rattle.gf_field.specs.Bit.{bit_mul};
ghost use Rattle.gf_field.specs.Field.{HasNoZeroDivisors};
ghost use Rattle.gf_field.specs.Polynomial.{IsIrreducible, IsSumOverPairs};
ghost use Rattle.gf_field.specs.Quotient.{HasOnlyProduct, HasQuotientFields, HasQuotientRings, product as quotient_product};
ghost use Rattle.gf_field.specs.Ring2k.{IsOnlyRemainder, degree_of, modulus_of};
ghost use Rattle.gf_field.specs.Roots.{HasFewRoots, HasRootsUpToDegree, IsOwnPower};
ghost use Rattle.gf_field.specs.Trace.{IsTrace};

use super::fields::Field;
use super::ring_2k::Ring2k;
use super::rings::Ring;

/// Coefficient i of a product of polynomials is the sum of `f_j * g_(i - j)` for j from 0 to i.
pub fn convolution_sum<R: Ring>(_ring: &R)
    ensures { IsSumOverPairs (R.product _ring.now) }
{}

/// Modulo a monic polynomial there is exactly one product, the one that `Ring2k` and towers compute.
pub fn only_product<R: Ring>(_ring: &R)
    ensures { HasOnlyProduct (R.degree _ring.now) (R.product _ring.now) }
{}

/// The product of a `Ring2k` is the one remainder, by its modulus, of the product of polynomials.
pub fn only_remainder(_ring: &Ring2k)
    ensures { IsOnlyRemainder (degree_of _ring.now) (modulus_of _ring.now) }
{}

/// The quotient by a monic polynomial is a commutative ring.
pub fn quotient_rings<R: Ring>(_ring: &R)
    ensures { HasQuotientRings (R.degree _ring.now) (R.product _ring.now) }
{}

/// The quotient by a monic polynomial over a field has no zero divisors exactly where the polynomial is irreducible.
pub fn quotient_fields<F: Field>(_field: &F)
    ensures { HasQuotientFields (F.degree _field.now) (F.product _field.now) }
{}

/// A `Ring2k` has no zero divisors exactly where its modulus is irreducible over 0 and 1.
pub fn irreducible_modulus(_ring: &Ring2k)
    ensures { HasNoZeroDivisors (degree_of _ring.now) (quotient_product 1 (degree_of _ring.now) bit_mul (modulus_of _ring.now)) ↔ IsIrreducible 1 bit_mul (modulus_of _ring.now) }
{}

/// In a field of `2^k` elements each element is its own power by `2^k`.
pub fn own_power<F: Field>(_field: &F)
    ensures { IsOwnPower (F.degree _field.now) (F.product _field.now) }
{}

/// A polynomial in one word of degree d has at most d roots.
pub fn roots_up_to_degree<F: Field>(_field: &F)
    ensures { HasRootsUpToDegree (F.degree _field.now) (F.product _field.now) }
{}

/// A polynomial in one word with at most `2^k` coefficients is 0 at every element only where each coefficient is 0.
pub fn few_roots<F: Field>(_field: &F)
    ensures { HasFewRoots (F.degree _field.now) (F.product _field.now) }
{}

/// The square of a sum is the sum of the squares.
pub fn additive_squares<R: Ring>(_ring: &R)
    ensures { (a b : ℕ) → R.product _ring.now (bit_xor a b) (bit_xor a b) ≡ bit_xor (R.product _ring.now a a) (R.product _ring.now b b) }
{}

/// The trace is 0 or 1, is additive, and is not 0 everywhere.
pub fn trace_onto_bits<F: Field>(_field: &F)
    ensures { IsTrace (F.degree _field.now) (F.product _field.now) }
{}
