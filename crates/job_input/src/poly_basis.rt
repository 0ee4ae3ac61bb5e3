//! The polynomial basis of a field, which is made once for all words that have it.
ghost use Rattle.std.specs.Prelude.{◌≡◌, ◌^◌};
ghost use Rattle.gf_basis.specs.Basis.{first_values};
ghost use Rattle.gf_basis.specs.BasisParts.{duals_of, elements_of};
ghost use Rattle.gf_basis.specs.Dual.{AreDual};

use gf_basis::Basis;
use gf_field::Field;

/// A field, and its polynomial basis: to make a basis and its dual takes some k^3 steps, and most words have this one.
#[derive(Drop)]
pub struct PolyBasis<'a, F: Field> {
    /// The field.
    pub field: &'a F,
    /// The basis whose element i is the number `2^i`.
    pub basis: Basis,
    ghost elements: { elements_of basis ≡ first_values (F.degree field.now) (λ i. 2 ^ i) },
    ghost dual: { AreDual (F.degree field.now) (F.product field.now) (elements_of basis) (duals_of basis) },
}
