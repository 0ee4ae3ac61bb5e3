//! The bits of a word as polynomials in the word.
ghost use Rattle.std.specs.Prelude.{◌<◌, IfOk};
ghost use Rattle.gf_basis.specs.BasisParts.{IsBasisOver, elements_of};
ghost use Rattle.stage_model.specs.PlainWord.{IsBitOf};

use gf_basis::Basis;
use gf_field::Field;
use poly_mixed::{Poly, scaled_power};
use std::alloc::{AllocError, Global};

/// The polynomial of a bit of a word, 0 to 7: its linear form in the word. The place is below k, and the basis was made
/// over the field.
pub fn bit_poly<F: Field>(
    alloc: Global,
    field: &F,
    basis: &Basis,
    word: u32,
    place: u32,
) -> Result<Poly, AllocError>
    requires over { IsBasisOver (F.degree field.now) (F.product field.now) basis.now }
    requires word { word < 8 }
    requires place { place < F.degree field.now }
    ensures { IfOk result (λ q. IsBitOf (F.degree field.now) (F.product field.now) (elements_of basis.now) word place q.terms) }
{
    let linear = basis.linear_of(field, place);
    let mut sum = Poly::zero(alloc);
    for j in 0..field.k() {
        let part = scaled_power(alloc, field, linear[j as usize], word as usize, 1 << j)?;
        sum.add_into(field, &part)?;
    }
    Ok(sum)
}
