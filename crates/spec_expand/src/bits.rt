//! A word in its bits.
ghost use Rattle.std.specs.Prelude.{◌<◌, ◌+◌, ◌*◌, IfOk};
ghost use Rattle.gf_basis.specs.BasisParts.{elements_of, IsBasisOver};
ghost use Rattle.spec_expand.specs.private.Expanding.{IsWordInBits};

use gf_basis::Basis;
use gf_field::Field;
use poly_mixed::{Poly, scaled_bit};
use std::alloc::{AllocError, Global};

/// A word in its bits: the sum of bit i times element i of its basis.
pub(crate) fn word_in_bits<F: Field>(
    alloc: Global,
    field: &F,
    basis: &Basis,
    word: u32,
) -> Result<Poly, AllocError>
    requires over { IsBasisOver (F.degree field.now) (F.product field.now) basis.now }
    requires word { word < 8 }
    ensures { IfOk result (λ q. IsWordInBits (F.degree field.now) (F.product field.now) (elements_of basis.now) word q.terms) }
{
    let k = field.k();
    let mut sum = Poly::zero(alloc);
    for i in 0..k {
        let part = scaled_bit(alloc, field, basis.element(i), k * word + i)?;
        sum.add_into(field, &part)?;
    }
    Ok(sum)
}
