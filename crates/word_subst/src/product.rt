//! A polynomial times bits.
ghost use Rattle.std.specs.Prelude.{IfOk};
ghost use Rattle.std.specs.List.Sorted.{IsStrictlySortedBy};
ghost use Rattle.std.specs.Ordering.{nat_cmp};
ghost use Rattle.poly_mixed.specs.Polynomial.{IsReduced};
ghost use Rattle.word_subst.specs.Multiplier.{IsWithBits};

use gf_field::Field;
use poly_mixed::{Mono, Poly};
use std::alloc::{AllocError, Global};

/// The polynomial times bits, by rising rank.
pub fn with_bits<F: Field>(
    alloc: Global,
    field: &F,
    product: &Poly,
    bits: &[u32],
) -> Result<Poly, AllocError>
    requires product { IsReduced (F.degree field.now) product.now.terms }
    requires rising { IsStrictlySortedBy nat_cmp bits.now }
    ensures { IfOk result (λ q. IsWithBits (F.degree field.now) (F.product field.now) product.now.terms bits.now q.terms) }
{
    let mono = Mono::new(alloc, bits, &[0; 8])?;
    let ones = Poly::term(alloc, field, 1, mono)?;
    let poly = product.mul(alloc, field, &ones)?;
    Ok(poly)
}
