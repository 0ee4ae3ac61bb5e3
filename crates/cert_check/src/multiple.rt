//! Sums with products, term by term.
ghost use Rattle.std.specs.Prelude.{◌≡◌, ◌≢◌, ◌<◌, ◌^◌, OnOk};
ghost use Rattle.poly_mixed.specs.Polynomial.{IsElement, IsReduced, IsTerm};
ghost use Rattle.poly_mixed.specs.Product.{AddsProduct};
ghost use Rattle.cert_check.specs.private.Units.{units, AddsProducts, AreTerms};

use crate::monomial::product;
use crate::term_sum::TermSum;
use gf_field::Field;
use poly_mixed::{Mono, Term};
use std::alloc::{AllocError, Global};

/// The product of the element that a table is of and another element.
pub(crate) fn product_by<F: Field>(field: &F, _c: u64, table: &F::Times, d: u64) -> u64
    requires c { IsElement (F.degree field.now) _c }
    requires table { F.is_table field.now table.now _c }
    requires d { IsElement (F.degree field.now) d }
    ensures product { result ≡ F.product field.now _c d }
    ensures element { result < 2 ^ F.degree field.now }
{
    field.by(table, d)
}

// Adds the product of a term and a sum of monomials.
fn add_multiple<F: Field>(
    alloc: Global,
    field: &F,
    by: &Term,
    monos: &[Mono],
    sum: &mut TermSum,
) -> Result<(), AllocError>
    requires by { IsTerm (F.degree field.now) by.now × (by.now.1 ≢ 0) }
    requires monos { AreTerms (F.degree field.now) (units monos.now) }
    requires sum { IsReduced (F.degree field.now) sum.old.terms }
    ensures reduced { OnOk result (IsReduced (F.degree field.now) sum.new.terms) }
    ensures values { OnOk result (AddsProduct (F.degree field.now) (F.product field.now) by.now (units monos.now) sum.old.terms sum.new.terms) }
{
    let k = field.k();
    let c = by.coefficient();
    for other in monos {
        let mono = product(alloc, k, by.mono(), other)?;
        sum.add_term(mono, c)?;
    }
    Ok(())
}

/// Adds the product of a polynomial, the list of its terms, and a sum of monomials.
pub(crate) fn add_products<F: Field>(
    alloc: Global,
    field: &F,
    left: &[Term],
    right: &[Mono],
    sum: &mut TermSum,
) -> Result<(), AllocError>
    requires left { IsReduced (F.degree field.now) left.now }
    requires right { AreTerms (F.degree field.now) (units right.now) }
    requires sum { IsReduced (F.degree field.now) sum.old.terms }
    ensures reduced { OnOk result (IsReduced (F.degree field.now) sum.new.terms) }
    ensures values { OnOk result (AddsProducts (F.degree field.now) (F.product field.now) left.now (units right.now) sum.old.terms sum.new.terms) }
{
    for term in left {
        add_multiple(alloc, field, term, right, sum)?;
    }
    Ok(())
}
