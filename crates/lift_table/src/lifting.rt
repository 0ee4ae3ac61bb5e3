//! The polynomial of a table.
ghost use Rattle.std.specs.Prelude.{◌≡◌, ◌*◌, ◌<◌, ◌≤◌, ◌^◌, ℕ, length, drop, slice_set, IfOk, OnOk};
ghost use Rattle.std.specs.List.{AllByRecursion};
ghost use Rattle.gf_field.specs.Element.{AreElements};
ghost use Rattle.poly_mixed.specs.Polynomial.{IsElement, IsReduced};
ghost use Rattle.poly_mixed.specs.laws.Uniqueness.{IsZeros};
ghost use Rattle.lift_table.specs.Small.{IsSmall};
ghost use Rattle.lift_table.specs.TablePolynomial.{IsPolynomialOfTable};
ghost use Rattle.lift_table.specs.private.Lifting.{AddsPart, AddsPowers, AreOfWords, IsPart};
ghost use Rattle.lift_table.specs.private.Products.{AreProducts};

use crate::gather::gather;
use crate::one_word::columns;
use crate::products::products;
use crate::small::{elements_of, rows_of};
use gf_field::Field;
use poly_mixed::{Mono, Poly};
use std::alloc::{AllocError, Global};

/// The one reduced polynomial of the function of a table of so many words, at most 8, with a row for each input, each value
/// an element. It answers nothing but the polynomial, or runs out of memory.
pub fn lift<F: Field>(
    alloc: Global,
    field: &F,
    words: u32,
    table: &[u64],
) -> Result<Poly, AllocError>
    requires small { IsSmall (F.degree field.now) words }
    requires few { words ≤ 8 }
    requires long { length table.now ≡ 2 ^ (F.degree field.now * words) }
    requires elements { AreElements (F.degree field.now) table.now }
    ensures { IfOk result (λ poly. IsPolynomialOfTable (F.degree field.now) (F.product field.now) words table.now poly.terms) }
{
    let products = products(alloc, field)?;
    let mut poly = Poly::zero(alloc);
    add_terms(alloc, field, &products, words, &[0; 8], table, &mut poly)?;
    Ok(poly)
}

// Adds the product of the polynomial of a table of the first words with powers of the others.
fn add_terms<F: Field>(
    alloc: Global,
    field: &F,
    products: &[u64],
    words: u32,
    exponents: &[u64; 8],
    table: &[u64],
    sum: &mut Poly,
) -> Result<(), AllocError>
    requires products { AreProducts (F.degree field.now) (F.product field.now) products.now }
    requires part { IsPart (F.degree field.now) words exponents.now table.now }
    requires sum { IsReduced (F.degree field.now) sum.old.terms }
    ensures { OnOk result (AddsPart (F.degree field.now) (F.product field.now) words exponents.now table.now sum.old.terms sum.new.terms) }
{
    if words == 0 {
        return add_term(alloc, field, exponents, table[0], sum);
    }
    let n = rows_of(field, words - 1);
    let count = elements_of(field);
    let columns = columns(alloc, field, products, table, n)?;
    for e in 0..count {
        let part = gather(alloc, &columns, count, e, n)?;
        let with = with_exponent(exponents, words - 1, e as u64);
        add_terms(alloc, field, products, words - 1, &with, &part, sum)?;
    }
    Ok(())
}

// These exponents, with this one for a word.
fn with_exponent(exponents: &[u64; 8], word: u32, exponent: u64) -> [u64; 8]
    requires { word < 8 }
    ensures { result ≡ slice_set exponents.now word exponent }
{
    let mut with = *exponents;
    with[word as usize] = exponent;
    with
}

// Adds a term of these exponents, or nothing for the coefficient 0.
fn add_term<F: Field>(
    alloc: Global,
    _field: &F,
    exponents: &[u64; 8],
    coefficient: u64,
    sum: &mut Poly,
) -> Result<(), AllocError>
    requires coefficient { IsElement (F.degree _field.now) coefficient }
    requires exponents { AllByRecursion (IsElement (F.degree _field.now)) exponents.now }
    requires sum { IsReduced (F.degree _field.now) sum.old.terms }
    ensures reduced { OnOk result (IsReduced (F.degree _field.now) sum.new.terms) }
    ensures values { OnOk result (AddsPowers (F.degree _field.now) (F.product _field.now) coefficient exponents.now sum.old.terms sum.new.terms) }
    ensures words { OnOk result ((all : ℕ) → IsZeros (drop all exponents.now) → AreOfWords all sum.old.terms → AreOfWords all sum.new.terms) }
{
    if coefficient == 0 {
        return Ok(());
    }
    let mono = Mono::new(alloc, &[], exponents)?;
    sum.add_term(mono, coefficient)
}
