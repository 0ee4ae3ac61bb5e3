//! Rows that are added to a polynomial: as one term where the coefficients are those of the word itself, else as a sum of
//! repeated squares of the word.
ghost use Rattle.std.specs.Prelude.{◌≡◌, ℕ, ◌<◌, length, replicate, slice_index, IfOk, IfSome, IsTrue, OnOk};
ghost use Rattle.gf_basis.specs.BasisParts.{duals_of, elements_of, IsBasisOver};
ghost use Rattle.circuit_model.specs.Bases.{AreBases};
ghost use Rattle.poly_mixed.specs.Polynomial.{IsElement, IsReduced};
ghost use Rattle.cert_check.specs.private.Held.{dual_of, with_first, with_rows, AreRows, AreSquaresOf, IsRow};
ghost use Rattle.cert_check.specs.private.Squares.{conjugates, AreMultiples, AreSquares, GrowByMultiples};

use crate::multiple::product_by;
use crate::row::Row;
use crate::term_sum::TermSum;
use crate::words::input_basis;
use gf_basis::Basis;
use gf_field::Field;
use net_words::Combinational;
use std::alloc::{AllocError, Global};

// Adds multiples of the first k entries of one list to those of another.
fn add_multiples<F: Field>(field: &F, c: u64, from: &[u64; 64], to: &mut [u64])
    requires element { IsElement (F.degree field.now) c }
    requires elements { (j : ℕ) → j < F.degree field.now → IsElement (F.degree field.now) (slice_index from.now j) }
    requires long { length to.old ≡ F.degree field.now }
    ensures long { length to.new ≡ length to.old }
    ensures sums { GrowByMultiples (F.degree field.now) (F.product field.now) c (slice_index from.now) to.old to.new }
{
    let table = field.times(c);
    for j in 0..to.len() {
        to[j] ^= product_by(field, c, &table, from[j]);
    }
}

// Adds a multiple of the form of a bit, where the multiple is not 0.
fn add_form<F: Field>(field: &F, basis: &Basis, place: u32, c: u64, to: &mut [u64])
    requires over { IsBasisOver (F.degree field.now) (F.product field.now) basis.now }
    requires place { place < F.degree field.now }
    requires element { IsElement (F.degree field.now) c }
    requires long { length to.old ≡ F.degree field.now }
    ensures long { length to.new ≡ length to.old }
    ensures sums { GrowByMultiples (F.degree field.now) (F.product field.now) c (conjugates (F.product field.now) (slice_index (duals_of basis.now) place)) to.old to.new }
{
    if c != 0 {
        let form = basis.linear_of(field, place);
        add_multiples(field, c, &form, to);
    }
}

// So many zeros.
fn zeros(alloc: Global, count: u32) -> Result<Vec<u64>, AllocError>
    ensures { IfOk result (λ v. v.items ≡ replicate count 0) }
{
    let list = vec![in alloc; 0; count as usize]?;
    Ok(list)
}

// What the repeated squares of the word are multiplied by in a sum of multiples of the forms of its bits.
fn squares<F: Field>(
    alloc: Global,
    field: &F,
    basis: &Basis,
    coefficients: &[u64],
) -> Result<Vec<u64>, AllocError>
    requires over { IsBasisOver (F.degree field.now) (F.product field.now) basis.now }
    requires long { length coefficients.now ≡ F.degree field.now }
    requires elements { (i : ℕ) → i < F.degree field.now → IsElement (F.degree field.now) (slice_index coefficients.now i) }
    ensures { IfOk result (λ v. AreSquares (F.degree field.now) (F.product field.now) (duals_of basis.now) coefficients.now (F.degree field.now) v.items) }
{
    let k = field.k();
    let mut list = zeros(alloc, k)?;
    for place in 0..k {
        let c = coefficients[place as usize];
        add_form(field, basis, place, c, list.as_mut_slice());
    }
    Ok(list)
}

// A sum, to which a coefficient is added where it is chosen.
fn with_chosen<F: Field>(_field: &F, sum: u64, coefficient: u64, chosen: bool) -> u64
    requires sum { IsElement (F.degree _field.now) sum }
    requires coefficient { IsElement (F.degree _field.now) coefficient }
    ensures { IsElement (F.degree _field.now) result }
{
    if chosen { sum ^ coefficient } else { sum }
}

// The sum of the coefficients at the places of the bits that are set: where the coefficients are an element's multiples of a
// basis and the bits are those of 1, it is the element.
fn chosen<F: Field>(field: &F, coefficients: &[u64], bits: u64) -> u64
    requires long { length coefficients.now ≡ F.degree field.now }
    requires elements { (i : ℕ) → i < F.degree field.now → IsElement (F.degree field.now) (slice_index coefficients.now i) }
    ensures { IsElement (F.degree field.now) result }
{
    let mut sum = 0;
    for i in 0..field.k() {
        let is_chosen = (bits >> i) & 1 == 1;
        sum = with_chosen(field, sum, coefficients[i as usize], is_chosen);
    }
    sum
}

// Whether the coefficients are the multiples of the basis by an element.
fn are_multiples<F: Field>(field: &F, basis: &Basis, coefficients: &[u64], c: u64) -> bool
    requires over { IsBasisOver (F.degree field.now) (F.product field.now) basis.now }
    requires long { length coefficients.now ≡ F.degree field.now }
    requires element { IsElement (F.degree field.now) c }
    ensures { IsTrue result → AreMultiples (F.degree field.now) (F.product field.now) (elements_of basis.now) c coefficients.now }
{
    let table = field.times(c);
    for place in 0..field.k() {
        let product = product_by(field, c, &table, basis.element(place));
        if coefficients[place as usize] != product {
            return false;
        }
    }
    true
}

// The element by which the word is multiplied, where the coefficients are its multiples of the basis.
fn factor<F: Field>(field: &F, basis: &Basis, coefficients: &[u64]) -> Option<u64>
    requires over { IsBasisOver (F.degree field.now) (F.product field.now) basis.now }
    requires long { length coefficients.now ≡ F.degree field.now }
    requires elements { (i : ℕ) → i < F.degree field.now → IsElement (F.degree field.now) (slice_index coefficients.now i) }
    ensures { IfSome result (λ c. AreMultiples (F.degree field.now) (F.product field.now) (elements_of basis.now) c coefficients.now) }
{
    let bits = basis.bits_of(field, 1);
    let c = chosen(field, coefficients, bits);
    if are_multiples(field, basis, coefficients, c) {
        Some(c)
    } else {
        None
    }
}

// Adds the repeated squares of a row's word with these coefficients.
fn add_squares<F: Field>(
    alloc: Global,
    field: &F,
    circuit: &Combinational,
    bases: &[Basis],
    row: &Row,
    list: &[u64],
    poly: &mut TermSum,
) -> Result<(), AllocError>
    requires row { IsRow circuit.now bases.now (F.degree field.now) row.now }
    requires long { length list.now ≡ F.degree field.now }
    requires squares { AreSquaresOf (F.degree field.now) (F.product field.now) (dual_of circuit.now bases.now) row.now list.now }
    ensures { OnOk result (poly.new.terms ≡ with_first (F.degree field.now) (F.product field.now) (dual_of circuit.now bases.now) row.now (F.degree field.now) poly.old.terms) }
{
    for j in 0..field.k() {
        let c = list[j as usize];
        row.add_square(alloc, field, circuit, bases, j, c, poly)?;
    }
    Ok(())
}

// Adds a row.
fn add_row<F: Field>(
    alloc: Global,
    field: &F,
    circuit: &Combinational,
    bases: &[Basis],
    row: &Row,
    poly: &mut TermSum,
) -> Result<(), AllocError>
    requires bases { AreBases (F.degree field.now) (F.product field.now) circuit.now bases.now }
    requires row { IsRow circuit.now bases.now (F.degree field.now) row.now }
    requires poly { IsReduced (F.degree field.now) poly.old.terms }
    ensures poly { OnOk result (poly.new.terms ≡ with_first (F.degree field.now) (F.product field.now) (dual_of circuit.now bases.now) row.now (F.degree field.now) poly.old.terms) }
{
    let basis = input_basis(circuit.binding(), bases, row.word);
    let coefficients = row.coefficients.as_slice();
    match factor(field, basis, coefficients) {
        Some(c) => row.add_square(alloc, field, circuit, bases, 0, c, poly),
        None => {
            let list = squares(alloc, field, basis, coefficients)?;
            add_squares(alloc, field, circuit, bases, row, &list, poly)
        }
    }
}

/// Adds rows to a polynomial.
pub(crate) fn add_rows<F: Field>(
    alloc: Global,
    field: &F,
    circuit: &Combinational,
    bases: &[Basis],
    rows: &[Row],
    poly: &mut TermSum,
) -> Result<(), AllocError>
    requires bases { AreBases (F.degree field.now) (F.product field.now) circuit.now bases.now }
    requires rows { AreRows circuit.now bases.now (F.degree field.now) rows.now }
    requires poly { IsReduced (F.degree field.now) poly.old.terms }
    ensures { OnOk result (poly.new.terms ≡ with_rows (F.degree field.now) (F.product field.now) (dual_of circuit.now bases.now) rows.now poly.old.terms) }
{
    for row in rows {
        add_row(alloc, field, circuit, bases, row, poly)?;
    }
    Ok(())
}
