//! The running sum of a certificate. Products with forms of words are kept in rows by their monomials, and are added to the
//! polynomial only where its size is asked: lines that name bits of one word have the same squares of it.
ghost use Rattle.std.specs.Prelude.{◌≡◌, ◌↔◌, ◌+◌, ◌*◌, ◌<◌, ◌≤◌, ℕ, [], length, IfNone, IfOk, IfSome, IsTrue, OnOk};
ghost use Rattle.poly_mixed.specs.Polynomial.{IsReduced, IsTerm};
ghost use Rattle.cert_check.specs.private.Units.{units, AreTerms};
ghost use Rattle.cert_check.specs.private.Waiting.{most_of};
ghost use Rattle.circuit_model.specs.Bases.{AreBases};
ghost use Rattle.cert_check.specs.private.Held.{dual_of, whole, AddsSplit, AreRows, HoldsTheSame, IsForm, IsFormOrNone, IsHeld, IsRow, IsRowAt, IsRowOf, IsSettled, KeepsTerm, KeepsTerms};

use crate::form::Form;
use crate::multiple::add_products;
use crate::row::Row;
use crate::squares::add_rows;
use crate::term_map::TermMap;
use crate::term_sum::TermSum;
use gf_basis::Basis;
use gf_field::Field;
use net_words::Combinational;
use poly_mixed::{Mono, Term};
use std::alloc::{AllocError, Global};
use std::collections::BTreeMap;

/// A polynomial, and rows that are not yet added to it. Where `places` has no place of a monomial's row, or another, only
/// time is lost.
pub(crate) struct RunningSum {
    poly: TermSum,
    rows: Vec<Row>,
    places: BTreeMap<Mono, usize>,
}

// By hand, so that a caller that lets one go makes one call, and not one for each part.
impl Drop for RunningSum {
    fn drop(self) {
        let RunningSum { poly, rows, places } = self;
        drop(poly);
        drop(rows);
        drop(places);
    }
}

// Whether it is seen at once that the terms of a polynomial and rows of k coefficients are within the bound.
fn is_within(poly: &TermSum, rows: usize, k: u32, bound: u32) -> bool
    ensures seen { IsTrue result ↔ (most_of poly.now + rows * k ≤ bound) }
    ensures within { IsTrue result → length poly.now.terms + rows * k ≤ bound }
{
    let bound = bound as usize;
    match rows.checked_mul(k as usize) {
        Some(more) => more <= bound && poly.has_at_most(bound - more),
        None => false,
    }
}

// Adds the multiple of a form to the row at a place, which is of the term's monomial and the form's word.
fn add_at<F: Field>(
    field: &F,
    circuit: &Combinational,
    bases: &[Basis],
    rows: &mut [Row],
    i: usize,
    term: &Term,
    form: &Form,
)
    requires rows { AreRows circuit.now bases.now (F.degree field.now) rows.old }
    requires place { IsRowAt rows.old i term.now.0 form.now.word }
    requires term { IsTerm (F.degree field.now) term.now }
    requires form { IsForm circuit.now bases.now (F.degree field.now) form.now }
    ensures rows { AreRows circuit.now bases.now (F.degree field.now) rows.new }
    ensures values { KeepsTerm (F.degree field.now) (F.product field.now) (dual_of circuit.now bases.now) rows.old rows.new term.now form.now }
{
    rows[i].add(field, circuit, bases, form.place, term.coefficient());
}

// A row of a term's multiple of a form.
fn row_of<F: Field>(
    alloc: Global,
    field: &F,
    circuit: &Combinational,
    bases: &[Basis],
    term: &Term,
    form: &Form,
) -> Result<Row, AllocError>
    requires term { IsTerm (F.degree field.now) term.now }
    requires form { IsForm circuit.now bases.now (F.degree field.now) form.now }
    ensures row { IfOk result (IsRow circuit.now bases.now (F.degree field.now)) }
    ensures value { IfOk result (IsRowOf (F.degree field.now) (F.product field.now) (dual_of circuit.now bases.now) term.now form.now) }
{
    let mut row = Row::new(alloc, field.k(), term.mono(), form.word)?;
    row.add(field, circuit, bases, form.place, term.coefficient());
    Ok(row)
}

impl RunningSum {
    /// A polynomial, and no rows.
    pub(crate) fn new(alloc: Global, poly: TermMap) -> RunningSum
        ensures whole { (k : ℕ) (mul : ℕ → ℕ → ℕ) (dual : ℕ → ℕ → ℕ) → whole k mul dual result ≡ poly.terms }
        ensures held { (bound : _) (bases : _) (k : ℕ) → IsReduced k poly.terms → IsHeld bound bases k result }
    {
        RunningSum {
            poly: TermSum::of(alloc, poly),
            rows: Vec::new(alloc),
            places: BTreeMap::new(alloc),
        }
    }

    // The place of the row of a monomial and a word, where it is known.
    fn place_of(&self, mono: &Mono, word: u32) -> Option<usize>
        ensures { IfSome result (λ i. IsRowAt self.now.rows.items i mono.now word) }
    {
        let i = *self.places.get(mono)?;
        let row = self.rows.as_slice().get(i)?;
        if row.word == word && row.mono == *mono {
            Some(i)
        } else {
            None
        }
    }

    // A new row, of a term's multiple of a form.
    fn begin<F: Field>(
        &mut self,
        alloc: Global,
        field: &F,
        circuit: &Combinational,
        bases: &[Basis],
        term: &Term,
        form: &Form,
    ) -> Result<(), AllocError>
        requires rows { AreRows circuit.now bases.now (F.degree field.now) self.old.rows.items }
        requires term { IsTerm (F.degree field.now) term.now }
        requires form { IsForm circuit.now bases.now (F.degree field.now) form.now }
        ensures poly { OnOk result (self.new.poly.terms ≡ self.old.poly.terms) }
        ensures rows { OnOk result (AreRows circuit.now bases.now (F.degree field.now) self.new.rows.items) }
        ensures values { OnOk result (KeepsTerm (F.degree field.now) (F.product field.now) (dual_of circuit.now bases.now) self.old.rows.items self.new.rows.items term.now form.now) }
    {
        let mono = Mono::new(alloc, term.mono().bits(), term.mono().exponents())?;
        self.places.insert(mono, self.rows.len())?;
        let row = row_of(alloc, field, circuit, bases, term, form)?;
        self.rows.push(row)?;
        Ok(())
    }

    // Keeps the product of a term and a form.
    fn keep<F: Field>(
        &mut self,
        alloc: Global,
        field: &F,
        circuit: &Combinational,
        bases: &[Basis],
        term: &Term,
        form: &Form,
    ) -> Result<(), AllocError>
        requires rows { AreRows circuit.now bases.now (F.degree field.now) self.old.rows.items }
        requires term { IsTerm (F.degree field.now) term.now }
        requires form { IsForm circuit.now bases.now (F.degree field.now) form.now }
        ensures poly { OnOk result (self.new.poly.terms ≡ self.old.poly.terms) }
        ensures rows { OnOk result (AreRows circuit.now bases.now (F.degree field.now) self.new.rows.items) }
        ensures values { OnOk result (KeepsTerm (F.degree field.now) (F.product field.now) (dual_of circuit.now bases.now) self.old.rows.items self.new.rows.items term.now form.now) }
    {
        match self.place_of(term.mono(), form.word) {
            Some(i) => {
                add_at(
                    field,
                    circuit,
                    bases,
                    self.rows.as_mut_slice(),
                    i,
                    term,
                    form,
                );
                Ok(())
            }
            None => self.begin(alloc, field, circuit, bases, term, form),
        }
    }

    // Keeps the product of a polynomial's terms and a form.
    fn keep_all<F: Field>(
        &mut self,
        alloc: Global,
        field: &F,
        circuit: &Combinational,
        bases: &[Basis],
        terms: &[Term],
        form: &Form,
    ) -> Result<(), AllocError>
        requires rows { AreRows circuit.now bases.now (F.degree field.now) self.old.rows.items }
        requires terms { IsReduced (F.degree field.now) terms.now }
        requires form { IsForm circuit.now bases.now (F.degree field.now) form.now }
        ensures poly { OnOk result (self.new.poly.terms ≡ self.old.poly.terms) }
        ensures rows { OnOk result (AreRows circuit.now bases.now (F.degree field.now) self.new.rows.items) }
        ensures values { OnOk result (KeepsTerms (F.degree field.now) (F.product field.now) (dual_of circuit.now bases.now) self.old.rows.items self.new.rows.items terms.now form.now) }
    {
        for term in terms {
            self.keep(alloc, field, circuit, bases, term, form)?;
        }
        Ok(())
    }

    /// Adds the product of a polynomial's terms with the sum of monomials and a form.
    pub(crate) fn add_product<F: Field>(
        &mut self,
        alloc: Global,
        field: &F,
        circuit: &Combinational,
        bases: &[Basis],
        factor: &[Term],
        near: &[Mono],
        form: &Option<Form>,
    ) -> Result<(), AllocError>
        requires held { IsHeld circuit.now bases.now (F.degree field.now) self.old }
        requires factor { IsReduced (F.degree field.now) factor.now }
        requires near { AreTerms (F.degree field.now) (units near.now) }
        requires form { IsFormOrNone circuit.now bases.now (F.degree field.now) form.now }
        ensures held { OnOk result (IsHeld circuit.now bases.now (F.degree field.now) self.new) }
        ensures values { OnOk result (AddsSplit (F.degree field.now) (F.product field.now) (dual_of circuit.now bases.now) self.old self.new factor.now (units near.now) form.now) }
    {
        add_products(alloc, field, factor, near, &mut self.poly)?;
        match form {
            Some(form) => self.keep_all(alloc, field, circuit, bases, factor, form),
            None => Ok(()),
        }
    }

    /// Adds the rows to the polynomial, and the terms that wait to its map.
    pub(crate) fn flush<F: Field>(
        &mut self,
        alloc: Global,
        field: &F,
        circuit: &Combinational,
        bases: &[Basis],
    ) -> Result<(), AllocError>
        requires bases { AreBases (F.degree field.now) (F.product field.now) circuit.now bases.now }
        requires held { IsHeld circuit.now bases.now (F.degree field.now) self.old }
        ensures rows { OnOk result (self.new.rows.items ≡ []) }
        ensures none { OnOk result (self.new.poly.waiting ≡ 0) }
        ensures poly { OnOk result (self.new.poly.terms ≡ whole (F.degree field.now) (F.product field.now) (dual_of circuit.now bases.now) self.old) }
    {
        add_rows(
            alloc,
            field,
            circuit,
            bases,
            self.rows.as_slice(),
            &mut self.poly,
        )?;
        self.rows.clear();
        self.places = BTreeMap::new(alloc);
        self.poly.gather()?;
        Ok(())
    }

    /// Adds the rows to the polynomial, unless the size is within the bound whatever they are.
    pub(crate) fn settle<F: Field>(
        &mut self,
        alloc: Global,
        field: &F,
        circuit: &Combinational,
        bases: &[Basis],
        bound: u32,
    ) -> Result<(), AllocError>
        requires bases { AreBases (F.degree field.now) (F.product field.now) circuit.now bases.now }
        requires held { IsHeld circuit.now bases.now (F.degree field.now) self.old }
        ensures same { OnOk result (HoldsTheSame (F.degree field.now) (F.product field.now) (dual_of circuit.now bases.now) self.old self.new) }
        ensures held { OnOk result (IsHeld circuit.now bases.now (F.degree field.now) self.new) }
        ensures settled { OnOk result (IsSettled (F.degree field.now) bound self.new) }
    {
        if is_within(&self.poly, self.rows.len(), field.k(), bound) {
            return Ok(());
        }
        self.flush(alloc, field, circuit, bases)
    }

    /// The size, if it is over the bound.
    pub(crate) fn over(&self, k: u32, bound: u32) -> Option<usize>
        requires { IsSettled k bound self.now }
        ensures within { (mul : ℕ → ℕ → ℕ) (dual : ℕ → ℕ → ℕ) → IfNone result (length (whole k mul dual self.now) ≤ bound) }
        ensures over { (mul : ℕ → ℕ → ℕ) (dual : ℕ → ℕ → ℕ) → IfSome result (λ n. (n ≡ length (whole k mul dual self.now)) × (bound < n)) }
    {
        if is_within(&self.poly, self.rows.len(), k, bound) {
            return None;
        }
        Some(self.poly.len())
    }

    /// The size, where there are no rows and no terms wait.
    pub(crate) fn len(&self) -> usize
        requires rows { self.now.rows.items ≡ [] }
        requires none { self.now.poly.waiting ≡ 0 }
        ensures { (k : ℕ) (mul : ℕ → ℕ → ℕ) (dual : ℕ → ℕ → ℕ) → result ≡ length (whole k mul dual self.now) }
    {
        self.poly.len()
    }
}
