//! One word in place of its bits.
ghost use Rattle.std.specs.Prelude.{◌<◌, ◌+◌, ◌^◌, length, IfErr, OnOk};
ghost use Rattle.gf_basis.specs.BasisParts.{IsBasisOver, elements_of};
ghost use Rattle.poly_mixed.specs.Polynomial.{IsReduced};
ghost use Rattle.word_subst.specs.Forms.{AreForms};
ghost use Rattle.word_subst.specs.ReadSteps.{TellsTerms};
ghost use Rattle.word_subst.specs.ReadRefusal.{IsWordRefusal};
ghost use Rattle.word_subst.specs.private.Reading.{IsReadTo, TellsAt, ReadsWord, ReadsUntold};

use crate::at_once::at_once;
use crate::forms::forms;
use crate::products::BitProducts;
use crate::sums::Sums;
use crate::tell::{tell, tell_firsts};
use crate::term::{add_term, follow_term};
use crate::univariate::Univariate;
use crate::whole::whole;
use gf_basis::Basis;
use gf_field::Field;
use poly_mixed::{Poly, ReduceFault, Stage, Steps, Term, check_size};
use std::alloc::{AllocError, Global};

// The term at a place: its products, its pairs, and the sum with it. Each of its stages is counted.
fn take_term<F: Field, T: Steps>(
    alloc: Global,
    field: &F,
    basis: &Basis,
    forms: &[Univariate],
    word: u32,
    terms: &[Term],
    s: usize,
    bound: u32,
    products: &mut BitProducts,
    sums: &mut Sums,
    steps: &mut T,
) -> Result<(), ReduceFault>
    requires word { word < 8 }
    requires forms { AreForms (F.degree field.now) (F.product field.now) (elements_of basis.now) forms.now }
    requires terms { IsReduced (F.degree field.now) terms.now }
    requires few { length terms.now < 2 ^ 32 }
    requires place { s < length terms.now }
    requires read { IsReadTo (F.degree field.now) (F.product field.now) (elements_of basis.now) word terms.now bound s products.old sums.old }
    ensures read { OnOk result (IsReadTo (F.degree field.now) (F.product field.now) (elements_of basis.now) word terms.now bound (s + 1) products.new sums.new) }
    ensures told { OnOk result (TellsAt (F.degree field.now) (F.product field.now) (elements_of basis.now) word terms.now s (T.steps steps.old) (T.steps steps.new)) }
    ensures fault { IfErr result (IsWordRefusal (F.degree field.now) (F.product field.now) (elements_of basis.now) word terms.now bound) }
{
    let term = &terms[s];
    let number = s as u32 + 1;
    follow_term(
        alloc, field, basis, forms, word, number, term, bound, products,
    )?;
    tell(alloc, field, basis, word, term, bound, products, steps)?;
    add_term(alloc, field, basis, word, term, bound, products, sums)?;
    let stage = Stage::WordSum { word, term: number };
    check_size(sums.len(), bound, stage)
}

// All terms, one after another.
fn take_terms<F: Field, T: Steps>(
    alloc: Global,
    field: &F,
    basis: &Basis,
    forms: &[Univariate],
    word: u32,
    terms: &[Term],
    bound: u32,
    products: &mut BitProducts,
    sums: &mut Sums,
    steps: &mut T,
) -> Result<(), ReduceFault>
    requires word { word < 8 }
    requires forms { AreForms (F.degree field.now) (F.product field.now) (elements_of basis.now) forms.now }
    requires terms { IsReduced (F.degree field.now) terms.now }
    requires few { length terms.now < 2 ^ 32 }
    requires read { IsReadTo (F.degree field.now) (F.product field.now) (elements_of basis.now) word terms.now bound 0 products.old sums.old }
    ensures read { OnOk result (IsReadTo (F.degree field.now) (F.product field.now) (elements_of basis.now) word terms.now bound (length terms.now) products.new sums.new) }
    ensures told { OnOk result (TellsTerms (F.degree field.now) (F.product field.now) (elements_of basis.now) word terms.now (T.steps steps.old) (T.steps steps.new)) }
    ensures fault { IfErr result (IsWordRefusal (F.degree field.now) (F.product field.now) (elements_of basis.now) word terms.now bound) }
{
    for s in 0..terms.len() {
        take_term(
            alloc, field, basis, forms, word, terms, s, bound, products, sums, steps,
        )?;
    }
    Ok(())
}

// Term by term: each stage is counted.
fn term_by_term<F: Field, T: Steps>(
    alloc: Global,
    field: &F,
    basis: &Basis,
    word: u32,
    terms: &[Term],
    bound: u32,
    steps: &mut T,
) -> Result<Poly, ReduceFault>
    requires over { IsBasisOver (F.degree field.now) (F.product field.now) basis.now }
    requires word { word < 8 }
    requires terms { IsReduced (F.degree field.now) terms.now }
    requires few { length terms.now < 2 ^ 32 }
    ensures read { ReadsWord (F.degree field.now) (F.product field.now) (elements_of basis.now) word terms.now bound (T.steps steps.old) (T.steps steps.new) result }
    ensures fault { IfErr result (IsWordRefusal (F.degree field.now) (F.product field.now) (elements_of basis.now) word terms.now bound) }
{
    let forms = forms(alloc, field, basis)?;
    let mut products = BitProducts::new(alloc, field, word, 0, bound)?;
    let mut sums = Sums::zero(alloc);
    take_terms(
        alloc,
        field,
        basis,
        &forms,
        word,
        terms,
        bound,
        &mut products,
        &mut sums,
        steps,
    )?;
    let poly = sums.to_poly(alloc, word)?;
    Ok(poly)
}

// The sum of all terms, where a recorder that tells no steps lets them be read at once.
fn untold<F: Field, T: Steps>(
    alloc: Global,
    field: &F,
    basis: &Basis,
    word: u32,
    terms: &[Term],
    bound: u32,
    steps: &T,
) -> Result<Option<Poly>, AllocError>
    requires over { IsBasisOver (F.degree field.now) (F.product field.now) basis.now }
    requires word { word < 8 }
    requires terms { IsReduced (F.degree field.now) terms.now }
    ensures { ReadsUntold (F.degree field.now) (F.product field.now) (elements_of basis.now) word terms.now bound (T.steps steps.now) result }
{
    if steps.tells() {
        return Ok(None);
    }
    at_once(alloc, field, basis, word, terms, bound)
}

// The sum of all terms, whose pairs are told: as a whole, or else term by term.
fn told_word<F: Field, T: Steps>(
    alloc: Global,
    field: &F,
    basis: &Basis,
    word: u32,
    terms: &[Term],
    bound: u32,
    steps: &mut T,
) -> Result<Poly, ReduceFault>
    requires over { IsBasisOver (F.degree field.now) (F.product field.now) basis.now }
    requires word { word < 8 }
    requires terms { IsReduced (F.degree field.now) terms.now }
    requires few { length terms.now < 2 ^ 32 }
    ensures read { ReadsWord (F.degree field.now) (F.product field.now) (elements_of basis.now) word terms.now bound (T.steps steps.old) (T.steps steps.new) result }
    ensures fault { IfErr result (IsWordRefusal (F.degree field.now) (F.product field.now) (elements_of basis.now) word terms.now bound) }
{
    match whole(alloc, field, basis, word, terms, bound)? {
        Some(poly) => {
            tell_firsts(alloc, field, basis, word, terms, steps)?;
            Ok(poly)
        }
        None => term_by_term(alloc, field, basis, word, terms, bound, steps),
    }
}

/// The sum of the terms of a polynomial, with their bits of the word read from the word, term by term in the order of a
/// text. The recorder gets the pairs of the terms. The fault is the first stage of more than `bound` terms, the products of
/// a term before the sum with it.
pub fn one_word<F: Field, T: Steps>(
    alloc: Global,
    field: &F,
    basis: &Basis,
    word: u32,
    terms: &[Term],
    bound: u32,
    steps: &mut T,
) -> Result<Poly, ReduceFault>
    requires over { IsBasisOver (F.degree field.now) (F.product field.now) basis.now }
    requires word { word < 8 }
    requires terms { IsReduced (F.degree field.now) terms.now }
    requires few { length terms.now < 2 ^ 32 }
    ensures read { ReadsWord (F.degree field.now) (F.product field.now) (elements_of basis.now) word terms.now bound (T.steps steps.old) (T.steps steps.new) result }
    ensures fault { IfErr result (IsWordRefusal (F.degree field.now) (F.product field.now) (elements_of basis.now) word terms.now bound) }
{
    match untold(alloc, field, basis, word, terms, bound, &*steps)? {
        Some(poly) => Ok(poly),
        None => told_word(alloc, field, basis, word, terms, bound, steps),
    }
}
