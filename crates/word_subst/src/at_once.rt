//! All terms of a polynomial read from a word at once, where no stage can be over the bound: no stage is counted, and the
//! linear forms are multiplied with sums of terms in place of one term after another.
ghost use Rattle.std.specs.Prelude.{◌≡◌, ◌≢◌, ◌<◌, ◌≤◌, ◌+◌, ◌*◌, ◌^◌, ◌++◌, ◌∷◌, [], not, map, length, slice_index, if◌then◌else◌, IfOk, IfSome, IsTrue, OnOk};
ghost use Rattle.std.specs.List.{AllByRecursion, filter};
ghost use Rattle.gf_basis.specs.BasisParts.{IsBasisOver, elements_of};
ghost use Rattle.poly_mixed.specs.Monomial.{has_bit};
ghost use Rattle.poly_mixed.specs.Polynomial.{IsReduced, IsTerm};
ghost use Rattle.word_subst.specs.Univariate.{IsUnivariate};
ghost use Rattle.word_subst.specs.Forms.{AreForms};
ghost use Rattle.word_subst.specs.Rest.{rest_of};
ghost use Rattle.word_subst.specs.AtOnce.{IsReadFrom, IsSumOfPowers, IsPlusProduct, IsReadAtOnce};

use crate::forms::forms;
use crate::multiple::product;
use crate::rest::rest;
use crate::sums::spread_poly;
use crate::univariate::Univariate;
use gf_basis::Basis;
use gf_field::Field;
use poly_mixed::{Mono, Poly, Term};
use std::alloc::{AllocError, Global};

// Whether 2^k terms are within the bound.
fn is_wide(k: u32, bound: u32) -> bool
    ensures { IsTrue result → 2 ^ k ≤ bound }
{
    k < 32 && 1u64 << k <= u64::from(bound)
}

// Whether a term has the bit of a rank.
fn has(term: &Term, rank: u32) -> bool
    ensures { result ≡ has_bit rank term.now.0 }
{
    term.mono().bits().contains(&rank)
}

// Adds a term that is to be taken.
fn add_taken<'a>(term: &'a Term, take: bool, list: &mut Vec<&'a Term>) -> Result<(), AllocError>
    ensures { OnOk result (list.new.items ≡ list.old.items ++ (if take then term.entry ∷ [] else [])) }
{
    if take {
        list.push(term)?;
    }
    Ok(())
}

// The terms that have the bit of a rank.
fn with_bit<'a>(alloc: Global, terms: &[&'a Term], rank: u32) -> Result<Vec<&'a Term>, AllocError>
    ensures { IfOk result (λ v. v.items ≡ filter (λ t. has_bit rank t.now.0) terms.now) }
{
    let mut list = Vec::new(alloc);
    for term in terms {
        add_taken(*term, has(*term, rank), &mut list)?;
    }
    Ok(list)
}

// The terms that have it not.
fn without_bit<'a>(
    alloc: Global,
    terms: &[&'a Term],
    rank: u32,
) -> Result<Vec<&'a Term>, AllocError>
    ensures { IfOk result (λ v. v.items ≡ filter (λ t. not (has_bit rank t.now.0)) terms.now) }
{
    let mut list = Vec::new(alloc);
    for term in terms {
        add_taken(*term, !has(*term, rank), &mut list)?;
    }
    Ok(list)
}

// One polynomial plus the product of two others.
fn plus_product<F: Field>(
    alloc: Global,
    field: &F,
    low: &Univariate,
    high: &Univariate,
    form: &Univariate,
) -> Result<Univariate, AllocError>
    requires low { IsUnivariate (F.degree field.now) low.now }
    requires high { IsUnivariate (F.degree field.now) high.now }
    requires form { IsUnivariate (F.degree field.now) form.now }
    ensures { IfOk result (IsPlusProduct (F.degree field.now) (F.product field.now) low.now high.now form.now) }
{
    let times = product(alloc, field, high, form)?;
    low.plus(alloc, field, &times)
}

// The term's power of the word times its coefficient.
fn power(alloc: Global, word: u32, term: &Term) -> Result<Univariate, AllocError>
    requires word { word < 8 }
    ensures { IfOk result (λ u. u ≡ (slice_index term.now.0.exponents word, term.now.1) ∷ []) }
{
    let start = term.mono().exponents()[word as usize];
    let mut one = Univariate::zero(alloc);
    one.push(start, term.coefficient())?;
    Ok(one)
}

// The sum of the terms' powers of the word with their coefficients.
fn powers<F: Field>(
    alloc: Global,
    field: &F,
    _basis: &Basis,
    word: u32,
    terms: &[&Term],
) -> Result<Univariate, AllocError>
    requires word { word < 8 }
    requires terms { AllByRecursion (λ t. IsTerm (F.degree field.now) t.now) terms.now }
    requires some { AllByRecursion (λ t. t.now.1 ≢ 0) terms.now }
    ensures { IfOk result (IsSumOfPowers (F.degree field.now) (F.product field.now) (elements_of _basis.now) word (map (λ t. t.now) terms.now)) }
{
    let mut sum = Univariate::zero(alloc);
    for term in terms {
        let one = power(alloc, word, *term)?;
        sum = sum.plus(alloc, field, &one)?;
    }
    Ok(sum)
}

// The sum of terms without their bits of other words, and without those of the word that stand below a place: first those
// that lack the bit at this place, then those that have it, times its form.
fn read_from<F: Field>(
    alloc: Global,
    field: &F,
    basis: &Basis,
    forms: &[Univariate],
    word: u32,
    terms: &[&Term],
    place: u32,
) -> Result<Univariate, AllocError>
    requires word { word < 8 }
    requires place { place ≤ F.degree field.now }
    requires forms { AreForms (F.degree field.now) (F.product field.now) (elements_of basis.now) forms.now }
    requires terms { AllByRecursion (λ t. IsTerm (F.degree field.now) t.now) terms.now }
    requires some { AllByRecursion (λ t. t.now.1 ≢ 0) terms.now }
    ensures { IfOk result (IsReadFrom (F.degree field.now) (F.product field.now) (elements_of basis.now) word place (map (λ t. t.now) terms.now)) }
{
    if terms.is_empty() {
        return Ok(Univariate::zero(alloc));
    }
    if place == field.k() {
        return powers(alloc, field, basis, word, terms);
    }
    let rank = field.k() * word + place;
    let lack = without_bit(alloc, terms, rank)?;
    let low = read_from(alloc, field, basis, forms, word, &lack, place + 1)?;
    let have = with_bit(alloc, terms, rank)?;
    let high = read_from(alloc, field, basis, forms, word, &have, place + 1)?;
    plus_product(alloc, field, &low, &high, &forms[place as usize])
}

// All terms by reference.
fn all<'a>(alloc: Global, terms: &'a [Term]) -> Result<Vec<&'a Term>, AllocError>
    ensures { IfOk result (λ v. map (λ t. t.now) v.items ≡ terms.now) }
{
    let mut list = Vec::new(alloc);
    for term in terms {
        list.push(term)?;
    }
    Ok(list)
}

// Whether a term has this monomial beside the word and its bits.
#[tactic(auto, using(poly_mixed::proofs::SharedLemmas::same_monomial))]
fn same_rest(
    alloc: Global,
    term: &Term,
    k: u32,
    word: u32,
    first: &Mono,
) -> Result<bool, AllocError>
    requires k { k ≤ 64 }
    requires word { word < 8 }
    ensures { IfOk result (λ same. IsTrue same → rest_of k word term.now.0 ≡ first.now) }
{
    let other = rest(alloc, term.mono(), k, word)?;
    let same = other == *first;
    Ok(same)
}

// Whether all terms have this monomial beside the word and its bits.
fn have_rest(
    alloc: Global,
    terms: &[Term],
    k: u32,
    word: u32,
    first: &Mono,
) -> Result<bool, AllocError>
    requires k { k ≤ 64 }
    requires word { word < 8 }
    ensures { IfOk result (λ all. IsTrue all → AllByRecursion (λ t. rest_of k word t.0 ≡ first.now) terms.now) }
{
    for term in terms {
        let same = same_rest(alloc, term, k, word, first)?;
        if !same {
            return Ok(false);
        }
    }
    Ok(true)
}

// What all terms have beside the word and its bits, if it is one monomial.
fn one_rest(alloc: Global, terms: &[Term], k: u32, word: u32) -> Result<Option<Mono>, AllocError>
    requires k { k ≤ 64 }
    requires word { word < 8 }
    ensures rest { IfOk result (λ o. IfSome o (λ m. AllByRecursion (λ t. rest_of k word t.0 ≡ m) terms.now)) }
    ensures some { IfOk result (λ o. IfSome o (λ m. 1 ≤ length terms.now)) }
{
    if terms.is_empty() {
        return Ok(None);
    }
    let first = rest(alloc, terms[0].mono(), k, word)?;
    let all = have_rest(alloc, terms, k, word, &first)?;
    if !all {
        return Ok(None);
    }
    Ok(Some(first))
}

// The sum of all terms, which have this one rest.
fn read_all<F: Field>(
    alloc: Global,
    field: &F,
    basis: &Basis,
    word: u32,
    terms: &[Term],
    rest: &Mono,
    _bound: u32,
) -> Result<Poly, AllocError>
    requires over { IsBasisOver (F.degree field.now) (F.product field.now) basis.now }
    requires word { word < 8 }
    requires terms { IsReduced (F.degree field.now) terms.now }
    requires rest { AllByRecursion (λ t. rest_of (F.degree field.now) word t.0 ≡ rest.now) terms.now }
    requires some { 1 ≤ length terms.now }
    requires wide { 2 ^ F.degree field.now ≤ _bound }
    ensures { IfOk result (λ q. IsReadAtOnce (F.degree field.now) (F.product field.now) (elements_of basis.now) word terms.now _bound q.terms) }
{
    let forms = forms(alloc, field, basis)?;
    let list = all(alloc, terms)?;
    let powers = read_from(alloc, field, basis, &forms, word, &list, 0)?;
    spread_poly(alloc, word, rest, &powers)
}

/// The sum of all terms of a polynomial, with their bits of the word read from the word, where all have one monomial beside
/// the word and its bits and 2^k terms are within the bound: then no stage is over it. None where this is not so.
pub fn at_once<F: Field>(
    alloc: Global,
    field: &F,
    basis: &Basis,
    word: u32,
    terms: &[Term],
    bound: u32,
) -> Result<Option<Poly>, AllocError>
    requires over { IsBasisOver (F.degree field.now) (F.product field.now) basis.now }
    requires word { word < 8 }
    requires terms { IsReduced (F.degree field.now) terms.now }
    ensures { IfOk result (λ o. IfSome o (λ q. IsReadAtOnce (F.degree field.now) (F.product field.now) (elements_of basis.now) word terms.now bound q.terms)) }
{
    if !is_wide(field.k(), bound) {
        return Ok(None);
    }
    match one_rest(alloc, terms, field.k(), word)? {
        Some(rest) => {
            let poly = read_all(alloc, field, basis, word, terms, &rest, bound)?;
            Ok(Some(poly))
        }
        None => Ok(None),
    }
}
