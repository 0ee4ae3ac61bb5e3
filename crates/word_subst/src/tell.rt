//! The pairs of a term's bits of the word.
ghost use Rattle.std.specs.Prelude.{◌≡◌, ◌≢◌, ◌<◌, ◌+◌, ℕ, length, List, Option, OnOk, IsTrue};
ghost use Rattle.std.specs.List.{AllByRecursion};
ghost use Rattle.gf_basis.specs.BasisParts.{elements_of};
ghost use Rattle.poly_mixed.specs.Polynomial.{IsReduced, IsTerm};
ghost use Rattle.poly_mixed.specs.Steps.{Step};
ghost use Rattle.stage_model.specs.WordStage.{word_bits};
ghost use Rattle.word_subst.specs.ReadSteps.{TellsFirst, TellsTerm, TellsTerms};
ghost use Rattle.word_subst.specs.Rest.{rest_of};
ghost use Rattle.word_subst.specs.Whole.{HasFirst};
ghost use Rattle.word_subst.specs.private.Reading.{IsFollowed};

use crate::multiple::scaled;
use crate::product::with_bits;
use crate::products::BitProducts;
use crate::rest::rest;
use crate::sums::spread_poly;
use gf_basis::Basis;
use gf_field::Field;
use poly_mixed::{Generator, Mono, Poly, Steps, Term};
use std::alloc::{AllocError, Global};

// Hands it the pair of the bit at a place of the list of the term's bits of the word; the rest of the term is given.
fn tell_bit<F: Field, T: Steps>(
    alloc: Global,
    field: &F,
    _basis: &Basis,
    word: u32,
    term: &Term,
    _bound: u32,
    own: &[u32],
    products: &BitProducts,
    others: &Mono,
    j: usize,
    steps: &mut T,
) -> Result<(), AllocError>
    requires word { word < 8 }
    requires followed { IsFollowed (F.degree field.now) (F.product field.now) (elements_of _basis.now) word term.now _bound products.now }
    requires own { own.now ≡ products.now.ranks }
    requires others { others.now ≡ rest_of (F.degree field.now) word term.now.0 }
    requires place { j < length own.now }
    ensures { OnOk result ((first : Option (List Step)) → TellsFirst (F.degree field.now) (F.product field.now) (elements_of _basis.now) word term.now j first (T.steps steps.old) → TellsFirst (F.degree field.now) (F.product field.now) (elements_of _basis.now) word term.now (j + 1) first (T.steps steps.new)) }
{
    let k = field.k();
    let part = scaled(alloc, field, products.at(j), term.coefficient())?;
    let product = spread_poly(alloc, word, others, &part)?;
    let multiplier = with_bits(alloc, field, &product, &own[j + 1..])?;
    let place = own[j] - k * word;
    steps.step(Generator::Bit { word, place }, &multiplier)
}

// Hands it the pair of the term's one bit of the word, which is the first of its bits: that bit, and the term without it.
fn tell_first<F: Field, T: Steps>(
    alloc: Global,
    field: &F,
    _basis: &Basis,
    word: u32,
    term: &Term,
    steps: &mut T,
) -> Result<(), AllocError>
    requires word { word < 8 }
    requires term { IsTerm (F.degree field.now) term.now }
    requires some { term.now.1 ≢ 0 }
    requires first { HasFirst word (F.degree field.now) term.now }
    ensures { OnOk result (TellsTerm (F.degree field.now) (F.product field.now) (elements_of _basis.now) word term.now (T.steps steps.old) (T.steps steps.new)) }
{
    let bits = term.mono().bits();
    let others = Mono::new(alloc, &bits[1..], term.mono().exponents())?;
    let multiplier = Poly::term(alloc, field, term.coefficient(), others)?;
    let place = bits[0] - field.k() * word;
    steps.step(Generator::Bit { word, place }, &multiplier)
}

// Whether the first bit of a term is its only one of the word, of which these are all.
fn has_first(term: &Term, own: &[u32]) -> bool
    ensures { (k w : ℕ) → own.now ≡ word_bits k w term.now → IsTrue result → HasFirst w k term.now }
{
    let bits = term.mono().bits();
    if own.len() != 1 {
        return false;
    }
    if bits.is_empty() {
        return false;
    }
    bits[0] == own[0]
}

/// Hands a recorder that tells its steps a pair for each of the term's bits of the word, by rising place: the bit, and the
/// product before it with the term's later bits of the word.
pub fn tell<F: Field, T: Steps>(
    alloc: Global,
    field: &F,
    basis: &Basis,
    word: u32,
    term: &Term,
    bound: u32,
    products: &BitProducts,
    steps: &mut T,
) -> Result<(), AllocError>
    requires word { word < 8 }
    requires followed { IsFollowed (F.degree field.now) (F.product field.now) (elements_of basis.now) word term.now bound products.now }
    ensures { OnOk result (TellsTerm (F.degree field.now) (F.product field.now) (elements_of basis.now) word term.now (T.steps steps.old) (T.steps steps.new)) }
{
    if !steps.tells() {
        return Ok(());
    }
    let own = products.ranks();
    if has_first(term, own) {
        return tell_first(alloc, field, basis, word, term, steps);
    }
    let others = rest(alloc, term.mono(), field.k(), word)?;
    for j in 0..own.len() {
        tell_bit(
            alloc, field, basis, word, term, bound, own, products, &others, j, steps,
        )?;
    }
    Ok(())
}

/// Hands a recorder that tells its steps the pair of each term's one bit of the word, which is the first of its bits: that
/// bit, and the term without it.
pub fn tell_firsts<F: Field, T: Steps>(
    alloc: Global,
    field: &F,
    basis: &Basis,
    word: u32,
    terms: &[Term],
    steps: &mut T,
) -> Result<(), AllocError>
    requires word { word < 8 }
    requires terms { IsReduced (F.degree field.now) terms.now }
    requires firsts { AllByRecursion (HasFirst word (F.degree field.now)) terms.now }
    ensures { OnOk result (TellsTerms (F.degree field.now) (F.product field.now) (elements_of basis.now) word terms.now (T.steps steps.old) (T.steps steps.new)) }
{
    if !steps.tells() {
        return Ok(());
    }
    for s in 0..terms.len() {
        tell_first(alloc, field, basis, word, &terms[s], steps)?;
    }
    Ok(())
}
