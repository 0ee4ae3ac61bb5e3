//! The stages of words, out of the polynomial in which the word is replaced.
ghost use Rattle.std.specs.Prelude.{◌≤◌, ◌<◌, ◌↔◌, length, IfOk, IfSome, IsSome};
ghost use Rattle.gf_basis.specs.BasisParts.{IsBasisOver, elements_of};
ghost use Rattle.poly_mixed.specs.Polynomial.{IsReduced, IsTerm};
ghost use Rattle.circuit_model.specs.Flat.{AreOver};
ghost use Rattle.stage_model.specs.WordStage.{word_bits};
ghost use Rattle.stage_model.specs.PlainWord.{IsProductOf, HasBitAt, IsProductStage, IsSumStage};

use crate::word_poly::{bit_count, product_poly, sum_poly};
use circuit_model::CircuitWord;
use gf_basis::Basis;
use gf_field::Field;
use poly_mixed::{Poly, Term};
use std::alloc::{AllocError, Global};

// The term with the first of its bits of the word, read from the word; none where it has no such bit.
fn product_if<F: Field>(
    alloc: Global,
    field: &F,
    basis: &Basis,
    word: u32,
    term: &Term,
    bit: u32,
) -> Result<Option<Poly>, AllocError>
    requires over { IsBasisOver (F.degree field.now) (F.product field.now) basis.now }
    requires word { word < 8 }
    requires term { IsTerm (F.degree field.now) term.now }
    ensures has { IfOk result (λ found. IsSome found ↔ ((1 ≤ bit) × (bit ≤ length (word_bits (F.degree field.now) word term.now)))) }
    ensures product { IfOk result (λ found. IfSome found (λ q. IsProductOf (F.degree field.now) (F.product field.now) (elements_of basis.now) word term.now bit q.terms)) }
{
    let count = bit_count(alloc, field, word, term)?;
    if 1 <= bit && bit as usize <= count {
        let poly = product_poly(alloc, field, basis, word, term, bit as usize)?;
        Ok(Some(poly))
    } else {
        Ok(None)
    }
}

/// The polynomial of the stage `word W term S bit J`, out of the polynomial in which the word is replaced, that of the
/// mix of the words before. Words are numbered from 0, terms and bits from 1. It is none exactly where there is no such
/// word, term or bit. Else it may only run out of memory.
pub fn word_product<F: Field>(
    alloc: Global,
    field: &F,
    words: &[CircuitWord],
    before: &Poly,
    word: u32,
    term: u32,
    bit: u32,
) -> Result<Option<Poly>, AllocError>
    requires over { AreOver (F.degree field.now) (F.product field.now) words.now }
    requires few { length words.now ≤ 8 }
    requires before { IsReduced (F.degree field.now) before.now.terms }
    ensures has { IfOk result (λ found. IsSome found ↔ HasBitAt (F.degree field.now) (length words.now) before.now.terms word term bit) }
    ensures stage { IfOk result (λ found. IfSome found (λ q. IsProductStage (F.degree field.now) (F.product field.now) words.now before.now.terms word term bit q.terms)) }
{
    let terms = before.terms(alloc)?;
    if (word as usize) < words.len() && 1 <= term && term as usize <= terms.len() {
        let of = &words[word as usize];
        let found = product_if(
            alloc,
            field,
            &of.basis,
            word,
            &terms[term as usize - 1],
            bit,
        )?;
        Ok(found)
    } else {
        Ok(None)
    }
}

/// The polynomial of the stage `word W sum S`, out of the polynomial in which the word is replaced, that of the mix of
/// the words before. Words are numbered from 0, terms from 1. It is none exactly where there is no such word or term.
/// Else it may only run out of memory.
pub fn word_sum<F: Field>(
    alloc: Global,
    field: &F,
    words: &[CircuitWord],
    before: &Poly,
    word: u32,
    term: u32,
) -> Result<Option<Poly>, AllocError>
    requires over { AreOver (F.degree field.now) (F.product field.now) words.now }
    requires few { length words.now ≤ 8 }
    requires before { IsReduced (F.degree field.now) before.now.terms }
    ensures has { IfOk result (λ found. IsSome found ↔ ((word < length words.now) × ((1 ≤ term) × (term ≤ length before.now.terms)))) }
    ensures stage { IfOk result (λ found. IfSome found (λ q. IsSumStage (F.degree field.now) (F.product field.now) words.now before.now.terms word term q.terms)) }
{
    let terms = before.terms(alloc)?;
    if (word as usize) < words.len() && 1 <= term && term as usize <= terms.len() {
        let of = &words[word as usize];
        let poly = sum_poly(alloc, field, &of.basis, word, &terms, term as usize)?;
        Ok(Some(poly))
    } else {
        Ok(None)
    }
}
