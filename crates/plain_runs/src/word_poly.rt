//! Stages of a word as polynomials, out of the terms of the polynomial in which the word is replaced.
ghost use Rattle.std.specs.Prelude.{◌≡◌, ◌≤◌, ◌<◌, length, IfOk};
ghost use Rattle.gf_basis.specs.BasisParts.{IsBasisOver, elements_of};
ghost use Rattle.poly_mixed.specs.Polynomial.{IsTerm};
ghost use Rattle.stage_model.specs.WordStage.{word_bits};
ghost use Rattle.std.specs.List.{AllByRecursion};
ghost use Rattle.stage_model.specs.PlainWord.{IsProductOf, IsTermRead, IsSumOf};

use crate::bit_form::bit_poly;
use crate::word_part::{other_part, own_ranks};
use gf_basis::Basis;
use gf_field::Field;
use poly_mixed::{Poly, Term};
use std::alloc::{AllocError, Global};

// The term with the first of its bits of the word, read from the word.
pub fn product_poly<F: Field>(
    alloc: Global,
    field: &F,
    basis: &Basis,
    word: u32,
    term: &Term,
    count: usize,
) -> Result<Poly, AllocError>
    requires over { IsBasisOver (F.degree field.now) (F.product field.now) basis.now }
    requires word { word < 8 }
    requires term { IsTerm (F.degree field.now) term.now }
    requires count { count ≤ length (word_bits (F.degree field.now) word term.now) }
    ensures { IfOk result (λ q. IsProductOf (F.degree field.now) (F.product field.now) (elements_of basis.now) word term.now count q.terms) }
{
    let k = field.k();
    let own = own_ranks(alloc, term.mono().bits(), k, word)?;
    let mut product = other_part(alloc, field, basis, word, term)?;
    for rank in &own[..count] {
        let bit = bit_poly(alloc, field, basis, word, *rank - k * word)?;
        product = product.mul(alloc, field, &bit)?;
    }
    Ok(product)
}

// How many bits of a word stand in a term.
pub fn bit_count<F: Field>(
    alloc: Global,
    field: &F,
    word: u32,
    term: &Term,
) -> Result<usize, AllocError>
    requires word { word < 8 }
    ensures { IfOk result (λ n. n ≡ length (word_bits (F.degree field.now) word term.now)) }
{
    let own = own_ranks(alloc, term.mono().bits(), field.k(), word)?;
    Ok(own.len())
}

// The term with all its bits of the word, read from the word.
fn whole_poly<F: Field>(
    alloc: Global,
    field: &F,
    basis: &Basis,
    word: u32,
    term: &Term,
) -> Result<Poly, AllocError>
    requires over { IsBasisOver (F.degree field.now) (F.product field.now) basis.now }
    requires word { word < 8 }
    requires term { IsTerm (F.degree field.now) term.now }
    ensures { IfOk result (λ q. IsTermRead (F.degree field.now) (F.product field.now) (elements_of basis.now) word term.now q.terms) }
{
    let count = bit_count(alloc, field, word, term)?;
    let poly = product_poly(alloc, field, basis, word, term, count)?;
    Ok(poly)
}

// The first terms, with their bits of the word read from the word.
pub fn sum_poly<F: Field>(
    alloc: Global,
    field: &F,
    basis: &Basis,
    word: u32,
    terms: &[Term],
    count: usize,
) -> Result<Poly, AllocError>
    requires over { IsBasisOver (F.degree field.now) (F.product field.now) basis.now }
    requires word { word < 8 }
    requires terms { AllByRecursion (IsTerm (F.degree field.now)) terms.now }
    requires count { count ≤ length terms.now }
    ensures { IfOk result (λ q. IsSumOf (F.degree field.now) (F.product field.now) (elements_of basis.now) word terms.now count q.terms) }
{
    let mut sum = Poly::zero(alloc);
    for term in &terms[..count] {
        let part = whole_poly(alloc, field, basis, word, term)?;
        sum.add_into(field, &part)?;
    }
    Ok(sum)
}
