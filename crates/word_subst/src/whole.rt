//! A word whose bits stand in a polynomial in one sum alone, each times its basis element: that sum is the word. No linear
//! form is multiplied there, and no stage is counted where none can be over the bound.
ghost use Rattle.std.specs.Prelude.{◌≡◌, ◌≢◌, ◌<◌, ◌≤◌, ◌*◌, ◌∷◌, [], map, false, IfOk, IfSome, IsTrue};
ghost use Rattle.std.specs.List.{AllByRecursion};
ghost use Rattle.gf_basis.specs.BasisParts.{IsBasisOver, elements_of};
ghost use Rattle.poly_mixed.specs.Monomial.{text_cmp};
ghost use Rattle.poly_mixed.specs.Polynomial.{IsElement, IsReduced, IsTerm};
ghost use Rattle.poly_mixed.specs.Sum.{plus};
ghost use Rattle.stage_model.specs.WordStage.{is_of_word};
ghost use Rattle.word_subst.specs.AtOnce.{IsReadAtOnce};
ghost use Rattle.word_subst.specs.Spread.{all_terms};
ghost use Rattle.word_subst.specs.Whole.{HasFirst, IsPart, times_bits, times_word as word_times, with_first};

use crate::multiple::product_by;
use crate::rest::own_ranks;
use crate::sums::add_spread;
use crate::univariate::Univariate;
use gf_basis::Basis;
use gf_field::Field;
use poly_mixed::{Mono, Poly, Term};
use std::alloc::{AllocError, Global};

// An element to the power 2^k - 2, which is its inverse where it is not 0.
fn inverse<F: Field>(field: &F, element: u64) -> u64
    requires { IsElement (F.degree field.now) element }
    ensures { IsElement (F.degree field.now) result }
{
    let mut square = element;
    let mut product = field.mul(element, 0);
    for j in 1..field.k() {
        square = field.square(square);
        product = if j == 1 {
            square
        } else {
            field.mul(product, square)
        };
    }
    product
}

// Whether none of the ranks is one of a word's.
fn are_others(alloc: Global, ranks: &[u32], k: u32, word: u32) -> Result<bool, AllocError>
    requires k { k ≤ 64 }
    requires word { word < 8 }
    ensures { IfOk result (λ none. IsTrue none → AllByRecursion (λ r. is_of_word k word r ≡ false) ranks.now) }
{
    let own = own_ranks(alloc, ranks, k, word)?;
    let none = own.is_empty();
    Ok(none)
}

// The term without its first bit and over an element, whose inverse is given: none where it has no bits, or other bits of
// the word, or a power of it.
fn part<F: Field>(
    alloc: Global,
    field: &F,
    word: u32,
    term: &Term,
    inverse: u64,
) -> Result<Option<(Mono, u64)>, AllocError>
    requires word { word < 8 }
    requires term { IsTerm (F.degree field.now) term.now }
    requires inverse { IsElement (F.degree field.now) inverse }
    ensures { IfOk result (λ o. IfSome o (IsPart word (F.degree field.now))) }
{
    let bits = term.mono().bits();
    if bits.is_empty() || term.mono().exponents()[word as usize] != 0 {
        return Ok(None);
    }
    let c = field.mul(inverse, term.coefficient());
    let others = &bits[1..];
    let none = are_others(alloc, others, field.k(), word)?;
    if c == 0 || !none {
        return Ok(None);
    }
    let mono = Mono::new(alloc, others, term.mono().exponents())?;
    Ok(Some((mono, c)))
}

// The parts of these terms, if each has one.
fn parts<F: Field>(
    alloc: Global,
    field: &F,
    word: u32,
    terms: &[Term],
    inverse: u64,
) -> Result<Option<Vec<(Mono, u64)>>, AllocError>
    requires word { word < 8 }
    requires terms { AllByRecursion (IsTerm (F.degree field.now)) terms.now }
    requires inverse { IsElement (F.degree field.now) inverse }
    ensures { IfOk result (λ o. IfSome o (λ v. AllByRecursion (IsPart word (F.degree field.now)) v.items)) }
{
    let mut list = Vec::with_capacity(alloc, terms.len())?;
    for term in terms {
        match part(alloc, field, word, term, inverse)? {
            Some(next) => list.push(next)?,
            None => return Ok(None),
        }
    }
    Ok(Some(list))
}

// Whether two lists of ranks are equal.
fn same_ranks(a: &[u32], b: &[u32]) -> bool
    ensures { IsTrue result → a.now ≡ b.now }
{
    a == b
}

// Whether two lists of exponents are equal.
fn same_exponents(a: &[u64; 8], b: &[u64; 8]) -> bool
    ensures { IsTrue result → a.now ≡ b.now }
{
    a == b
}

// Whether a monomial is another one times the bit of a rank, which stands before its bits.
fn is_mono_with(whole: &Mono, rest: &Mono, rank: u32) -> bool
    ensures { IsTrue result → whole.now ≡ record { exponents = rest.now.exponents; bits = rank ∷ rest.now.bits } }
{
    let bits = whole.bits();
    if bits.is_empty() || bits[0] != rank {
        return false;
    }
    same_ranks(&bits[1..], rest.bits()) && same_exponents(whole.exponents(), rest.exponents())
}

// Whether a term is a part times an element, by its table, and the bit of a rank.
fn is_with<F: Field>(
    field: &F,
    term: &Term,
    part: &(Mono, u64),
    rank: u32,
    b: u64,
    table: &F::Times,
) -> bool
    requires part { IsElement (F.degree field.now) part.now.1 }
    requires b { IsElement (F.degree field.now) b }
    requires table { F.is_table field.now table.now b }
    ensures { IsTrue result → term.now ≡ with_first (F.product field.now) rank b part.now }
{
    let (rest, c) = part;
    term.coefficient() == product_by(field, b, table, *c) && is_mono_with(term.mono(), rest, rank)
}

// Whether the terms are the parts, each times an element and the bit of a rank.
fn are_with<F: Field>(
    field: &F,
    terms: &[Term],
    parts: &[(Mono, u64)],
    _word: u32,
    rank: u32,
    b: u64,
) -> bool
    requires parts { AllByRecursion (IsPart _word (F.degree field.now)) parts.now }
    requires b { IsElement (F.degree field.now) b }
    ensures { IsTrue result → terms.now ≡ map (with_first (F.product field.now) rank b) parts.now }
{
    if terms.len() != parts.len() {
        return false;
    }
    let table = field.times(b);
    for j in 0..parts.len() {
        if !is_with(field, &terms[j], &parts[j], rank, b, &table) {
            return false;
        }
    }
    true
}

// Whether the terms are the parts times the bits of the word, each times its basis element, one bit after the other.
fn are_blocks<F: Field>(
    field: &F,
    basis: &Basis,
    word: u32,
    terms: &[Term],
    parts: &[(Mono, u64)],
) -> bool
    requires over { IsBasisOver (F.degree field.now) (F.product field.now) basis.now }
    requires word { word < 8 }
    requires parts { AllByRecursion (IsPart word (F.degree field.now)) parts.now }
    ensures { IsTrue result → terms.now ≡ times_bits (F.product field.now) (F.degree field.now * word) (elements_of basis.now) parts.now }
{
    let m = parts.len();
    let mut rest = terms;
    for place in 0..field.k() {
        if rest.len() < m {
            return false;
        }
        let rank = field.k() * word + place;
        if !are_with(field, &rest[..m], parts, word, rank, basis.element(place)) {
            return false;
        }
        rest = &rest[m..];
    }
    rest.is_empty()
}

// The sum of the parts, each times the word.
fn sum_of(alloc: Global, word: u32, parts: &[(Mono, u64)]) -> Result<Poly, AllocError>
    requires word { word < 8 }
    requires some { AllByRecursion (λ t. t.1 ≢ 0) parts.now }
    ensures { IfOk result (λ q. q.terms ≡ plus text_cmp [] (all_terms word (word_times parts.now))) }
{
    let mut poly = Poly::zero(alloc);
    for (rest, c) in parts {
        let mut powers = Univariate::zero(alloc);
        powers.push(1, *c)?;
        add_spread(alloc, &mut poly, word, rest, &powers)?;
    }
    Ok(poly)
}

// The parts of all terms, if the terms are the parts times the bits of the word, each times its basis element.
fn parts_of_all<F: Field>(
    alloc: Global,
    field: &F,
    basis: &Basis,
    word: u32,
    terms: &[Term],
) -> Result<Option<Vec<(Mono, u64)>>, AllocError>
    requires over { IsBasisOver (F.degree field.now) (F.product field.now) basis.now }
    requires word { word < 8 }
    requires terms { AllByRecursion (IsTerm (F.degree field.now)) terms.now }
    ensures parts { IfOk result (λ o. IfSome o (λ v. AllByRecursion (IsPart word (F.degree field.now)) v.items)) }
    ensures blocks { IfOk result (λ o. IfSome o (λ v. terms.now ≡ times_bits (F.product field.now) (F.degree field.now * word) (elements_of basis.now) v.items)) }
{
    let inverse = inverse(field, basis.element(0));
    let first = &terms[..terms.len() / field.k() as usize];
    match parts(alloc, field, word, first, inverse)? {
        Some(parts) => {
            if are_blocks(field, basis, word, terms, &parts) {
                Ok(Some(parts))
            } else {
                Ok(None)
            }
        }
        None => Ok(None),
    }
}

/// The sum of all terms of a polynomial, with their bits of the word read from the word, where it is a polynomial without the
/// word times the sum of the word's bits, each times its basis element, and has no more terms than the bound: then no stage is
/// over it, and the first bit of each term is its only one of the word. None where this is not so.
pub fn whole<F: Field>(
    alloc: Global,
    field: &F,
    basis: &Basis,
    word: u32,
    terms: &[Term],
    bound: u32,
) -> Result<Option<Poly>, AllocError>
    requires over { IsBasisOver (F.degree field.now) (F.product field.now) basis.now }
    requires word { word < 8 }
    requires terms { IsReduced (F.degree field.now) terms.now }
    ensures read { IfOk result (λ o. IfSome o (λ q. IsReadAtOnce (F.degree field.now) (F.product field.now) (elements_of basis.now) word terms.now bound q.terms)) }
    ensures firsts { IfOk result (λ o. IfSome o (λ _. AllByRecursion (HasFirst word (F.degree field.now)) terms.now)) }
{
    if terms.len() as u64 > u64::from(bound)
        || terms.is_empty()
        || terms.len() % field.k() as usize != 0
    {
        return Ok(None);
    }
    match parts_of_all(alloc, field, basis, word, terms)? {
        Some(parts) => {
            let poly = sum_of(alloc, word, &parts)?;
            Ok(Some(poly))
        }
        None => Ok(None),
    }
}
