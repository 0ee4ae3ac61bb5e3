//! Terms in a list, in the order of a text.
ghost use Rattle.std.specs.Prelude.{◌≡◌, ◌<◌, ◌++◌, ◌∷◌, ℕ, [], length, slice_index_or, IfOk, IsTrue, OnOk};
ghost use Rattle.std.specs.List.{AllByRecursion};
ghost use Rattle.std.specs.List.Sorted.{IsStrictlySortedBy};
ghost use Rattle.std.specs.Map.{keys_of};
ghost use Rattle.std.specs.Ordering.{nat_cmp};
ghost use Rattle.std.specs.declared.cmp.Ordering.TheVariants.{Less};
ghost use Rattle.poly_mixed.specs.Monomial.{Monomial, text_cmp};
ghost use Rattle.poly_mixed.specs.Sum.{plus, with_coefficient};
ghost use Rattle.rato_reduce.specs.private.Buckets.{joined};
ghost use Rattle.rato_reduce.specs.private.CutTerms.{of_bits, IsBitTerm};
ghost use Rattle.rato_reduce.specs.private.Rows.{lines_of};

use crate::bucket::Bucket;
use crate::row::{Row, bits_of};
use poly_mixed::{Mono, Poly, Term};
use std::alloc::{AllocError, Global};
use std::cmp::Ordering;

/// Puts the term of these bits, rising, at the end of a list.
pub fn push_bits(
    alloc: Global,
    terms: &mut Vec<Term>,
    bits: &[u32],
    coefficient: u64,
) -> Result<(), AllocError>
    requires { IsStrictlySortedBy nat_cmp bits.now }
    ensures { OnOk result (terms.new.items ≡ terms.old.items ++ (of_bits bits.now, coefficient) ∷ []) }
{
    let mono = Mono::new(alloc, bits, &[0; 8])?;
    terms.push(Term::new(mono, coefficient))?;
    Ok(())
}

/// The term without bits in a list, which is empty where the coefficient is 0.
pub fn constant_terms(alloc: Global, c: u64) -> Result<Vec<Term>, AllocError>
    ensures { IfOk result (λ v. v.items ≡ with_coefficient (of_bits []) c []) }
{
    let mut terms = Vec::new(alloc);
    if c != 0 {
        push_bits(alloc, &mut terms, &[], c)?;
    }
    Ok(terms)
}

// Puts the terms of rows at the end of a list.
fn push_rows(
    alloc: Global,
    terms: &mut Vec<Term>,
    ranks: &[u32],
    rows: &[Row],
) -> Result<(), AllocError>
    requires { AllByRecursion IsBitTerm (lines_of ranks.now rows.now) }
    ensures { OnOk result (terms.new.items ≡ terms.old.items ++ lines_of ranks.now rows.now) }
{
    terms.reserve(rows.len())?;
    for row in rows {
        push_bits(alloc, terms, bits_of(ranks, row), row.coefficient)?;
    }
    Ok(())
}

// The terms of all lists, one behind the other.
fn terms_of(alloc: Global, list: &[Bucket]) -> Result<Vec<Term>, AllocError>
    requires { AllByRecursion IsBitTerm (joined list.now) }
    ensures { IfOk result (λ v. v.items ≡ joined list.now) }
{
    let mut terms = Vec::new(alloc);
    for bucket in list {
        let (ranks, rows) = bucket.parts();
        push_rows(alloc, &mut terms, ranks, rows)?;
    }
    Ok(terms)
}

/// The sum of the terms of all lists, in the order of a text.
pub fn sum_of_lists(alloc: Global, list: &[Bucket]) -> Result<Vec<Term>, AllocError>
    requires { AllByRecursion IsBitTerm (joined list.now) }
    ensures { IfOk result (λ v. v.items ≡ plus text_cmp [] (joined list.now)) }
{
    let terms = terms_of(alloc, list)?;
    sum_in_order(alloc, terms)
}

/// The sum of terms without words, of rising bits and coefficients that are not 0, in the order of a text.
pub fn sum_in_order(alloc: Global, mut terms: Vec<Term>) -> Result<Vec<Term>, AllocError>
    requires { AllByRecursion IsBitTerm terms.items }
    ensures { IfOk result (λ v. v.items ≡ plus text_cmp [] terms.items) }
{
    terms.sort_unstable_by(|one, other| one.mono().cmp(other.mono()));
    if are_in_order(terms.as_slice()) {
        return Ok(terms);
    }
    added_up(alloc, terms.as_slice())
}

// Whether each term stands before the next one in the order of a text; so no two are equal.
fn are_in_order(terms: &[Term]) -> bool
    ensures { IsTrue result → IsStrictlySortedBy text_cmp (keys_of terms.now) }
{
    for next in 1..terms.len() {
        if !are_in_order_at(terms, next - 1, next) {
            return false;
        }
    }
    true
}

// Whether the term at an index stands before that at another in the order of a text.
fn are_in_order_at(terms: &[Term], i: usize, next: usize) -> bool
    requires one { i < length terms.now }
    requires other { next < length terms.now }
    ensures { IsTrue result → (d : Monomial × ℕ) → text_cmp (slice_index_or terms.now i d).0 (slice_index_or terms.now next d).0 ≡ Less }
{
    precedes(&terms[i], &terms[next])
}

// Whether a term stands before another in the order of a text.
fn precedes(one: &Term, other: &Term) -> bool
    ensures { IsTrue result → text_cmp one.now.0 other.now.0 ≡ Less }
{
    match one.mono().cmp(other.mono()) {
        Ordering::Less => true,
        _ => false,
    }
}

// The sum of terms, in the order of a text, by a polynomial that takes one after the other.
fn added_up(alloc: Global, terms: &[Term]) -> Result<Vec<Term>, AllocError>
    requires { AllByRecursion IsBitTerm terms.now }
    ensures { IfOk result (λ v. v.items ≡ plus text_cmp [] terms.now) }
{
    let mut sum = Poly::zero(alloc);
    added_to(alloc, &mut sum, terms)
}

// The sum of a polynomial, which takes terms one after the other, and of these, in the order of a text.
fn added_to(alloc: Global, sum: &mut Poly, terms: &[Term]) -> Result<Vec<Term>, AllocError>
    requires { AllByRecursion IsBitTerm terms.now }
    ensures { IfOk result (λ v. v.items ≡ plus text_cmp sum.old.terms terms.now) }
{
    for term in terms {
        add_term(alloc, sum, term)?;
    }
    let list = sum.terms(alloc)?;
    Ok(list)
}

// Adds a term to a polynomial.
fn add_term(alloc: Global, sum: &mut Poly, term: &Term) -> Result<(), AllocError>
    requires { IsBitTerm term.now }
    ensures { OnOk result (sum.new.terms ≡ plus text_cmp sum.old.terms (term.now ∷ [])) }
{
    let mono = Mono::new(alloc, term.mono().bits(), &[0; 8])?;
    sum.add_term(mono, term.coefficient())?;
    Ok(())
}
