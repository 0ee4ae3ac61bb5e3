//! The term whose bits come first, and the input of its bits.
ghost use Rattle.std.specs.Prelude.{◌≡◌, ◌<◌, ◌≤◌, ◌+◌, ◌^◌, ℕ, length, nat_eq, false, slice_index_or, MatchOption, []};
ghost use Rattle.std.specs.List.{AllByRecursion, list_any};
ghost use Rattle.circuit_model.specs.Ones.{ones_cmp};
ghost use Rattle.spec_compare.specs.private.First.{IsFirstTerm, IsFirstTo, number_at};

use poly_mixed::Term;
use std::cmp::Ordering;

// The order of two lists of ranks.
fn compare_ones(a: &[u32], b: &[u32]) -> Ordering
    ensures { result ≡ ones_cmp a.now b.now }
{
    let lengths = a.len().cmp(&b.len());
    lengths.then(a.cmp(b))
}

// The place of the first one of the terms up to i.
fn earlier(terms: &[Term], best: usize, i: usize) -> usize
    requires best { best < length terms.now }
    requires i { i < length terms.now }
    ensures within { result < length terms.now }
    ensures first { IsFirstTo terms.now i best → IsFirstTo terms.now (i + 1) result }
{
    match compare_ones(terms[best].mono().bits(), terms[i].mono().bits()) {
        Ordering::Greater => i,
        Ordering::Less | Ordering::Equal => best,
    }
}

/// The term whose bits come first; there is none where there are no terms.
pub(crate) fn first_term(terms: &[Term]) -> Option<&Term>
    ensures { MatchOption result (terms.now ≡ []) (λ t. IsFirstTerm terms.now t.now) }
{
    if terms.is_empty() {
        return None;
    }
    let mut best = 0;
    for i in 0..terms.len() {
        best = earlier(terms, best, i);
    }
    Some(&terms[best])
}

/// The number whose bit i says whether rank `first + i` is one of these.
pub(crate) fn number(ones: &[u32], first: u32, count: u32) -> u64
    requires few { count ≤ 64 }
    requires small { first + count ≤ 512 }
    ensures number { result ≡ number_at ones.now first count }
    ensures below { result < 2 ^ count }
{
    if count == 0 {
        return 0;
    }
    let rest = number(ones, first + 1, count - 1);
    if ones.contains(&first) {
        1 + 2 * rest
    } else {
        2 * rest
    }
}

/// Which ranks are among these, all of which are below 512.
pub(crate) fn bits_at(ones: &[u32]) -> [bool; 512]
    requires { AllByRecursion (λ r. r < 512) ones.now }
    ensures { (r : ℕ) → slice_index_or result r false ≡ list_any (λ x. nat_eq x r) ones.now }
{
    let mut bits = [false; 512];
    for i in 0..512 {
        bits[i] = ones.contains(&(i as u32));
    }
    bits
}
