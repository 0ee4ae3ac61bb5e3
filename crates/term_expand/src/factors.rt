//! The product of a term with its factors, each a power of what feeds a word.
ghost use Rattle.std.specs.Prelude.{◌≡◌, ◌≢◌, ◌<◌, ◌+◌, ◌/◌, ◌^◌, drop, length, slice_get, Some, IfErr, IfOk, OnOk};
ghost use Rattle.term_expand.specs.Sums.{IsFedTerm};
ghost use Rattle.term_expand.specs.SumValue.{factors_of};
ghost use Rattle.term_expand.specs.Feeds.{borrowed_terms, AreReduced};
ghost use Rattle.term_expand.specs.private.Reached.{digits_left, pairs_left};
ghost use Rattle.term_expand.specs.private.AtFeeds.{IsAllReachedAt, IsPowerAt, IsReachedAt, IsRefusalAt};

use crate::square::squared;
use crate::stage::check_stage;
use crate::{SumFault, SumStage, SumTerm};
use gf_field::Field;
use poly_mixed::{Poly, constant};
use std::alloc::{AllocError, Global};

// The product of a term's coefficient and its first factors, and how many these are.
#[derive(Drop)]
struct Reached {
    poly: Poly,
    factors: u32,
}

// The factor of a binary digit of an exponent, if the digit is 1.
fn one_digit<F: Field>(
    alloc: Global,
    field: &F,
    _feeds: &[&Poly],
    _term: &SumTerm,
    number: u32,
    _pair: usize,
    _word: u32,
    _j: u32,
    left: u64,
    power: &Poly,
    bound: u32,
    reached: &mut Reached,
) -> Result<(), SumFault>
    requires j { _j < 64 }
    requires few { length (factors_of _term.now.1) < 2 ^ 32 }
    requires power { left ≢ 0 → IsPowerAt (F.degree field.now) (F.product field.now) (borrowed_terms _feeds.now) _word _j power.now.terms }
    requires rest { drop reached.old.factors (factors_of _term.now.1) ≡ digits_left _word _j left _pair _term.now.1 }
    requires reached { IsReachedAt (F.degree field.now) (F.product field.now) (borrowed_terms _feeds.now) _term.now bound reached.old }
    ensures rest { OnOk result (drop reached.new.factors (factors_of _term.now.1) ≡ digits_left _word (_j + 1) (left / 2) _pair _term.now.1) }
    ensures reached { OnOk result (IsReachedAt (F.degree field.now) (F.product field.now) (borrowed_terms _feeds.now) _term.now bound reached.new) }
    ensures fault { IfErr result (IsRefusalAt (F.degree field.now) (F.product field.now) (borrowed_terms _feeds.now) _term.now number bound) }
{
    if left % 2 == 1 {
        let product = reached.poly.mul(alloc, field, power)?;
        let factor = reached.factors + 1;
        let stage = SumStage::TermProduct {
            term: number,
            factor,
        };
        check_stage(product.len(), bound, stage)?;
        reached.poly = product;
        reached.factors = factor;
    }
    Ok(())
}

// The square of a power, if digits of the exponent are left.
fn next_power<F: Field>(
    alloc: Global,
    field: &F,
    _feeds: &[&Poly],
    _word: u32,
    _j: u32,
    power: Poly,
    left: u64,
) -> Result<Poly, AllocError>
    requires power { left ≢ 0 → IsPowerAt (F.degree field.now) (F.product field.now) (borrowed_terms _feeds.now) _word _j power.terms }
    ensures { IfOk result (λ q. left ≢ 0 → IsPowerAt (F.degree field.now) (F.product field.now) (borrowed_terms _feeds.now) _word (_j + 1) q.terms) }
{
    if left == 0 {
        return Ok(power);
    }
    squared(alloc, field, &power)
}

// What feeds a word, as the power 2^0.
fn first_power<F: Field>(
    alloc: Global,
    field: &F,
    feeds: &[&Poly],
    word: u32,
) -> Result<Poly, AllocError>
    requires word { word < length feeds.now }
    requires feeds { AreReduced (F.degree field.now) (borrowed_terms feeds.now) }
    ensures { IfOk result (λ q. IsPowerAt (F.degree field.now) (F.product field.now) (borrowed_terms feeds.now) word 0 q.terms) }
{
    let feed = feeds[word as usize];
    let mut power = Poly::zero(alloc);
    power.add_into(field, feed)?;
    Ok(power)
}

// The pair of a word and an exponent at a place of a term.
fn pair_at(term: &SumTerm, pair: usize) -> (u32, u64)
    requires { pair < length term.now.1 }
    ensures { slice_get term.now.1 pair ≡ Some (result.0, result.1) }
{
    let powers = term.powers();
    powers[pair]
}

// The factors of one pair of a word and an exponent.
fn one_pair<F: Field>(
    alloc: Global,
    field: &F,
    feeds: &[&Poly],
    term: &SumTerm,
    number: u32,
    pair: usize,
    bound: u32,
    reached: &mut Reached,
) -> Result<(), SumFault>
    requires feeds { AreReduced (F.degree field.now) (borrowed_terms feeds.now) }
    requires term { IsFedTerm (F.degree field.now) (length feeds.now) term.now }
    requires pair { pair < length term.now.1 }
    requires few { length (factors_of term.now.1) < 2 ^ 32 }
    requires rest { drop reached.old.factors (factors_of term.now.1) ≡ pairs_left pair term.now.1 }
    requires reached { IsReachedAt (F.degree field.now) (F.product field.now) (borrowed_terms feeds.now) term.now bound reached.old }
    ensures rest { OnOk result (drop reached.new.factors (factors_of term.now.1) ≡ pairs_left (pair + 1) term.now.1) }
    ensures reached { OnOk result (IsReachedAt (F.degree field.now) (F.product field.now) (borrowed_terms feeds.now) term.now bound reached.new) }
    ensures fault { IfErr result (IsRefusalAt (F.degree field.now) (F.product field.now) (borrowed_terms feeds.now) term.now number bound) }
{
    let (word, exponent) = pair_at(term, pair);
    if exponent == 0 {
        return Ok(());
    }
    let mut power = first_power(alloc, field, feeds, word)?;
    let mut left = exponent;
    for j in 0..64 {
        one_digit(
            alloc, field, feeds, term, number, pair, word, j, left, &power, bound, reached,
        )?;
        left /= 2;
        power = next_power(alloc, field, feeds, word, j, power, left)?;
    }
    Ok(())
}

/// The product of a term with all its factors.
pub(crate) fn one_term<F: Field>(
    alloc: Global,
    field: &F,
    feeds: &[&Poly],
    term: &SumTerm,
    number: u32,
    bound: u32,
) -> Result<Poly, SumFault>
    requires feeds { AreReduced (F.degree field.now) (borrowed_terms feeds.now) }
    requires term { IsFedTerm (F.degree field.now) (length feeds.now) term.now }
    ensures reached { IfOk result (λ q. IsAllReachedAt (F.degree field.now) (F.product field.now) (borrowed_terms feeds.now) term.now bound q.terms) }
    ensures fault { IfErr result (IsRefusalAt (F.degree field.now) (F.product field.now) (borrowed_terms feeds.now) term.now number bound) }
{
    let powers = term.powers();
    let poly = constant(alloc, field, term.coefficient())?;
    let mut reached = Reached { poly, factors: 0 };
    for pair in 0..powers.len() {
        one_pair(alloc, field, feeds, term, number, pair, bound, &mut reached)?;
    }
    Ok(reached.poly)
}
