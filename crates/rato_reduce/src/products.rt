//! Products of terms and of what is put in for a bit, added to terms in lists.
ghost use Rattle.std.specs.Prelude.{◌≡◌, ◌∷◌, [], OnOk};
ghost use Rattle.std.specs.List.{AllByRecursion};
ghost use Rattle.poly_mixed.specs.Monomial.{text_cmp};
ghost use Rattle.poly_mixed.specs.Sum.{plus, plus_term};
ghost use Rattle.rato_reduce.specs.private.Buckets.{AreUpTo};
ghost use Rattle.rato_reduce.specs.private.CutTerms.{products, ArePutIn, IsBitTerm};
ghost use Rattle.rato_reduce.specs.private.Pairs.{both_bits, pair_sets, HasLevels};
ghost use Rattle.rato_reduce.specs.private.Rows.{line_at, lines_of, product_if, product_of, term_bits};

use crate::buckets::Buckets;
use crate::pair::{Pair, greater_of};
use crate::ranks::Ranks;
use crate::row::{Row, bits_of};
use crate::stop::Stop;
use crate::term::{Term, term_without};
use std::alloc::AllocError;

// A level up to which the bits of a term are, where those of its first part are up to one.
fn term_level(cut: &Buckets, term: &Term<'_>, front: usize) -> usize
    requires { AreUpTo cut.now.places front term.now.front.now }
    ensures { AreUpTo cut.now.places result (term_bits term.now) }
{
    let back = cut.level_for(term.back);
    greater_of(front, back)
}

// Adds the product of a term of bits up to a level and of other bits up to another one: it is up to the greater level.
fn add_product(
    cut: &mut Buckets,
    term: &Term<'_>,
    level: usize,
    set: &[u32],
    set_level: usize,
) -> Result<(), AllocError>
    requires term { IsBitTerm (product_of term.now []) }
    requires up_to { AreUpTo cut.old.places level (term_bits term.now) }
    requires set { AreUpTo cut.old.places set_level set.now }
    ensures sum { OnOk result (cut.new.terms ≡ plus_term text_cmp cut.old.terms (product_of term.now set.now)) }
    ensures places { cut.new.places ≡ cut.old.places }
{
    let greater = greater_of(level, set_level);
    cut.add_at(greater, term, set)
}

// Adds the product of a term of bits up to a level and of other bits up to another one, if it is to be added.
fn add_chosen(
    cut: &mut Buckets,
    term: &Term<'_>,
    level: usize,
    set: &[u32],
    set_level: usize,
    adds: bool,
) -> Result<(), AllocError>
    requires term { IsBitTerm (product_of term.now []) }
    requires up_to { AreUpTo cut.old.places level (term_bits term.now) }
    requires set { AreUpTo cut.old.places set_level set.now }
    ensures sum { OnOk result (cut.new.terms ≡ plus text_cmp cut.old.terms (product_if adds term.now set.now)) }
    ensures places { cut.new.places ≡ cut.old.places }
{
    if adds {
        add_product(cut, term, level, set, set_level)?;
    }
    Ok(())
}

// Adds the product of a term of bits up to a level and of both bits of a pair, which may be one, if the pair has it.
fn add_both(cut: &mut Buckets, term: &Term<'_>, level: usize, pair: &Pair) -> Result<(), AllocError>
    requires term { IsBitTerm (product_of term.now []) }
    requires up_to { AreUpTo cut.old.places level (term_bits term.now) }
    requires both { AreUpTo cut.old.places pair.now.level (both_bits pair.now) }
    ensures sum { OnOk result (cut.new.terms ≡ plus text_cmp cut.old.terms (product_if pair.now.all term.now (both_bits pair.now))) }
    ensures places { cut.new.places ≡ cut.old.places }
{
    let first = pair.first;
    let second = pair.second;
    if second < first {
        return add_chosen(cut, term, level, &[second, first], pair.level, pair.all);
    }
    if second == first {
        return add_chosen(cut, term, level, &[first], pair.level, pair.all);
    }
    add_chosen(cut, term, level, &[first, second], pair.level, pair.all)
}

// Adds the products of a term, whose first part is up to a level, and of what a pair has.
fn add_pair(cut: &mut Buckets, term: &Term<'_>, front: usize, pair: &Pair) -> Result<(), AllocError>
    requires term { IsBitTerm (product_of term.now []) }
    requires front { AreUpTo cut.old.places front term.now.front.now }
    requires levels { HasLevels cut.old.places pair.now }
    ensures sum { OnOk result (cut.new.terms ≡ plus text_cmp cut.old.terms (products (product_of term.now []) (pair_sets pair.now))) }
    ensures places { cut.new.places ≡ cut.old.places }
{
    let level = term_level(cut, term, front);
    add_chosen(cut, term, level, &[], 0, pair.one)?;
    add_chosen(
        cut,
        term,
        level,
        &[pair.second],
        pair.second_level,
        pair.high,
    )?;
    add_chosen(cut, term, level, &[pair.first], pair.first_level, pair.low)?;
    add_both(cut, term, level, pair)
}

// Adds the products of a row's term without a bit, which it has to have, and of what a pair has.
fn add_row(cut: &mut Buckets, ranks: &[u32], row: &Row, rank: u32, pair: &Pair) -> Result<(), Stop>
    requires term { IsBitTerm (line_at ranks.now row.now) }
    requires levels { HasLevels cut.old.places pair.now }
    ensures put { OnOk result (ArePutIn rank (line_at ranks.now row.now ∷ []) (pair_sets pair.now) cut.old.terms cut.new.terms) }
    ensures places { cut.new.places ≡ cut.old.places }
{
    let bits = bits_of(ranks, row);
    let (place, front) = cut.level_below(bits, rank);
    match term_without(ranks, row, rank, place) {
        None => Err(Stop::GivesUp),
        Some(term) => {
            add_pair(cut, &term, front, pair)?;
            Ok(())
        }
    }
}

/// Adds the products of the terms of rows without a bit, which each has to have, and of what a pair has. After a stop the sum is
/// not used again.
pub fn add_rows(
    cut: &mut Buckets,
    ranks: &[u32],
    rows: &[Row],
    rank: u32,
    pair: &Pair,
) -> Result<(), Stop>
    requires terms { AllByRecursion IsBitTerm (lines_of ranks.now rows.now) }
    requires levels { HasLevels cut.old.places pair.now }
    ensures { OnOk result (ArePutIn rank (lines_of ranks.now rows.now) (pair_sets pair.now) cut.old.terms cut.new.terms) }
{
    for row in rows {
        add_row(cut, ranks, row, rank, pair)?;
    }
    Ok(())
}

// Adds the products of a term, whose first part is up to a level, and of each of these sets of bits.
fn add_products(
    cut: &mut Buckets,
    term: &Term<'_>,
    front: usize,
    sets: &[Ranks],
) -> Result<(), AllocError>
    requires term { IsBitTerm (product_of term.now []) }
    requires front { AreUpTo cut.old.places front term.now.front.now }
    ensures { OnOk result (cut.new.terms ≡ plus text_cmp cut.old.terms (products (product_of term.now []) sets.now)) }
{
    let level = term_level(cut, term, front);
    for set in sets {
        let bits = set.as_slice();
        let bits_level = cut.level_for(bits);
        add_product(cut, term, level, bits, bits_level)?;
    }
    Ok(())
}

// Adds the products of a row's term without a bit, which it has to have, and of each of these sets of bits.
fn add_set_row(
    cut: &mut Buckets,
    ranks: &[u32],
    row: &Row,
    rank: u32,
    sets: &[Ranks],
) -> Result<(), Stop>
    requires { IsBitTerm (line_at ranks.now row.now) }
    ensures { OnOk result (ArePutIn rank (line_at ranks.now row.now ∷ []) sets.now cut.old.terms cut.new.terms) }
{
    let bits = bits_of(ranks, row);
    let (place, front) = cut.level_below(bits, rank);
    match term_without(ranks, row, rank, place) {
        None => Err(Stop::GivesUp),
        Some(term) => {
            add_products(cut, &term, front, sets)?;
            Ok(())
        }
    }
}

/// Adds the products of the terms of rows without a bit, which each has to have, and of each of these sets of bits. After a stop
/// the sum is not used again.
pub fn add_all_products(
    cut: &mut Buckets,
    ranks: &[u32],
    rows: &[Row],
    rank: u32,
    sets: &[Ranks],
) -> Result<(), Stop>
    requires { AllByRecursion IsBitTerm (lines_of ranks.now rows.now) }
    ensures { OnOk result (ArePutIn rank (lines_of ranks.now rows.now) sets.now cut.old.terms cut.new.terms) }
{
    for row in rows {
        add_set_row(cut, ranks, row, rank, sets)?;
    }
    Ok(())
}
