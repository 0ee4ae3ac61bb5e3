//! Bits at the end of a list, united with others.
ghost use Rattle.std.specs.Prelude.{◌≡◌, ◌+◌, ◌-◌, ◌<◌, ◌≤◌, ◌++◌, ◌∷◌, [], length, take, drop, slice_index, vec_len, vec_capacity, IsTrue, OnOk, OnErr};
ghost use Rattle.poly_mixed.specs.Product.{with_rank, union};
ghost use Rattle.rato_reduce.specs.private.LowBits.{AddsLow, CopiesLow, IsBefore};
ghost use Rattle.rato_reduce.specs.private.Rows.{term_bits, IsLonger};

use crate::ranks::place_of;
use crate::row::hash_of;
use crate::term::Term;
use std::alloc::AllocError;

/// Adds the bits of a term and of a set to the end of a list. The exclusive or of the hashes of those that only the set has is
/// given.
pub fn add_union(list: &mut Vec<u32>, term: &Term<'_>, set: &[u32]) -> Result<u64, AllocError>
    ensures added { OnOk result (list.new.items ≡ list.old.items ++ union (term_bits term.now) set.now) }
    ensures longer { IsLonger list.old.items list.new.items }
{
    if set.len() == 1 {
        let rank = set[0];
        if is_before(rank, term.back) {
            return add_with_one(list, term, rank);
        }
    }
    if set.len() == 2 {
        let first = set[0];
        let second = set[1];
        if first < second && is_before(second, term.back) {
            return add_with_two(list, term, first, second);
        }
    }
    add_set(list, term, set)
}

// Whether a rank comes before bits.
fn is_before(rank: u32, bits: &[u32]) -> bool
    ensures { IsTrue result → IsBefore rank bits.now }
{
    if bits.len() > 0 {
        return rank < bits[0];
    }
    true
}

// Adds the bits of a term and one that comes before its last part. The hash of that one is given, if the term does not have it.
fn add_with_one(list: &mut Vec<u32>, term: &Term<'_>, rank: u32) -> Result<u64, AllocError>
    requires { IsBefore rank term.now.back.now }
    ensures added { OnOk result (list.new.items ≡ list.old.items ++ union (term_bits term.now) (rank ∷ [])) }
    ensures longer { IsLonger list.old.items list.new.items }
{
    let front = term.front;
    list.reserve(front.len() + 1)?;
    let (at, hash) = add_low(list, front, 0, rank);
    add_bits(list, &front[at..], term.back)?;
    Ok(hash)
}

// The same of two bits that rise and come before the last part of the term.
fn add_with_two(
    list: &mut Vec<u32>,
    term: &Term<'_>,
    first: u32,
    second: u32,
) -> Result<u64, AllocError>
    requires rising { first < second }
    requires before { IsBefore second term.now.back.now }
    ensures added { OnOk result (list.new.items ≡ list.old.items ++ union (term_bits term.now) (first ∷ second ∷ [])) }
    ensures longer { IsLonger list.old.items list.new.items }
{
    let front = term.front;
    list.reserve(front.len() + 2)?;
    let (middle, hash) = add_low(list, front, 0, first);
    let (at, more) = add_low(list, front, middle, second);
    add_bits(list, &front[at..], term.back)?;
    Ok(hash ^ more)
}

// Adds the bits from a place on that are below a rank, and behind them the rank, unless it is the next of the bits. The place of
// those that are left is given, and the hash of the rank, if it was added. Always inlined, since a call costs as much as the few
// bits below a rank.
#[inline(always)]
fn add_low(list: &mut Vec<u32>, bits: &[u32], from: usize, rank: u32) -> (usize, u64)
    requires place { from ≤ length bits.now }
    requires room { vec_len list.old + (length bits.now - from) < vec_capacity list.old }
    ensures added { AddsLow bits.now from result.0 rank list.old.items list.new.items }
    ensures within { result.0 ≤ length bits.now }
    ensures few { vec_len list.new + (length bits.now - result.0) ≤ vec_len list.old + (length bits.now - from) + 1 }
    ensures room { vec_capacity list.new ≡ vec_capacity list.old }
{
    let at = copy_low(list, bits, from, rank);
    if at == bits.len() {
        list.push_reserved(rank);
        return (at, hash_of(rank));
    }
    let here = bits[at];
    if here == rank {
        return (at, 0);
    }
    list.push_reserved(rank);
    (at, hash_of(rank))
}

// Adds the bits from a place on that are below a rank, and gives the place of the others. Always inlined, as above.
#[inline(always)]
fn copy_low(list: &mut Vec<u32>, bits: &[u32], from: usize, rank: u32) -> usize
    requires place { from ≤ length bits.now }
    requires room { vec_len list.old + (length bits.now - from) < vec_capacity list.old }
    ensures copied { CopiesLow bits.now from result rank list.old.items list.new.items }
    ensures within { result ≤ length bits.now }
    ensures stop { result < length bits.now → rank ≤ slice_index bits.now result }
    ensures few { vec_len list.new + (length bits.now - result) ≡ vec_len list.old + (length bits.now - from) }
    ensures room { vec_capacity list.new ≡ vec_capacity list.old }
{
    let mut at = from;
    while at < bits.len() && bits[at] < rank {
        list.push_reserved(bits[at]);
        at += 1;
    }
    at
}

// Adds the bits of a term and of a set, wherever these belong.
fn add_set(list: &mut Vec<u32>, term: &Term<'_>, set: &[u32]) -> Result<u64, AllocError>
    ensures added { OnOk result (list.new.items ≡ list.old.items ++ union (term_bits term.now) set.now) }
    ensures longer { IsLonger list.old.items list.new.items }
{
    let start = list.len();
    add_bits(list, term.front, term.back)?;
    let hash = unite(list, start, set)?;
    Ok(hash)
}

// Adds the bits of both parts of a term to the end of a list.
fn add_bits(list: &mut Vec<u32>, front: &[u32], back: &[u32]) -> Result<(), AllocError>
    ensures added { OnOk result (list.new.items ≡ list.old.items ++ (front.now ++ back.now)) }
    ensures longer { IsLonger list.old.items list.new.items }
{
    append(list, front)?;
    append(list, back)
}

// Adds bits to the end of a list.
fn append(list: &mut Vec<u32>, bits: &[u32]) -> Result<(), AllocError>
    ensures added { OnOk result (list.new.items ≡ list.old.items ++ bits.now) }
    ensures kept { OnErr result (list.new.items ≡ list.old.items) }
{
    if bits.is_empty() {
        return Ok(());
    }
    list.extend_from_slice(bits)?;
    Ok(())
}

// Unites the bits from a place on with a set. The exclusive or of the hashes of those that only the set has is given.
fn unite(list: &mut Vec<u32>, start: usize, set: &[u32]) -> Result<u64, AllocError>
    requires { start ≤ length list.old.items }
    ensures front { take start list.new.items ≡ take start list.old.items }
    ensures united { OnOk result (drop start list.new.items ≡ union (drop start list.old.items) set.now) }
{
    let mut hash = 0;
    for rank in set {
        hash ^= add_rank(list, start, *rank)?;
    }
    Ok(hash)
}

// One more bit among those from a place on, if it is not there; then its hash is given.
fn add_rank(list: &mut Vec<u32>, start: usize, rank: u32) -> Result<u64, AllocError>
    requires { start ≤ length list.old.items }
    ensures front { take start list.new.items ≡ take start list.old.items }
    ensures long { start ≤ length list.new.items }
    ensures with { OnOk result (drop start list.new.items ≡ with_rank (drop start list.old.items) rank) }
{
    let at = start + place_of(&list.as_slice()[start..], rank);
    if at == list.len() {
        list.push(rank)?;
        return Ok(hash_of(rank));
    }
    let here = list.as_slice()[at];
    if here == rank {
        return Ok(0);
    }
    list.insert(at, rank)?;
    Ok(hash_of(rank))
}
