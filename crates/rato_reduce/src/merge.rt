//! Equal terms of rows that are added up.
ghost use Rattle.std.specs.Prelude.{◌≡◌, ◌<◌, length, IsTrue, IfSome, OnOk, OnErr};
ghost use Rattle.rato_reduce.specs.private.Rows.{AddsAt, AreAddedUp, AreMerged, HaveSameBits};

use crate::row::{Row, has_same_bits};
use std::alloc::{AllocError, Global};

// So many places of a table are looked at for a row.
const LOOKS: usize = 16;

// Whether the row at an index is seen to be of the bits of that at another.
fn has_bits(ranks: &[u32], rows: &[Row], index: usize, i: usize) -> bool
    requires { i < length rows.now }
    ensures { IsTrue result → HaveSameBits ranks.now rows.now index i }
{
    match rows.get(index) {
        Some(other) => has_same_bits(ranks, other, &rows[i]),
        None => false,
    }
}

// The first place of a table in which a row of this hash is looked for, with room behind it for all looks.
fn first_look(table: &[u32], hash: u64) -> usize {
    (hash >> 32) as usize % table.len().saturating_sub(LOOKS).max(1)
}

// Puts the number of the row at an index, counted from 1, at a place of a table, or 0 where it is too great for a table: that row is
// not found.
fn note(table: &mut [u32], place: usize, i: usize) {
    if let Some(there) = table.get_mut(place) {
        *there = match u32::try_from(i.saturating_add(1)) {
            Ok(number) => number,
            Err(_) => 0,
        };
    }
}

// The index of a row with the bits of that at another index, if a few looks into the table from a place on find it. If they find
// an empty place first, the row is noted there. The table has at its places 0, or the number of a row; which of them it has
// decides how many rows are found, and nothing else.
fn find_or_note(
    ranks: &[u32],
    rows: &[Row],
    table: &mut [u32],
    first: usize,
    i: usize,
) -> Option<usize>
    requires { i < length rows.now }
    ensures { IfSome result (λ index. HaveSameBits ranks.now rows.now index i) }
{
    let mut place = first;
    for _ in 0..LOOKS {
        let number = match table.get(place) {
            Some(number) => *number as usize,
            None => 0,
        };
        if number == 0 {
            note(table, place, i);
            return None;
        }
        if has_bits(ranks, rows, number - 1, i) {
            return Some(number - 1);
        }
        place = place.wrapping_add(1);
    }
    None
}

// Adds to the coefficient of the row at an index.
fn add_at(rows: &mut [Row], i: usize, c: u64)
    requires { i < length rows.old }
    ensures { AddsAt rows.old rows.new i c }
{
    let row = rows[i];
    rows[i] = Row {
        start: row.start,
        stop: row.stop,
        hash: row.hash,
        coefficient: row.coefficient ^ c,
    };
}

// Adds the coefficient of a row to one with its bits, and leaves 0 there.
fn move_to(_ranks: &[u32], rows: &mut [Row], to: usize, from: usize)
    requires { HaveSameBits _ranks.now rows.old to from }
    ensures same { AreAddedUp _ranks.now rows.old rows.new }
    ensures long { length rows.new ≡ length rows.old }
{
    let c = rows[from].coefficient;
    add_at(rows, from, c);
    add_at(rows, to, c);
}

// Adds the row at an index to one with its bits, if that is found, and else notes it.
fn add_one(ranks: &[u32], rows: &mut [Row], table: &mut [u32], i: usize)
    requires { i < length rows.old }
    ensures same { AreAddedUp ranks.now rows.old rows.new }
    ensures long { length rows.new ≡ length rows.old }
{
    let first = first_look(table, rows[i].hash);
    if let Some(index) = find_or_note(ranks, rows, table, first, i) {
        move_to(ranks, rows, index, i);
    }
}

// Adds up equal terms that a few looks into the table find, and leaves 0 in the place of all but one.
fn add_up(ranks: &[u32], rows: &mut [Row], table: &mut [u32])
    ensures same { AreAddedUp ranks.now rows.old rows.new }
    ensures long { length rows.new ≡ length rows.old }
{
    for i in 0..rows.len() {
        add_one(ranks, rows, table, i);
    }
}

/// Adds up equal terms that a few looks find, and leaves out those whose coefficients come to 0.
pub fn merge_rows(alloc: Global, ranks: &[u32], rows: &mut Vec<Row>) -> Result<(), AllocError>
    ensures merged { OnOk result (AreMerged ranks.now rows.old.items rows.new.items) }
    ensures kept { OnErr result (rows.new.items ≡ rows.old.items) }
{
    // A quarter full, so that at most a few looks are wanted, and a sum of as many terms as the bound is seen to be within it.
    let size = rows.len().saturating_mul(4).saturating_add(LOOKS);
    let mut table = vec![in alloc; 0; size]?;
    add_up(ranks, rows.as_mut_slice(), table.as_mut_slice());
    rows.retain(|row| row.coefficient != 0);
    Ok(())
}
