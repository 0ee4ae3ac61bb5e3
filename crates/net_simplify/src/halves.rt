//! Tables with one place less.
ghost use Rattle.std.specs.Prelude.{◌≡◌, ◌<◌, ◌≤◌, ◌+◌, ◌-◌, ◌^◌, ℕ, length, true, false};
ghost use Rattle.std.specs.Int.{bit_at};
ghost use Rattle.net_simplify.specs.private.Lists.{IsTold, with_place};

use crate::tables::{rows, table_bit};

// An index with one more place, which has this bit.
fn with_bit(place: u32, bit: u32, index: u32) -> u32
    requires place { place ≤ 5 }
    requires bit { bit < 2 }
    requires index { index < 32 }
    ensures { result ≡ with_place place bit index }
{
    if place == 0 {
        bit + 2 * index
    } else {
        index % 2 + 2 * with_bit(place - 1, bit, index / 2)
    }
}

// The table of so many places, where one more place has this bit.
pub fn half(table: u64, places: u32, place: u32, bit: u32) -> u64
    requires places { places ≤ 5 }
    requires place { place ≤ places }
    requires bit { bit < 2 }
    ensures fits { result < 2 ^ (2 ^ places) }
    ensures bits { (i : ℕ) → i < 2 ^ places → bit_at result i ≡ bit_at table (with_place place bit i) }
{
    let mut found: u64 = 0;
    for index in 0..rows(places) {
        let value = table_bit(table, with_bit(place, bit, index));
        found = with_value(found, index, u64::from(value));
    }
    found
}

// A table that has bits below this index, with this bit at the index.
fn with_value(table: u64, index: u32, value: u64) -> u64
    requires index { index < 64 }
    requires value { value < 2 }
    requires fits { table < 2 ^ index }
    ensures fits { result < 2 ^ (index + 1) }
    ensures here { bit_at result index ≡ value }
    ensures below { (i : ℕ) → i < index → bit_at result i ≡ bit_at table i }
{
    table + (value << index)
}

// The word whose bit i is 1 exactly if the bit of i at this place is 0.
fn low_word(place: u32) -> u64
    requires { place < 6 }
    ensures { (i : ℕ) → i < 64 → bit_at result i ≡ 1 - bit_at i place }
{
    match place {
        0 => 0x5555_5555_5555_5555,
        1 => 0x3333_3333_3333_3333,
        2 => 0x0f0f_0f0f_0f0f_0f0f,
        3 => 0x00ff_00ff_00ff_00ff,
        4 => 0x0000_ffff_0000_ffff,
        _ => 0x0000_0000_ffff_ffff,
    }
}

/// Whether a table of one place more than these has the same bits whatever the bit at this place.
pub fn is_idle(table: u64, places: u32, place: u32) -> bool
    requires places { places ≤ 5 }
    requires place { place ≤ places }
    requires fits { table < 2 ^ (2 ^ (places + 1)) }
    ensures idle { result ≡ true → (i : ℕ) → i < 2 ^ places → bit_at table (with_place place 0 i) ≡ bit_at table (with_place place 1 i) }
    ensures told { result ≡ false → IsTold table places place }
{
    let differing = table ^ (table >> rows(place));
    differing & low_word(place) == 0
}
