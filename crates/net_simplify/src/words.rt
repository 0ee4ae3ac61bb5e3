//! Words: the values of a function for all bits of the leaves at once.
ghost use Rattle.std.specs.Prelude.{◌≡◌, ◌<◌, ◌≤◌, ◌+◌, ◌-◌, ◌/◌, ◌^◌, ◌==◌, ℕ, Bool, List, length, if◌then◌else◌};
ghost use Rattle.std.specs.Int.{bit_at};
ghost use Rattle.lists.specs.Lists.{Has};
ghost use Rattle.net_core.specs.Value.{index_of};
ghost use Rattle.net_simplify.specs.Choice.{taken};
ghost use Rattle.net_simplify.specs.private.Lists.{IsWordOf, IsWordOver, bit_number, forms_of, value_number};

use crate::known::Known;
use crate::table_form::TableForm;
use crate::tables::{rows, table_bit};

// The word of a place: bit i is the bit of i at this place.
fn place_word(place: u32) -> u64
    requires { place < 6 }
    ensures { (i : ℕ) → i < 64 → bit_at result i ≡ bit_at i place }
{
    match place {
        0 => 0xaaaa_aaaa_aaaa_aaaa,
        1 => 0xcccc_cccc_cccc_cccc,
        2 => 0xf0f0_f0f0_f0f0_f0f0,
        3 => 0xff00_ff00_ff00_ff00,
        4 => 0xffff_0000_ffff_0000,
        _ => 0xffff_ffff_0000_0000,
    }
}

// The word with this bit everywhere.
fn constant_word(bit: u32) -> u64
    requires { bit < 2 }
    ensures { (i : ℕ) → i < 64 → bit_at result i ≡ bit }
{
    if bit == 1 { u64::MAX } else { 0 }
}

// Bit i is that of one word where bit i of the choice is 1, and that of the other word where it is 0.
fn chosen_word(choice: u64, high: u64, low: u64) -> u64
    ensures { (i : ℕ) → bit_at result i ≡ (if bit_at choice i == 1 then bit_at high i else bit_at low i) }
{
    low ^ (choice & (low ^ high))
}

// The word of a leaf, where the first of the leaves has this place.
fn leaf_word(leaves: &[u32], leaf: u32, place: u32) -> u64
    requires { place + length leaves.now ≤ 6 }
    ensures { (bits : List Bool) (i : ℕ) → i < 64 → i / 2 ^ place ≡ index_of bits leaves.now → Has leaves.now leaf → bit_at result i ≡ bit_number bits leaf }
{
    match leaves {
        [] => 0,
        [first, rest @ ..] => {
            if *first == leaf {
                place_word(place)
            } else {
                leaf_word(rest, leaf, place + 1)
            }
        }
    }
}

// The word of a table's function of some of the leaves.
fn word_over(leaves: &[u32], some: &[u32], table: u64) -> u64
    requires leaves { length leaves.now ≤ 6 }
    requires some { length some.now ≤ 6 }
    ensures { ((n : ℕ) → Has some.now n → Has leaves.now n) → IsWordOf leaves.now (λ bits. bit_at table (index_of bits some.now)) result }
{
    match some {
        [] => constant_word(table_bit(table, 0)),
        [before @ .., last] => {
            let half = table >> rows(before.len() as u32);
            chosen_word(
                leaf_word(leaves, *last, 0),
                word_over(leaves, before, half),
                word_over(leaves, before, table),
            )
        }
    }
}

// The word of a form.
fn form_word(leaves: &[u32], form: &TableForm) -> u64
    requires { length leaves.now ≤ 6 }
    ensures { ((n : ℕ) → Has form.now.leaves n → Has leaves.now n) → IsWordOf leaves.now (λ bits. value_number bits form.now) result }
{
    word_over(leaves, form.leaves(), form.table())
}

/// The word of a table's function of nets of which these are opened.
pub fn word_of_taken(known: &Known, nets: &[u32], opened: u32, leaves: &[u32], table: u64) -> u64
    requires leaves { length leaves.now ≤ 6 }
    requires nets { length nets.now ≤ 6 }
    ensures { IsWordOver leaves.now table (taken (forms_of known.now) opened nets.now) result }
{
    match nets {
        [] => constant_word(table_bit(table, 0)),
        [before @ .., last] => {
            let place = before.len() as u32;
            let form = known.taken(*last, (opened >> place) % 2 == 1);
            let half = table >> rows(place);
            chosen_word(
                form_word(leaves, form),
                word_of_taken(known, before, opened, leaves, half),
                word_of_taken(known, before, opened, leaves, table),
            )
        }
    }
}
