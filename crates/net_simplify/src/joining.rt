//! The leaves of several forms.
ghost use Rattle.std.specs.Prelude.{◌≡◌, ◌<◌, ◌≤◌, ◌+◌, ◌^◌, ℕ, Bool, true, false, List, length, OnOk, IfOk, IsOkAnd, cond, Ok};
ghost use Rattle.lists.specs.Lists.{Has};
ghost use Rattle.net_core.specs.Value.{index_of};
ghost use Rattle.net_simplify.specs.Choice.{leaves_with, taken, with_leaf, with_leaves};
ghost use Rattle.net_simplify.specs.Form.{index_by};
ghost use Rattle.net_simplify.specs.private.Lists.{HoldLeaves, IsJoined, forms_of, is_at_place, leaf_place};

use crate::known::Known;
use smallvec::SmallVec;
use std::alloc::AllocError;

// How many of the leaves stand before the place of one.
fn place_of(leaves: &[u32], leaf: u32) -> usize
    requires { length leaves.now ≤ 6 }
    ensures place { result ≡ leaf_place leaf leaves.now }
    ensures within { result ≤ length leaves.now }
{
    match leaves {
        [] => 0,
        [first, rest @ ..] => {
            if *first < leaf {
                1 + place_of(rest, leaf)
            } else {
                0
            }
        }
    }
}

// Whether the leaf stands at this place.
fn stands_at(leaves: &[u32], place: usize, leaf: u32) -> bool
    ensures { result ≡ is_at_place leaves.now place leaf }
{
    match leaves.get(place) {
        Some(found) => *found == leaf,
        None => false,
    }
}

// Adds a leaf, if it is not there.
fn add_leaf(leaves: &mut SmallVec<u32, 6>, leaf: u32) -> Result<(), AllocError>
    requires { length leaves.old.items ≤ 6 }
    ensures { OnOk result (leaves.new.items ≡ with_leaf leaf leaves.old.items) }
{
    let place = place_of(leaves.as_slice(), leaf);
    if stands_at(leaves.as_slice(), place, leaf) {
        return Ok(());
    }
    leaves.insert(place, leaf)?;
    Ok(())
}

// Adds leaves, and whether there are no more than the limit; where there are more, not all may be added.
fn add_leaves(leaves: &mut SmallVec<u32, 6>, more: &[u32], limit: usize) -> Result<bool, AllocError>
    requires few { length leaves.old.items ≤ limit }
    requires limit { limit ≤ 6 }
    ensures { IfOk result (λ within. IsJoined limit (with_leaves more.now leaves.old.items) leaves.new.items within) }
{
    match more {
        [] => Ok(true),
        [first, rest @ ..] => {
            add_leaf(leaves, *first)?;
            if leaves.len() > limit {
                return Ok(false);
            }
            add_leaves(leaves, rest, limit)
        }
    }
}

// Adds the leaves of the forms of nets where these are opened, and whether there are no more than the limit.
pub fn join(
    known: &Known,
    nets: &[u32],
    opened: u32,
    limit: usize,
    leaves: &mut SmallVec<u32, 6>,
) -> Result<bool, AllocError>
    requires few { length leaves.old.items ≤ limit }
    requires limit { limit ≤ 6 }
    ensures { IfOk result (λ within. IsJoined limit (leaves_with leaves.old.items (taken (forms_of known.now) opened nets.now)) leaves.new.items within) }
{
    match nets {
        [] => Ok(true),
        [first, rest @ ..] => {
            let form = known.taken(*first, opened % 2 == 1);
            if !add_leaves(leaves, form.leaves(), limit)? {
                return Ok(false);
            }
            join(known, rest, opened / 2, limit, leaves)
        }
    }
}
