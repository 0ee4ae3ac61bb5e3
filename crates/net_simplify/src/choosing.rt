//! Which inputs of a gate are opened.
ghost use Rattle.std.specs.Prelude.{◌≡◌, ◌≢◌, ◌<◌, ◌≤◌, ◌+◌, ◌*◌, ◌^◌, ℕ, Bool, length, if◌then◌else◌, IfOk};
ghost use Rattle.net_simplify.specs.Choice.{Gives, IsChosen, price as price_of};
ghost use Rattle.net_simplify.specs.private.Best.{AreSingles, IsBetterOf};
ghost use Rattle.net_simplify.specs.private.Lists.{forms_of};

use crate::composing::composed;
use crate::known::Known;
use crate::marking::mark_at;
use crate::table_form::TableForm;
use crate::tables::rows;
use net_core::Gate;
use std::alloc::{AllocError, Global};

// The most leaves that forms may have together where an input is opened.
const MOST: usize = 4;

// The price of leaves, where a net that is used once has the mark 1.
fn price(marks: &[u8], leaves: &[u32]) -> u32
    requires few { length leaves.now ≤ 6 }
    ensures price { (single : ℕ → Bool) → AreSingles single marks.now → result ≡ price_of single leaves.now }
    ensures small { result ≤ 9 * length leaves.now }
{
    match leaves {
        [] => 0,
        [first, rest @ ..] => leaf_price(marks, *first) + price(marks, rest),
    }
}

// The price of a leaf.
fn leaf_price(marks: &[u8], leaf: u32) -> u32
    ensures price { (single : ℕ → Bool) → AreSingles single marks.now → result ≡ (if single leaf then 9 else 1) }
    ensures small { result ≤ 9 }
{
    if mark_at(marks, leaf) == 1 { 9 } else { 1 }
}

// The gate's function of its inputs as they are.
fn unopened(alloc: Global, known: &Known, gate: &Gate) -> Result<TableForm, AllocError>
    ensures { IfOk result (λ form. Gives (forms_of known.now) gate.now 0 form) }
{
    let _nets = known.nets();
    let _inputs = gate.inputs();
    match composed(alloc, known, gate, 0, 6)? {
        Some(form) => Ok(form),
        None => unreachable!(),
    }
}

// The better one of what was the best so far, and what comes of opening these.
fn better(
    alloc: Global,
    known: &Known,
    gate: &Gate,
    marks: &[u8],
    opened: u32,
    best: TableForm,
) -> Result<TableForm, AllocError>
    requires within { opened < 2 ^ length gate.now.inputs }
    requires some { opened ≢ 0 }
    ensures { IfOk result (λ form. IsBetterOf marks.now (forms_of known.now) gate.now opened best form) }
{
    match composed(alloc, known, gate, opened, MOST)? {
        Some(form) => {
            if price(marks, form.leaves()) <= price(marks, best.leaves()) {
                Ok(form)
            } else {
                Ok(best)
            }
        }
        None => Ok(best),
    }
}

// The gate's function of its inputs where the best choice of these is opened.
pub fn choose(
    alloc: Global,
    known: &Known,
    gate: &Gate,
    marks: &[u8],
) -> Result<TableForm, AllocError>
    ensures { IfOk result (λ form. (single : ℕ → Bool) → AreSingles single marks.now → IsChosen single (forms_of known.now) gate.now form) }
{
    let mut best = unopened(alloc, known, gate)?;
    for opened in 1..rows(gate.inputs().len() as u32) {
        best = better(alloc, known, gate, marks, opened, best)?;
    }
    Ok(best)
}
