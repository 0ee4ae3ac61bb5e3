//! Functions of gates, of what their inputs are.
ghost use Rattle.std.specs.Prelude.{◌≡◌, ◌<◌, ◌≤◌, ◌^◌, ℕ, Bool, List, length, IfOk};
ghost use Rattle.std.specs.Int.{bit_at};
ghost use Rattle.lists.specs.Lists.{Has};
ghost use Rattle.net_core.specs.Value.{index_of};
ghost use Rattle.net_simplify.specs.Choice.{leaves_of, taken};
ghost use Rattle.net_simplify.specs.Form.{IsComposed, index_by};
ghost use Rattle.net_simplify.specs.private.Lists.{HoldLeaves, IsComposedWithin, forms_of};

use crate::joining::join;
use crate::known::Known;
use crate::reducing::reduced;
use crate::table_form::{TableForm, full};
use crate::words::word_of_taken;
use net_core::Gate;
use smallvec::SmallVec;
use std::alloc::{AllocError, Global};

// The table of a gate's function of its inputs where these are opened, over these leaves.
fn table_over(known: &Known, gate: &Gate, opened: u32, leaves: &[u32]) -> u64
    requires few { length leaves.now ≤ 6 }
    requires hold { HoldLeaves leaves.now (taken (forms_of known.now) opened gate.now.inputs) }
    ensures fits { result < 2 ^ (2 ^ length leaves.now) }
    ensures same { (bits : List Bool) → bit_at result (index_of bits leaves.now) ≡ bit_at gate.now.table (index_by bits (taken (forms_of known.now) opened gate.now.inputs)) }
{
    let word = word_of_taken(known, gate.inputs(), opened, leaves, gate.table());
    word & full(leaves.len() as u32)
}

// The gate's function of its inputs where these are opened, and have these leaves.
fn over_leaves(known: &Known, gate: &Gate, opened: u32, leaves: SmallVec<u32, 6>) -> TableForm
    requires few { length leaves.items ≤ 6 }
    requires leaves { leaves.items ≡ leaves_of (taken (forms_of known.now) opened gate.now.inputs) }
    ensures { IsComposed gate.now.table (taken (forms_of known.now) opened gate.now.inputs) result }
{
    let table = table_over(known, gate, opened, leaves.as_slice());
    reduced(leaves, table)
}

// The gate's function of its inputs where these are opened; none where they have more leaves than the limit.
pub fn composed(
    alloc: Global,
    known: &Known,
    gate: &Gate,
    opened: u32,
    limit: usize,
) -> Result<Option<TableForm>, AllocError>
    requires limit { limit ≤ 6 }
    ensures { IfOk result (λ found. IsComposedWithin limit gate.now.table (taken (forms_of known.now) opened gate.now.inputs) found) }
{
    let mut leaves = SmallVec::new(alloc);
    if join(known, gate.inputs(), opened, limit, &mut leaves)? {
        Ok(Some(over_leaves(known, gate, opened, leaves)))
    } else {
        Ok(None)
    }
}
