//! Rows of gates, one for each place.
ghost use Rattle.std.specs.Prelude.{◌≡◌, ◌+◌, ◌≤◌, IfOk, OnOk, length};
ghost use Rattle.make_nets.specs.PlanShape.{HasRoom};
ghost use Rattle.make_nets.specs.Row.{and_row as and_row_of, xor_row as xor_row_of};

use crate::plan_maker::PlanMaker;
use std::alloc::{AllocError, Global};

/// Place by place: the net `a` and the net of the row.
pub fn and_row(
    alloc: Global,
    plan: &mut PlanMaker,
    a: u32,
    row: &[u32],
) -> Result<Vec<u32>, AllocError>
    requires room { HasRoom plan.old (length row.now) }
    ensures plan { OnOk result (plan.new ≡ (and_row_of (length row.now) a row.now plan.old).plan) }
    ensures nets { IfOk result (λ nets. nets.items ≡ (and_row_of (length row.now) a row.now plan.old).nets) }
    ensures long { IfOk result (λ nets. length nets.items ≡ length row.now) }
    ensures next { OnOk result (plan.new.next ≤ plan.old.next + length row.now) }
{
    let mut nets = Vec::new(alloc);
    for j in 0..row.len() {
        let net = plan.and(a, row[j])?;
        nets.push(net)?;
    }
    Ok(nets)
}

/// Place by place: one net or the other, but not both.
pub fn xor_row(
    alloc: Global,
    plan: &mut PlanMaker,
    first: &[u32],
    second: &[u32],
) -> Result<Vec<u32>, AllocError>
    requires room { HasRoom plan.old (length first.now) }
    requires same { length first.now ≡ length second.now }
    ensures plan { OnOk result (plan.new ≡ (xor_row_of (length first.now) first.now second.now plan.old).plan) }
    ensures nets { IfOk result (λ nets. nets.items ≡ (xor_row_of (length first.now) first.now second.now plan.old).nets) }
    ensures long { IfOk result (λ nets. length nets.items ≡ length first.now) }
    ensures next { OnOk result (plan.new.next ≤ plan.old.next + length first.now) }
{
    let mut nets = Vec::new(alloc);
    for j in 0..first.len() {
        let net = plan.xor(first[j], second[j])?;
        nets.push(net)?;
    }
    Ok(nets)
}
