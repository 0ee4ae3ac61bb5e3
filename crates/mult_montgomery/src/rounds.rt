//! The rounds of Montgomery's multiplier.
ghost use Rattle.std.specs.Prelude.{◌≡◌, ◌+◌, ◌*◌, ◌≤◌, ◌<◌, ◌==◌, IfOk, OnOk, length};
ghost use Rattle.std.specs.Int.{bit_at};
ghost use Rattle.make_nets.specs.PlanShape.{HasRoom};
ghost use Rattle.mult_montgomery.specs.Montgomery.{moved_plan, moved_net, divided_row as divided_row_of, summed_row as summed_row_of, round as round_of, rounds_from, buffered as buffered_of};
ghost use Rattle.make_nets.specs.Row.{row_of};

use make_nets::{PlanMaker, and_row, xor_row};
use std::alloc::{AllocError, Global};

// Whether coefficient i of the modulus is 1.
fn has_coefficient(modulus: u128, i: usize) -> bool
    requires { i ≤ 64 }
    ensures { result ≡ (bit_at modulus i == 1) }
{
    (modulus >> i) & 1 == 1
}

// Place j of the sum divided by x: a gate where coefficient j + 1 of the modulus is 1, else the next place itself.
fn moved(plan: &mut PlanMaker, modulus: u128, sum: &[u32], j: usize) -> Result<u32, AllocError>
    requires place { j + 1 < length sum.now }
    requires small { j < 64 }
    requires room { HasRoom plan.old 1 }
    ensures plan { OnOk result (plan.new ≡ moved_plan modulus sum.now j plan.old) }
    ensures net { IfOk result (λ n. n ≡ moved_net modulus sum.now j plan.old) }
    ensures next { OnOk result (plan.new.next ≤ plan.old.next + 1) }
{
    if has_coefficient(modulus, j + 1) {
        let net = plan.xor(sum[j + 1], sum[0])?;
        Ok(net)
    } else {
        Ok(sum[j + 1])
    }
}

// The sum divided by x.
fn divided_row(
    alloc: Global,
    plan: &mut PlanMaker,
    modulus: u128,
    sum: &[u32],
) -> Result<Vec<u32>, AllocError>
    requires some { 1 ≤ length sum.now }
    requires small { length sum.now ≤ 64 }
    requires room { HasRoom plan.old (length sum.now) }
    ensures plan { OnOk result (plan.new ≡ (divided_row_of (length sum.now) modulus (row_of plan.old sum.now)).plan) }
    ensures nets { IfOk result (λ nets. nets.items ≡ (divided_row_of (length sum.now) modulus (row_of plan.old sum.now)).nets) }
    ensures long { IfOk result (λ nets. length nets.items ≡ length sum.now) }
    ensures next { OnOk result (plan.new.next ≤ plan.old.next + length sum.now) }
{
    let mut nets = Vec::new(alloc);
    for j in 0..sum.len() - 1 {
        let net = moved(plan, modulus, sum, j)?;
        nets.push(net)?;
    }
    nets.push(sum[0])?;
    Ok(nets)
}

// The products of a coefficient of the first factor, to which the row before is added, where it is not the first.
fn summed_row(
    alloc: Global,
    plan: &mut PlanMaker,
    i: usize,
    a: &[u32],
    b: &[u32],
    before: &[u32],
) -> Result<Vec<u32>, AllocError>
    requires place { i < length a.now }
    requires same { 0 < i → length before.now ≡ length b.now }
    requires room { HasRoom plan.old (2 * length b.now) }
    ensures plan { OnOk result (plan.new ≡ (summed_row_of (length b.now) a.now b.now i (row_of plan.old before.now)).plan) }
    ensures nets { IfOk result (λ nets. nets.items ≡ (summed_row_of (length b.now) a.now b.now i (row_of plan.old before.now)).nets) }
    ensures long { IfOk result (λ nets. length nets.items ≡ length b.now) }
    ensures next { OnOk result (plan.new.next ≤ plan.old.next + 2 * length b.now) }
{
    let products = and_row(alloc, plan, a[i], b)?;
    if i == 0 {
        return Ok(products);
    }
    xor_row(alloc, plan, before, products.as_slice())
}

// A round: a coefficient of the first factor, with the division that follows.
fn round(
    alloc: Global,
    plan: &mut PlanMaker,
    modulus: u128,
    i: usize,
    a: &[u32],
    b: &[u32],
    before: &[u32],
) -> Result<Vec<u32>, AllocError>
    requires place { i < length a.now }
    requires same { 0 < i → length before.now ≡ length b.now }
    requires some { 1 ≤ length b.now }
    requires small { length b.now ≤ 64 }
    requires room { HasRoom plan.old (3 * length b.now) }
    ensures plan { OnOk result (plan.new ≡ (round_of (length b.now) modulus a.now b.now i (row_of plan.old before.now)).plan) }
    ensures nets { IfOk result (λ nets. nets.items ≡ (round_of (length b.now) modulus a.now b.now i (row_of plan.old before.now)).nets) }
    ensures long { IfOk result (λ nets. length nets.items ≡ length b.now) }
    ensures next { OnOk result (plan.new.next ≤ plan.old.next + 3 * length b.now) }
{
    let sum = summed_row(alloc, plan, i, a, b, before)?;
    divided_row(alloc, plan, modulus, sum.as_slice())
}

// All rounds.
pub(crate) fn rounds(
    alloc: Global,
    plan: &mut PlanMaker,
    modulus: u128,
    a: &[u32],
    b: &[u32],
) -> Result<Vec<u32>, AllocError>
    requires same { length a.now ≡ length b.now }
    requires some { 1 ≤ length b.now }
    requires small { length b.now ≤ 64 }
    requires room { HasRoom plan.old (length b.now * (3 * length b.now)) }
    ensures plan { OnOk result (plan.new ≡ (rounds_from (length b.now) modulus a.now b.now plan.old).plan) }
    ensures nets { IfOk result (λ nets. nets.items ≡ (rounds_from (length b.now) modulus a.now b.now plan.old).nets) }
    ensures long { IfOk result (λ nets. length nets.items ≡ length b.now) }
{
    let mut row = Vec::new(alloc);
    for i in 0..a.len() {
        row = round(alloc, plan, modulus, i, a, b, row.as_slice())?;
    }
    Ok(row)
}

// Buffers from the row to the nets of the product.
pub(crate) fn buffered(plan: &mut PlanMaker, z: &[u32], row: &[u32]) -> Result<(), AllocError>
    requires { length z.now ≡ length row.now }
    ensures { OnOk result (plan.new ≡ buffered_of (length z.now) z.now (row_of plan.old row.now)) }
{
    for j in 0..z.len() {
        plan.buffer_into(z[j], row[j])?;
    }
    Ok(())
}
