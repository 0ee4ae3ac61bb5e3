//! The net of a plan.
ghost use Rattle.std.specs.Prelude.{◌≡◌, ℕ, List, IfOk, OnOk, length};
ghost use Rattle.make_nets.specs.MadeNet.{made_net, names_in, outer_net};
ghost use Rattle.make_nets.specs.Makeable.{IsMakeable};

use crate::names::add_inner_names;
use crate::plan_maker::PlanMaker;
use crate::plan_ports::{add_gates, add_inputs, add_latches, add_outputs};
use net_core::{Latch, Net, NetFault, NetMaker};
use std::alloc::{AllocError, Global};

// The nets that there are, with the gates of a plan and what else stands on them.
fn fill(
    alloc: Global,
    maker: &mut NetMaker,
    outer: u32,
    prefix: &str,
    inputs: &[u32],
    outputs: &[u32],
    latches: &[Latch],
    plan: &PlanMaker,
) -> Result<(), AllocError>
    requires names { maker.old ≡ outer_net (names_in maker.old) }
    requires outer { outer ≡ length (names_in maker.old) }
    requires fits { (targets : List ℕ) × IsMakeable (names_in maker.old) prefix.now inputs.now outputs.now latches.now targets plan.now }
    ensures { OnOk result (maker.new ≡ made_net (names_in maker.old) prefix.now inputs.now outputs.now latches.now plan.now) }
{
    add_inner_names(alloc, maker, prefix, plan.next() - outer)?;
    add_inputs(maker, inputs)?;
    add_outputs(maker, outputs)?;
    add_gates(maker, plan.gates())?;
    add_latches(maker, latches)?;
    Ok(())
}

// Of a sound net list there is no other fault.
fn want_of_memory(fault: NetFault) -> AllocError
    requires { fault ≡ NetFault.OutOfMemory }
{
    match fault {
        NetFault::OutOfMemory => AllocError,
        _ => unreachable!(),
    }
}

/// The net of a plan over outer nets, which are the first `outer` nets and all there are yet. Their names are new to each
/// other, and none begins with the prefix, with which the names of the inner nets begin. Each of them is an input, the output
/// of a latch, or driven by a gate of the plan, and no two of these. It answers nothing but the net, or runs out of memory.
pub fn finish(
    alloc: Global,
    maker: NetMaker,
    outer: u32,
    prefix: &str,
    inputs: &[u32],
    outputs: &[u32],
    latches: &[Latch],
    plan: &PlanMaker,
) -> Result<Net, AllocError>
    requires names { maker ≡ outer_net (names_in maker) }
    requires outer { outer ≡ length (names_in maker) }
    requires fits { (targets : List ℕ) × IsMakeable (names_in maker) prefix.now inputs.now outputs.now latches.now targets plan.now }
    ensures { IfOk result (λ net. net ≡ made_net (names_in maker) prefix.now inputs.now outputs.now latches.now plan.now) }
{
    let mut maker = maker;
    fill(
        alloc, &mut maker, outer, prefix, inputs, outputs, latches, plan,
    )?;
    match maker.finish() {
        Ok(net) => Ok(net),
        Err(fault) => Err(want_of_memory(fault)),
    }
}
