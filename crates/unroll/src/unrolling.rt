//! Nets with words, unrolled into one cycle.
ghost use Rattle.std.specs.Prelude.{◌≡◌, ◌≢◌, ◌≤◌, ◌<◌, ◌↔◌, Err, length, IfOk, IfErr, IsErrOf, OnOk};
ghost use Rattle.lists.specs.Limits.{most_nets};
ghost use Rattle.net_core.specs.NetList.{nets};
ghost use Rattle.net_words.specs.BoundTo.{IsBoundTo};
ghost use Rattle.unroll.specs.Gates.{gates_to};
ghost use Rattle.unroll.specs.Unrolled.{in_one_cycle, unrolled};
ghost use Rattle.unroll.specs.private.Plan.{net_count as net_count_of};

use crate::UnrollFault;
use crate::marks::{fed_marks, held_marks};
use crate::places::{first_bits, net_count};
use crate::plan::Plan;
use crate::sources::sources;
use net_core::Net;
use net_words::{Bound, Combinational, rebind};
use std::alloc::{AllocError, Global};

// The most nets, and the most gates, of a net.
const MOST: u64 = 1 << 20;

// What the cycles of a net are laid out by.
fn plan(alloc: Global, net: Net, binding: Bound, cycles: u32) -> Result<Plan, AllocError>
    requires binding { IsBoundTo net binding }
    requires cycles { cycles ≤ 4096 }
    requires few { net_count_of net binding cycles ≤ most_nets }
    ensures net { IfOk result (λ plan. plan.net ≡ net) }
    ensures binding { IfOk result (λ plan. plan.binding ≡ binding) }
    ensures cycles { IfOk result (λ plan. plan.cycles ≡ cycles) }
{
    let fed = fed_marks(alloc, &net, &binding)?;
    let held = held_marks(alloc, &net, &binding)?;
    let sources = sources(alloc, &net, &binding, cycles)?;
    let firsts = first_bits(alloc, &net, &binding, cycles)?;
    Ok(Plan {
        net,
        binding,
        cycles,
        fed,
        held,
        sources,
        firsts,
    })
}

impl Plan {
    // The net of all cycles with its words, where it has no more gates than a net may have.
    fn circuit(&self, alloc: Global) -> Result<Combinational, AllocError>
        requires binding { IsBoundTo self.now.net self.now.binding }
        requires room { length (gates_to self.now.net self.now.binding self.now.cycles self.now.cycles) ≤ most_nets }
        ensures { IfOk result (λ circuit. circuit ≡ in_one_cycle self.now.net self.now.binding self.now.cycles) }
    {
        let net = self.net(alloc)?;
        let list = self.word_nets(alloc)?;
        let binding = rebind(alloc, &self.binding, &net, &list)?;
        match Combinational::new(net, binding) {
            Ok(circuit) => Ok(circuit),
            Err(_) => unreachable!(),
        }
    }
}

// The net of all cycles with its words, where it has no more gates than a net may have.
fn within_gates(alloc: Global, plan: Plan) -> Result<Combinational, UnrollFault>
    requires { IsBoundTo plan.net plan.binding }
    ensures made { IfOk result (λ circuit. circuit ≡ in_one_cycle plan.net plan.binding plan.cycles) }
    ensures other { IfErr result (λ fault. fault ≢ UnrollFault.TooManyNets) }
    ensures gates { IsErrOf result UnrollFault.TooManyGates → most_nets < length (in_one_cycle plan.net plan.binding plan.cycles).net.gates }
    ensures told { most_nets < length (in_one_cycle plan.net plan.binding plan.cycles).net.gates → result ≡ Err UnrollFault.TooManyGates }
{
    if plan.gate_count() > MOST {
        return Err(UnrollFault::TooManyGates);
    }
    match plan.circuit(alloc) {
        Ok(circuit) => Ok(circuit),
        Err(AllocError) => Err(UnrollFault::OutOfMemory),
    }
}

// The net of all cycles with its words.
fn all_cycles(
    alloc: Global,
    net: Net,
    binding: Bound,
    cycles: u32,
) -> Result<Combinational, UnrollFault>
    requires binding { IsBoundTo net binding }
    requires cycles { cycles ≤ 4096 }
    ensures made { IfOk result (λ circuit. circuit ≡ in_one_cycle net binding cycles) }
    ensures nets { (result ≡ Err UnrollFault.TooManyNets) ↔ (most_nets < nets (in_one_cycle net binding cycles).net) }
    ensures gates { IsErrOf result UnrollFault.TooManyGates → most_nets < length (in_one_cycle net binding cycles).net.gates }
{
    if net_count(&net, &binding, cycles) > MOST {
        return Err(UnrollFault::TooManyNets);
    }
    match plan(alloc, net, binding, cycles) {
        Ok(plan) => within_gates(alloc, plan),
        Err(AllocError) => Err(UnrollFault::OutOfMemory),
    }
}

/// A net with its words, unrolled for at most 4,096 cycles after the first. The words are bound to the net.
///
/// A net without latches, bound without fed words and feeds, is kept as it is. Otherwise, with v nets, net n of cycle t has the
/// number `t * v + n` and the label of n; bit i of the j-th fed word has the number `(cycles + 1) * v + k * j + i` and a label as
/// `W[i]`. Input and state words have their nets of the first cycle, the output word those of the last, and a fed word its own.
/// `TooManyNets` comes exactly where this net has more than 1,048,576 nets; else `TooManyGates` where it has more than
/// 1,048,576 gates.
pub fn unroll(
    alloc: Global,
    net: Net,
    binding: Bound,
    cycles: u32,
) -> Result<Combinational, UnrollFault>
    requires binding { IsBoundTo net binding }
    requires cycles { cycles ≤ 4096 }
    ensures made { IfOk result (λ circuit. circuit ≡ unrolled net binding cycles) }
    ensures nets { (result ≡ Err UnrollFault.TooManyNets) ↔ (most_nets < nets (unrolled net binding cycles).net) }
    ensures gates { IsErrOf result UnrollFault.TooManyGates → most_nets < length (unrolled net binding cycles).net.gates }
    ensures room { OnOk result (length (unrolled net binding cycles).net.gates ≤ most_nets) }
{
    match Combinational::new(net, binding) {
        Ok(circuit) => Ok(circuit),
        Err((net, binding)) => all_cycles(alloc, net, binding, cycles),
    }
}
