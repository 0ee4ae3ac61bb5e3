//! All cycles of a netlist as one circuit.
ghost use Rattle.std.specs.Prelude.{◌≡◌, ◌≤◌};
ghost use Rattle.job_input.specs.CircuitOf.{CircuitOf};
ghost use Rattle.job_input.specs.private.NetlistReading.{FitsNetlist, unroll_refusal};

use crate::bound::BoundNetlist;
use crate::netlist::Refusal;
use job_words::NetlistFault;
use net_words::Combinational;
use std::alloc::Global;
use unroll::{UnrollFault, unroll};

/// The circuit of a netlist over at most 4,096 cycles after the first.
pub(crate) fn all_cycles(
    alloc: Global,
    netlist: BoundNetlist,
    cycles: u32,
) -> Result<Combinational, Refusal>
    requires { cycles ≤ 4096 }
    ensures fits { FitsNetlist result (CircuitOf netlist cycles) }
{
    let (net, binding) = netlist.into_parts();
    match unroll(alloc, net, binding, cycles) {
        Ok(circuit) => Ok(circuit),
        Err(fault) => Err(unroll_fault(fault)),
    }
}

// The refusal of all cycles.
fn unroll_fault(fault: UnrollFault) -> Refusal
    ensures { result ≡ unroll_refusal fault }
{
    match fault {
        UnrollFault::TooManyNets => Refusal::Fault(NetlistFault::TooManyNets),
        UnrollFault::TooManyGates => Refusal::Fault(NetlistFault::TooManyGates),
        UnrollFault::OutOfMemory => Refusal::OutOfMemory,
    }
}
