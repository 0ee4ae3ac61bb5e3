//! What stands on the nets.
ghost use Rattle.std.specs.Prelude.{◌≡◌, ◌<◌, ◌≤◌, ◌+◌, ◌++◌, All, OnOk, length};
ghost use Rattle.lists.specs.Limits.{most_nets};
ghost use Rattle.net_core.specs.Inside.{GateIsInside, LatchIsInside};
ghost use Rattle.net_core.specs.NetList.{nets, with_gate, with_latch};

use crate::planned_gate::PlannedGate;
use net_core::{Latch, NetFault, NetMaker};
use std::alloc::AllocError;

// Makes nets primary inputs.
pub(crate) fn add_inputs(maker: &mut NetMaker, inputs: &[u32]) -> Result<(), AllocError>
    requires { All (λ n. n < nets maker.old) inputs.now }
    ensures { OnOk result (maker.new ≡ record maker.old { inputs = maker.old.inputs ++ inputs.now }) }
{
    for net in inputs {
        maker.input(*net)?;
    }
    Ok(())
}

// Makes nets outputs.
pub(crate) fn add_outputs(maker: &mut NetMaker, outputs: &[u32]) -> Result<(), AllocError>
    requires { All (λ n. n < nets maker.old) outputs.now }
    ensures { OnOk result (maker.new ≡ record maker.old { outputs = maker.old.outputs ++ outputs.now }) }
{
    for net in outputs {
        maker.output(*net)?;
    }
    Ok(())
}

// Adds a gate.
fn add_gate(maker: &mut NetMaker, gate: &PlannedGate) -> Result<(), AllocError>
    requires inside { GateIsInside (nets maker.old) gate.now }
    requires room { length maker.old.gates + length maker.old.latches < most_nets }
    ensures { OnOk result (maker.new ≡ with_gate maker.old gate.now) }
{
    match maker.gate(gate.out(), gate.inputs(), gate.table()) {
        Ok(()) => Ok(()),
        Err(NetFault::OutOfMemory) => Err(AllocError),
        Err(_) => unreachable!(),
    }
}

// Adds the gates of a plan.
pub(crate) fn add_gates(maker: &mut NetMaker, gates: &[PlannedGate]) -> Result<(), AllocError>
    requires inside { All (GateIsInside (nets maker.old)) gates.now }
    requires room { length maker.old.gates + length maker.old.latches + length gates.now ≤ most_nets }
    ensures { OnOk result (maker.new ≡ record maker.old { gates = maker.old.gates ++ gates.now }) }
{
    for gate in gates {
        add_gate(maker, gate)?;
    }
    Ok(())
}

// Adds a latch.
fn add_latch(maker: &mut NetMaker, latch: &Latch) -> Result<(), AllocError>
    requires inside { LatchIsInside (nets maker.old) latch.now }
    requires room { length maker.old.gates + length maker.old.latches < most_nets }
    ensures { OnOk result (maker.new ≡ with_latch maker.old latch.now) }
{
    match maker.latch(latch.next, latch.out, latch.start) {
        Ok(()) => Ok(()),
        Err(NetFault::OutOfMemory) => Err(AllocError),
        Err(_) => unreachable!(),
    }
}

// Adds latches.
pub(crate) fn add_latches(maker: &mut NetMaker, latches: &[Latch]) -> Result<(), AllocError>
    requires inside { All (LatchIsInside (nets maker.old)) latches.now }
    requires room { length maker.old.gates + length maker.old.latches + length latches.now ≤ most_nets }
    ensures { OnOk result (maker.new ≡ record maker.old { latches = maker.old.latches ++ latches.now }) }
{
    for latch in latches {
        add_latch(maker, latch)?;
    }
    Ok(())
}
