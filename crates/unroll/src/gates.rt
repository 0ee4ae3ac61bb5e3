//! The gates of all cycles.
ghost use Rattle.std.specs.Prelude.{◌≡◌, ◌<◌, ◌≤◌, ◌+◌, [], ◌∷◌, length, map, All, OnOk, take};
ghost use Rattle.net_core.specs.Inside.{GateIsInside};
ghost use Rattle.net_core.specs.NetList.{nets};
ghost use Rattle.net_core.specs.declared.fault.NetFault.TheVariants as faults;
ghost use Rattle.net_words.specs.BoundTo.{IsBoundTo};
ghost use Rattle.net_words.specs.Feeds.{IsSource, is_fed};
ghost use Rattle.unroll.specs.Gates.{buffer, constant, feeding_gate, gate_at, input_gate, is_held, latch_gate, source_gate, start_bit as start_bit_of, feeding_gates, start_gates};
ghost use Rattle.unroll.specs.Places.{net_at};
ghost use Rattle.unroll.specs.private.Plan.{HasRoom, net_count, with_gates, HasRoomFor};

use crate::plan::Plan;
use net_core::{Gate, Latch, NetFault, NetMaker, Start};
use net_words::Source;
use std::alloc::AllocError;

/// Out of memory, where it is no other fault.
pub fn memory(fault: NetFault) -> AllocError
    requires { fault ≡ NetFault.OutOfMemory }
{
    let _fault = fault;
    AllocError
}

// Adds a gate to a net list that has room for it.
fn add_gate(maker: &mut NetMaker, out: u32, inputs: &[u32], table: u64) -> Result<(), AllocError>
    requires room { HasRoom (nets maker.old) 1 maker.old }
    requires inside { GateIsInside (nets maker.old) (record { out = out; inputs = inputs.now; table = table }) }
    ensures { OnOk result (maker.new ≡ with_gates maker.old (record { out = out; inputs = inputs.now; table = table } ∷ [])) }
{
    match maker.gate(out, inputs, table) {
        Ok(()) => Ok(()),
        Err(fault) => Err(memory(fault)),
    }
}

// Adds a gate whose output has the bit of its only input.
fn add_buffer(maker: &mut NetMaker, out: u32, from: u32) -> Result<(), AllocError>
    requires room { HasRoom (nets maker.old) 1 maker.old }
    requires out { out < nets maker.old }
    requires input { from < nets maker.old }
    ensures { OnOk result (maker.new ≡ with_gates maker.old (buffer out from ∷ [])) }
{
    add_gate(maker, out, &[from], 2)
}

// Adds a gate without inputs, whose output is this bit.
fn add_constant(maker: &mut NetMaker, out: u32, bit: u64) -> Result<(), AllocError>
    requires room { HasRoom (nets maker.old) 1 maker.old }
    requires out { out < nets maker.old }
    requires bit { bit < 2 }
    ensures { OnOk result (maker.new ≡ with_gates maker.old (constant out bit ∷ [])) }
{
    add_gate(maker, out, &[], bit)
}

// The bit of a start; an unknown one has the bit 0.
fn start_bit(start: Start) -> u64
    ensures bit { result ≡ start_bit_of start }
    ensures small { result < 2 }
{
    match start {
        Start::Zero | Start::Unknown => 0,
        Start::One => 1,
    }
}

impl Plan {
    // Adds a gate that gives a net the bit of a source.
    fn add_source(&self, maker: &mut NetMaker, out: u32, source: Source) -> Result<(), AllocError>
        requires room { HasRoom (net_count self.now.net self.now.binding self.now.cycles) 1 maker.old }
        requires out { out < net_count self.now.net self.now.binding self.now.cycles }
        requires source { IsSource self.now.binding.k (map (λ word. word.role) self.now.binding.words) source }
        ensures { OnOk result (maker.new ≡ with_gates maker.old (source_gate self.now.net self.now.binding self.now.cycles out source ∷ [])) }
    {
        match source {
            Source::Zero => add_constant(maker, out, 0),
            Source::One => add_constant(maker, out, 1),
            Source::Bit { word, place } => add_buffer(maker, out, self.bit_net(word, place)),
        }
    }

    // Adds the feeding gate of a fed net in cycle t.
    fn add_feeding(&self, maker: &mut NetMaker, t: u32, n: u32) -> Result<(), AllocError>
        requires binding { IsBoundTo self.now.net self.now.binding }
        requires room { HasRoom (net_count self.now.net self.now.binding self.now.cycles) 1 maker.old }
        requires cycle { t ≤ self.now.cycles }
        requires net { n < nets self.now.net }
        ensures { OnOk result (maker.new ≡ with_gates maker.old (feeding_gate self.now.net self.now.binding self.now.cycles t n ∷ [])) }
    {
        self.add_source(maker, self.net_at(t, n), self.source(t, n))
    }

    // Adds the feeding gate of a primary input in the first cycle, if it is fed.
    pub fn add_first_input(&self, maker: &mut NetMaker, n: u32) -> Result<(), AllocError>
        requires binding { IsBoundTo self.now.net self.now.binding }
        requires room { HasRoomFor self.now.net self.now.binding self.now.cycles (feeding_gates self.now.net self.now.binding self.now.cycles (n ∷ [])) maker.old }
        requires net { n < nets self.now.net }
        ensures { OnOk result (maker.new ≡ with_gates maker.old (feeding_gates self.now.net self.now.binding self.now.cycles (n ∷ []))) }
    {
        if self.is_fed(n) {
            self.add_feeding(maker, 0, n)
        } else {
            Ok(())
        }
    }

    // Adds a gate with a latch's start in the first cycle, unless it is in a state word.
    pub fn add_first_latch(&self, maker: &mut NetMaker, latch: Latch) -> Result<(), AllocError>
        requires room { HasRoomFor self.now.net self.now.binding self.now.cycles (start_gates self.now.binding (latch ∷ [])) maker.old }
        requires net { latch.out < nets self.now.net }
        ensures { OnOk result (maker.new ≡ with_gates maker.old (start_gates self.now.binding (latch ∷ []))) }
    {
        if self.is_held(latch.out) {
            Ok(())
        } else {
            add_constant(maker, latch.out, start_bit(latch.start))
        }
    }

    // Adds what gives a primary input its bit in cycle t, after the first: its feeding gate, or a buffer from the first cycle.
    pub fn add_input(&self, maker: &mut NetMaker, t: u32, n: u32) -> Result<(), AllocError>
        requires binding { IsBoundTo self.now.net self.now.binding }
        requires room { HasRoom (net_count self.now.net self.now.binding self.now.cycles) 1 maker.old }
        requires cycle { t ≤ self.now.cycles }
        requires net { n < nets self.now.net }
        ensures { OnOk result (maker.new ≡ with_gates maker.old (input_gate self.now.net self.now.binding self.now.cycles t n ∷ [])) }
    {
        if self.is_fed(n) {
            self.add_feeding(maker, t, n)
        } else {
            add_buffer(maker, self.net_at(t, n), self.net_at(0, n))
        }
    }

    // Adds what gives a latch its bit in the cycle after t: a buffer from its `next` in cycle t.
    pub fn add_latch(&self, maker: &mut NetMaker, t: u32, latch: Latch) -> Result<(), AllocError>
        requires room { HasRoom (net_count self.now.net self.now.binding self.now.cycles) 1 maker.old }
        requires cycle { t < self.now.cycles }
        requires out { latch.out < nets self.now.net }
        requires next { latch.next < nets self.now.net }
        ensures { OnOk result (maker.new ≡ with_gates maker.old (latch_gate (nets self.now.net) t latch ∷ [])) }
    {
        add_buffer(
            maker,
            self.net_at(t + 1, latch.out),
            self.net_at(t, latch.next),
        )
    }

    // The nets of a gate's inputs in cycle t.
    fn inputs_at(&self, t: u32, inputs: &[u32]) -> [u32; 6]
        requires cycle { t ≤ self.now.cycles }
        requires nets { All (λ n. n < nets self.now.net) inputs.now }
        requires few { length inputs.now ≤ 6 }
        ensures nets { take (length inputs.now) result ≡ map (net_at (nets self.now.net) t) inputs.now }
        ensures long { length result ≡ 6 }
    {
        let mut out = [0; 6];
        for i in 0..inputs.len() {
            out[i] = self.net_at(t, inputs[i]);
        }
        out
    }

    // Adds a gate in cycle t.
    pub fn add_gate_at(&self, maker: &mut NetMaker, t: u32, gate: &Gate) -> Result<(), AllocError>
        requires room { HasRoom (net_count self.now.net self.now.binding self.now.cycles) 1 maker.old }
        requires cycle { t ≤ self.now.cycles }
        requires inside { GateIsInside (nets self.now.net) gate.now }
        ensures { OnOk result (maker.new ≡ with_gates maker.old (gate_at (nets self.now.net) t gate.now ∷ [])) }
    {
        let inputs = gate.inputs();
        let nets = self.inputs_at(t, inputs);
        add_gate(
            maker,
            self.net_at(t, gate.out()),
            &nets[..inputs.len()],
            gate.table(),
        )
    }
}
