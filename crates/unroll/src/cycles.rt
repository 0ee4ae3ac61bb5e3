//! The gates of all cycles, cycle by cycle.
ghost use Rattle.std.specs.Prelude.{◌≡◌, ◌<◌, ◌≤◌, ◌+◌, length, map, OnOk};
ghost use Rattle.net_core.specs.NetList.{nets};
ghost use Rattle.net_words.specs.BoundTo.{IsBoundTo};
ghost use Rattle.unroll.specs.Gates.{first_gates, gate_at, gates_to, input_gate, latch_gate, next_gates, feeding_gates, start_gates};
ghost use Rattle.unroll.specs.private.Plan.{HasRoom, net_count, with_gates, HasRoomFor};

use crate::plan::Plan;
use net_core::NetMaker;
use std::alloc::AllocError;

impl Plan {
    // Adds the feeding gates of the fed nets in the first cycle.
    fn add_first_inputs(&self, maker: &mut NetMaker) -> Result<(), AllocError>
        requires binding { IsBoundTo self.now.net self.now.binding }
        requires room { HasRoomFor self.now.net self.now.binding self.now.cycles (feeding_gates self.now.net self.now.binding self.now.cycles self.now.net.inputs) maker.old }
        ensures { OnOk result (maker.new ≡ with_gates maker.old (feeding_gates self.now.net self.now.binding self.now.cycles self.now.net.inputs)) }
    {
        for n in self.net.inputs() {
            self.add_first_input(maker, *n)?;
        }
        Ok(())
    }

    // Adds a start for each latch in no state word.
    fn add_first_latches(&self, maker: &mut NetMaker) -> Result<(), AllocError>
        requires { HasRoomFor self.now.net self.now.binding self.now.cycles (start_gates self.now.binding self.now.net.latches) maker.old }
        ensures { OnOk result (maker.new ≡ with_gates maker.old (start_gates self.now.binding self.now.net.latches)) }
    {
        for latch in self.net.latches() {
            self.add_first_latch(maker, *latch)?;
        }
        Ok(())
    }

    // Adds what gives the primary inputs their bits in cycle t, after the first.
    fn add_inputs(&self, maker: &mut NetMaker, t: u32) -> Result<(), AllocError>
        requires binding { IsBoundTo self.now.net self.now.binding }
        requires room { HasRoom (net_count self.now.net self.now.binding self.now.cycles) (length self.now.net.inputs) maker.old }
        requires cycle { t ≤ self.now.cycles }
        ensures { OnOk result (maker.new ≡ with_gates maker.old (map (input_gate self.now.net self.now.binding self.now.cycles t) self.now.net.inputs)) }
    {
        for n in self.net.inputs() {
            self.add_input(maker, t, *n)?;
        }
        Ok(())
    }

    // Adds what gives the latches their bits in the cycle after t.
    fn add_latches(&self, maker: &mut NetMaker, t: u32) -> Result<(), AllocError>
        requires room { HasRoom (net_count self.now.net self.now.binding self.now.cycles) (length self.now.net.latches) maker.old }
        requires cycle { t < self.now.cycles }
        ensures { OnOk result (maker.new ≡ with_gates maker.old (map (latch_gate (nets self.now.net) t) self.now.net.latches)) }
    {
        for latch in self.net.latches() {
            self.add_latch(maker, t, *latch)?;
        }
        Ok(())
    }

    // Adds the gates in cycle t.
    fn add_gates_at(&self, maker: &mut NetMaker, t: u32) -> Result<(), AllocError>
        requires room { HasRoom (net_count self.now.net self.now.binding self.now.cycles) (length self.now.net.gates) maker.old }
        requires cycle { t ≤ self.now.cycles }
        ensures { OnOk result (maker.new ≡ with_gates maker.old (map (gate_at (nets self.now.net) t) self.now.net.gates)) }
    {
        for gate in self.net.gates() {
            self.add_gate_at(maker, t, gate)?;
        }
        Ok(())
    }

    // Adds the gates of the first cycle.
    fn add_first(&self, maker: &mut NetMaker) -> Result<(), AllocError>
        requires binding { IsBoundTo self.now.net self.now.binding }
        requires room { HasRoom (net_count self.now.net self.now.binding self.now.cycles) (length (first_gates self.now.net self.now.binding self.now.cycles)) maker.old }
        ensures { OnOk result (maker.new ≡ with_gates maker.old (first_gates self.now.net self.now.binding self.now.cycles)) }
    {
        self.add_first_inputs(maker)?;
        self.add_first_latches(maker)?;
        self.add_gates_at(maker, 0)
    }

    // Adds the gates of the cycle after t.
    fn add_next(&self, maker: &mut NetMaker, t: u32) -> Result<(), AllocError>
        requires binding { IsBoundTo self.now.net self.now.binding }
        requires room { HasRoom (net_count self.now.net self.now.binding self.now.cycles) (length (next_gates self.now.net self.now.binding self.now.cycles t)) maker.old }
        requires cycle { t < self.now.cycles }
        ensures { OnOk result (maker.new ≡ with_gates maker.old (next_gates self.now.net self.now.binding self.now.cycles t)) }
    {
        self.add_inputs(maker, t + 1)?;
        self.add_latches(maker, t)?;
        self.add_gates_at(maker, t + 1)
    }

    /// Adds the gates of all cycles to a net list that has room for them.
    pub fn add_cycles(&self, maker: &mut NetMaker) -> Result<(), AllocError>
        requires binding { IsBoundTo self.now.net self.now.binding }
        requires room { HasRoom (net_count self.now.net self.now.binding self.now.cycles) (length (gates_to self.now.net self.now.binding self.now.cycles self.now.cycles)) maker.old }
        ensures { OnOk result (maker.new ≡ with_gates maker.old (gates_to self.now.net self.now.binding self.now.cycles self.now.cycles)) }
    {
        self.add_first(maker)?;
        for t in 0..self.cycles {
            self.add_next(maker, t)?;
        }
        Ok(())
    }
}
