//! The primary inputs and the outputs of the unrolled net.
ghost use Rattle.std.specs.Prelude.{◌≡◌, ◌<◌, ◌+◌, [], ◌∷◌, not, map, filter, OnOk};
ghost use Rattle.net_core.specs.NetList.{nets};
ghost use Rattle.net_words.specs.Feeds.{is_fed};
ghost use Rattle.unroll.specs.Gates.{is_held};
ghost use Rattle.unroll.specs.Nets.{unrolled_inputs, fed_bit_nets};
ghost use Rattle.unroll.specs.Places.{net_at};
ghost use Rattle.unroll.specs.private.Plan.{net_count, with_inputs, with_outputs};

use crate::plan::Plan;
use net_core::{Latch, NetMaker};
use std::alloc::AllocError;

impl Plan {
    // Adds a primary input, unless it is fed.
    fn add_free(&self, maker: &mut NetMaker, n: u32) -> Result<(), AllocError>
        requires count { nets maker.old ≡ net_count self.now.net self.now.binding self.now.cycles }
        requires net { n < nets self.now.net }
        ensures { OnOk result (maker.new ≡ with_inputs maker.old (filter (λ m. not (is_fed self.now.binding.feeds m)) (n ∷ []))) }
    {
        if self.is_fed(n) {
            Ok(())
        } else {
            maker.input(n)
        }
    }

    // Adds the primary inputs that are not fed.
    fn add_frees(&self, maker: &mut NetMaker) -> Result<(), AllocError>
        requires { nets maker.old ≡ net_count self.now.net self.now.binding self.now.cycles }
        ensures { OnOk result (maker.new ≡ with_inputs maker.old (filter (λ n. not (is_fed self.now.binding.feeds n)) self.now.net.inputs)) }
    {
        for n in self.net.inputs() {
            self.add_free(maker, *n)?;
        }
        Ok(())
    }

    // Adds the output of a latch, if it is in a state word.
    fn add_state(&self, maker: &mut NetMaker, latch: Latch) -> Result<(), AllocError>
        requires count { nets maker.old ≡ net_count self.now.net self.now.binding self.now.cycles }
        requires net { latch.out < nets self.now.net }
        ensures { OnOk result (maker.new ≡ with_inputs maker.old (map (λ l. l.out) (filter (is_held self.now.binding) (latch ∷ [])))) }
    {
        if self.is_held(latch.out) {
            maker.input(latch.out)
        } else {
            Ok(())
        }
    }

    // Adds the outputs of latches in state words.
    fn add_states(&self, maker: &mut NetMaker) -> Result<(), AllocError>
        requires { nets maker.old ≡ net_count self.now.net self.now.binding self.now.cycles }
        ensures { OnOk result (maker.new ≡ with_inputs maker.old (map (λ latch. latch.out) (filter (is_held self.now.binding) self.now.net.latches))) }
    {
        for latch in self.net.latches() {
            self.add_state(maker, *latch)?;
        }
        Ok(())
    }

    // Adds the bits of the fed words, which are the last of so many nets.
    fn add_bits(&self, maker: &mut NetMaker, end: u32) -> Result<(), AllocError>
        requires count { nets maker.old ≡ net_count self.now.net self.now.binding self.now.cycles }
        requires end { end ≡ net_count self.now.net self.now.binding self.now.cycles }
        ensures { OnOk result (maker.new ≡ with_inputs maker.old (fed_bit_nets self.now.net self.now.binding self.now.cycles)) }
    {
        for n in (self.cycles + 1) * self.net.nets()..end {
            maker.input(n)?;
        }
        Ok(())
    }

    /// Adds the primary inputs.
    pub fn add_all_inputs(&self, maker: &mut NetMaker, end: u32) -> Result<(), AllocError>
        requires count { nets maker.old ≡ net_count self.now.net self.now.binding self.now.cycles }
        requires end { end ≡ net_count self.now.net self.now.binding self.now.cycles }
        ensures { OnOk result (maker.new ≡ with_inputs maker.old (unrolled_inputs self.now.net self.now.binding self.now.cycles)) }
    {
        self.add_frees(maker)?;
        self.add_states(maker)?;
        self.add_bits(maker, end)
    }

    /// Adds the outputs, those of the last cycle.
    pub fn add_outputs(&self, maker: &mut NetMaker) -> Result<(), AllocError>
        requires { nets maker.old ≡ net_count self.now.net self.now.binding self.now.cycles }
        ensures { OnOk result (maker.new ≡ with_outputs maker.old (map (net_at (nets self.now.net) self.now.cycles) self.now.net.outputs)) }
    {
        for n in self.net.outputs() {
            maker.output(self.net_at(self.cycles, *n))?;
        }
        Ok(())
    }
}
