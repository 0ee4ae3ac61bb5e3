//! The net of all cycles.
ghost use Rattle.std.specs.Prelude.{◌≡◌, ◌≤◌, ◌<◌, ◌+◌, not, length, filter, IfOk};
ghost use Rattle.lists.specs.Limits.{most_nets};
ghost use Rattle.net_core.specs.NetList.{nets};
ghost use Rattle.net_core.specs.Sound.{IsSound};
ghost use Rattle.net_words.specs.BoundTo.{IsBoundTo};
ghost use Rattle.net_words.specs.Feeds.{is_fed};
ghost use Rattle.unroll.specs.Gates.{gates_to, is_held};
ghost use Rattle.unroll.specs.Nets.{all_cycles};

use crate::gates::memory;
use crate::places::net_count as count_nets;
use crate::plan::Plan;
use net_core::{Latch, Net, NetMaker};
use std::alloc::{AllocError, Global};

// The net of a sound net list.
fn finished(maker: NetMaker) -> Result<Net, AllocError>
    requires { IsSound maker }
    ensures { IfOk result (λ net. net ≡ maker) }
{
    match maker.finish() {
        Ok(net) => Ok(net),
        Err(fault) => Err(memory(fault)),
    }
}

impl Plan {
    // How many primary inputs are fed.
    fn fed_inputs(&self) -> u64
        ensures count { result ≡ length (filter (is_fed self.now.binding.feeds) self.now.net.inputs) }
        ensures few { result ≤ length self.now.net.inputs }
    {
        let mut count: u64 = 0;
        for n in self.net.inputs() {
            if self.is_fed(*n) {
                count += 1;
            }
        }
        count
    }

    // Whether the output of the latch is in no state word.
    fn is_started(&self, latch: &Latch) -> bool
        requires { latch.now.out < nets self.now.net }
        ensures { result ≡ not (is_held self.now.binding latch.now) }
    {
        !self.is_held(latch.out)
    }

    // How many latches are in no state word.
    fn started_latches(&self) -> u64
        ensures count { result ≡ length (filter (λ latch. not (is_held self.now.binding latch)) self.now.net.latches) }
        ensures few { result ≤ length self.now.net.latches }
    {
        let mut count: u64 = 0;
        for latch in self.net.latches() {
            if self.is_started(latch) {
                count += 1;
            }
        }
        count
    }

    /// How many gates the net has after unrolling.
    pub fn gate_count(&self) -> u64
        ensures { result ≡ length (gates_to self.now.net self.now.binding self.now.cycles self.now.cycles) }
    {
        let cycles = u64::from(self.cycles);
        let gates = self.net.gates().len() as u64;
        let buffers = (self.net.inputs().len() + self.net.latches().len()) as u64;
        (cycles + 1) * gates + self.started_latches() + cycles * buffers + self.fed_inputs()
    }

    // The net list of all cycles.
    fn laid_out(&self, alloc: Global) -> Result<NetMaker, AllocError>
        requires binding { IsBoundTo self.now.net self.now.binding }
        requires room { length (gates_to self.now.net self.now.binding self.now.cycles self.now.cycles) ≤ most_nets }
        ensures { IfOk result (λ maker. maker ≡ all_cycles self.now.net self.now.binding self.now.cycles) }
    {
        let mut maker = NetMaker::new(alloc);
        self.add_nets(alloc, &mut maker)?;
        let end = count_nets(&self.net, &self.binding, self.cycles) as u32;
        self.add_all_inputs(&mut maker, end)?;
        self.add_outputs(&mut maker)?;
        self.add_cycles(&mut maker)?;
        Ok(maker)
    }

    /// The net of all cycles, where it has no more gates than a net may have.
    pub fn net(&self, alloc: Global) -> Result<Net, AllocError>
        requires binding { IsBoundTo self.now.net self.now.binding }
        requires room { length (gates_to self.now.net self.now.binding self.now.cycles self.now.cycles) ≤ most_nets }
        ensures { IfOk result (λ net. net ≡ all_cycles self.now.net self.now.binding self.now.cycles) }
    {
        let maker = self.laid_out(alloc)?;
        finished(maker)
    }
}
