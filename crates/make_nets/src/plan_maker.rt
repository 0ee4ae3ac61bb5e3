//! Gates in the making.
ghost use Rattle.std.specs.Prelude.{◌≡◌, ◌+◌, ℕ, Option, None, Some, OnOk, IfOk, length};
ghost use Rattle.make_nets.specs.Plan.{begun, chain_net, with_and, with_buffer, with_chain, with_links, with_xor};
ghost use Rattle.make_nets.specs.PlanShape.{HasRoom};

use crate::planned_gate::PlannedGate;
use std::alloc::{AllocError, Global};
use std::marker::Model;

/// Gates in the making, over outer nets that are numbered first. A gate drives an outer net, or the next inner one.
/// Contracts see it as a plan. After running out of memory it is not used again.
#[derive(Drop)]
pub struct PlanMaker {
    next: u32,
    gates: Vec<PlannedGate>,
}

impl Model for PlanMaker {
    ghost use Rattle.make_nets.specs.Plan.{Plan};

    ghost Value = { Plan };

    ghost view = { λ m. record { next = m.next; gates = m.gates.items } };
}

impl PlanMaker {
    /// No gates yet; the first inner net has the number `first`.
    pub fn new(alloc: Global, first: u32) -> PlanMaker
        ensures { result ≡ begun first }
    {
        PlanMaker {
            next: first,
            gates: Vec::new(alloc),
        }
    }

    /// The next inner net.
    pub fn next(&self) -> u32
        ensures { result ≡ self.now.next }
    {
        self.next
    }

    // The gates so far.
    pub(crate) fn gates(&self) -> &[PlannedGate]
        ensures { result.now ≡ self.now.gates }
    {
        &self.gates
    }

    /// A gate that is 1 where both nets are drives the next inner net, whose number it gives.
    pub fn and(&mut self, a: u32, b: u32) -> Result<u32, AllocError>
        requires room { HasRoom self.old 1 }
        ensures number { IfOk result (λ n. n ≡ self.old.next) }
        ensures made { OnOk result (self.new ≡ with_and None a b self.old) }
    {
        let out = self.next;
        self.gates.push(PlannedGate::and(out, a, b))?;
        self.next = out + 1;
        Ok(out)
    }

    /// A gate that is 1 where one of the nets is drives the next inner net, whose number it gives.
    pub fn xor(&mut self, a: u32, b: u32) -> Result<u32, AllocError>
        requires room { HasRoom self.old 1 }
        ensures number { IfOk result (λ n. n ≡ self.old.next) }
        ensures made { OnOk result (self.new ≡ with_xor None a b self.old) }
    {
        let out = self.next;
        self.gates.push(PlannedGate::xor(out, a, b))?;
        self.next = out + 1;
        Ok(out)
    }

    /// A gate that is 1 where one of the nets is drives an outer net.
    pub fn xor_into(&mut self, out: u32, a: u32, b: u32) -> Result<(), AllocError>
        ensures { OnOk result (self.new ≡ with_xor (Some out) a b self.old) }
    {
        self.gates.push(PlannedGate::xor(out, a, b))?;
        Ok(())
    }

    /// A buffer of a net drives an outer net.
    pub fn buffer_into(&mut self, out: u32, a: u32) -> Result<(), AllocError>
        ensures { OnOk result (self.new ≡ with_buffer (Some out) a self.old) }
    {
        self.gates.push(PlannedGate::buffer(out, a))?;
        Ok(())
    }

    /// A chain of exclusive or gates of the nets, from the left, drives the next inner net, whose number it gives; those
    /// between drive the inner nets before.
    pub fn chain(&mut self, list: &[u32]) -> Result<u32, AllocError>
        requires room { HasRoom self.old (length list.now + 1) }
        ensures number { IfOk result (λ n. n ≡ chain_net None list.now self.old) }
        ensures made { OnOk result (self.new ≡ with_chain None list.now self.old) }
    {
        match list {
            [] => {
                let out = self.next;
                self.gates.push(PlannedGate::zero(out))?;
                self.next = out + 1;
                Ok(out)
            }
            [a] => {
                let out = self.next;
                self.gates.push(PlannedGate::buffer(out, *a))?;
                self.next = out + 1;
                Ok(out)
            }
            [a, b, rest @ ..] => {
                let (total, last) = self.link(*a, *b, rest)?;
                let out = self.xor(total, last)?;
                Ok(out)
            }
        }
    }

    /// A chain of exclusive or gates of the nets, from the left, drives this outer net; those between drive the next inner
    /// nets.
    pub fn chain_into(&mut self, out: u32, list: &[u32]) -> Result<(), AllocError>
        requires room { HasRoom self.old (length list.now + 1) }
        ensures { OnOk result (self.new ≡ with_chain (Some out) list.now self.old) }
    {
        match list {
            [] => {
                self.gates.push(PlannedGate::zero(out))?;
            }
            [a] => {
                self.gates.push(PlannedGate::buffer(out, *a))?;
            }
            [a, b, rest @ ..] => {
                let (total, last) = self.link(*a, *b, rest)?;
                self.gates.push(PlannedGate::xor(out, total, last))?;
            }
        }
        Ok(())
    }

    // The gates between of a chain of a, b and the rest: all but the one over the two nets that it gives.
    fn link(&mut self, a: u32, b: u32, rest: &[u32]) -> Result<(u32, u32), AllocError>
        requires room { HasRoom self.old (length rest.now) }
        ensures next { OnOk result (self.new.next ≡ self.old.next + length rest.now) }
        ensures linked { IfOk result (λ pair. (target : Option ℕ) → with_links target a b rest.now self.old ≡ with_xor target pair.0 pair.1 self.new) }
    {
        let mut total = a;
        let mut last = b;
        for net in rest {
            total = self.xor(total, last)?;
            last = *net;
        }
        Ok((total, last))
    }
}
