//! A net list in the making and the name that was mentioned last.
ghost use Rattle.std.specs.Prelude.{◌≡◌, ◌<◌, ◌≤◌, ◌^◌, ◌++◌, ◌∷◌, [], ℕ, Ok, Some, All, IfOk, IfErr, IfSome, OnOk, length, false};
ghost use Rattle.net_core.specs.Inside.{HasNoMoreGates, IsFull};
ghost use Rattle.net_core.specs.NetList.{empty, nets, number_of, with_gate, with_label, with_latch};
ghost use Rattle.net_blif.specs.Statement.{IsToken};
ghost use Rattle.net_flat.specs.Steps.{Mention};
ghost use Rattle.net_flat.specs.private.LocalWalk.{InTop, IsFaultOf, local_step, state_with};
ghost use Rattle.net_flat.specs.private.Stopping.{IsFaultOfGate, IsFaultOfNet};

use crate::equal_names::is_same;
use crate::stop::Stop;
use net_blif::text_of;
use net_core::{NetMaker, Start};
use std::alloc::{AllocError, Global};
use std::marker::Model;

/// A net list in the making, which contracts see as the net list that was made so far. The name of the chosen model that
/// was mentioned last is kept with its number: a gate often reads what was driven just before, and such a name is not
/// looked up.
#[derive(Drop)]
pub struct Namer<'a> {
    maker: NetMaker,
    last: &'a [u8],
    number: Option<u32>,
}

impl<'a> Model for Namer<'a> {
    ghost use Rattle.std.specs.Prelude.{◌≡◌, Some, IfSome};
    ghost use Rattle.net_core.specs.NetList.{NetList, number_of};

    ghost Value = { NetList };

    ghost view = { λ m. m.maker };

    ghost invariant = { λ m. IfSome m.number (λ n. number_of m.maker m.last.now ≡ Some n) };
}

impl<'a> Namer<'a> {
    /// A net list with nothing in it, which looks names up by a hash with this key. It takes no memory.
    pub fn keyed(alloc: Global, key: u64) -> Namer<'a>
        ensures { result ≡ empty }
    {
        Namer {
            maker: NetMaker::keyed(alloc, key),
            last: &[],
            number: None,
        }
    }

    /// The net list.
    pub fn into_maker(self) -> NetMaker
        ensures { result ≡ self.entry }
    {
        self.maker
    }

    // The number of the net of a name, if it was mentioned last.
    fn known(&self, name: &[u8]) -> Option<u32>
        ensures { IfSome result (λ n. number_of self.now name.now ≡ Some n) }
    {
        if is_same(self.last, name) {
            self.number
        } else {
            None
        }
    }

    // The number of the net of a name that is looked up, and made if it is new; it is then the name that was mentioned last.
    fn look_up(&mut self, name: &'a [u8]) -> Result<u32, Stop>
        requires { IsToken name.now }
        ensures number { IfOk result (λ n. number_of self.new name.now ≡ Some n) }
        ensures made { (i : ℕ) → OnOk result (local_step (state_with self.old i InTop) (Mention name.now) ≡ Ok (state_with self.new i InTop)) }
        ensures fault { (i : ℕ) → IfErr result (IsFaultOf (local_step (state_with self.old i InTop) (Mention name.now))) }
    {
        self.number = None;
        match self.maker.net(text_of(name)) {
            Ok(number) => {
                self.last = name;
                self.number = Some(number);
                Ok(number)
            }
            Err(fault) => Err(Stop::of_fault(fault)),
        }
    }

    /// The number of the net of a name of the chosen model, which is made if it is new.
    pub fn mention(&mut self, name: &'a [u8]) -> Result<u32, Stop>
        requires { IsToken name.now }
        ensures number { IfOk result (λ n. number_of self.new name.now ≡ Some n) }
        ensures made { (i : ℕ) → OnOk result (local_step (state_with self.old i InTop) (Mention name.now) ≡ Ok (state_with self.new i InTop)) }
        ensures fault { (i : ℕ) → IfErr result (IsFaultOf (local_step (state_with self.old i InTop) (Mention name.now))) }
    {
        match self.known(name) {
            Some(number) => Ok(number),
            None => self.look_up(name),
        }
    }

    /// The number of a new net that no name finds; the label is for messages.
    pub fn fresh(&mut self, label: &str) -> Result<u32, Stop>
        ensures number { IfOk result (λ n. n ≡ nets self.old) }
        ensures made { OnOk result (self.new ≡ with_label self.old label.now false) }
        ensures room { OnOk result (IsFull self.old → ⊥) }
        ensures fault { IfErr result (IsFaultOfNet self.old) }
    {
        self.number = None;
        let number = match self.maker.fresh(label) {
            Ok(number) => number,
            Err(fault) => return Err(Stop::of_fault(fault)),
        };
        Ok(number)
    }

    /// Makes a net that there is a primary input, after those before.
    pub fn input(&mut self, net: u32) -> Result<(), AllocError>
        requires { net < nets self.old }
        ensures made { OnOk result (self.new ≡ record self.old { inputs = self.old.inputs ++ net ∷ [] }) }
    {
        self.maker.input(net)
    }

    /// Makes a net that there is an output, after those before.
    pub fn output(&mut self, net: u32) -> Result<(), AllocError>
        requires { net < nets self.old }
        ensures made { OnOk result (self.new ≡ record self.old { outputs = self.old.outputs ++ net ∷ [] }) }
    {
        self.maker.output(net)
    }

    /// Adds a gate that drives the net `out`, after those before.
    pub fn gate(&mut self, out: u32, inputs: &[u32], table: u64) -> Result<(), Stop>
        requires few { length inputs.now ≤ 6 }
        requires out { out < nets self.old }
        requires inputs { All (λ n. n < nets self.old) inputs.now }
        requires table { table < 2 ^ (2 ^ length inputs.now) }
        ensures made { OnOk result ((self.new ≡ with_gate self.old (record { out = out; inputs = inputs.now; table = table })) × (HasNoMoreGates self.old → ⊥)) }
        ensures fault { IfErr result (IsFaultOfGate self.old) }
    {
        match self.maker.gate(out, inputs, table) {
            Ok(()) => {}
            Err(fault) => return Err(Stop::of_fault(fault)),
        }
        Ok(())
    }

    /// Adds a latch that drives the net `out`, after those before.
    pub fn latch(&mut self, next: u32, out: u32, start: Start) -> Result<(), Stop>
        requires next { next < nets self.old }
        requires out { out < nets self.old }
        ensures made { OnOk result ((self.new ≡ with_latch self.old (record { next = next; out = out; start = start })) × (HasNoMoreGates self.old → ⊥)) }
        ensures fault { IfErr result (IsFaultOfGate self.old) }
    {
        match self.maker.latch(next, out, start) {
            Ok(()) => {}
            Err(fault) => return Err(Stop::of_fault(fault)),
        }
        Ok(())
    }
}
