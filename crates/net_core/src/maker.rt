//! Net lists in the making.
ghost use Rattle.std.specs.Prelude.{◌≡◌, ◌⊎◌, ◌<◌, ◌≤◌, ◌+◌, ◌^◌, ◌++◌, ◌∷◌, [], None, Some, IfOk, IfErr, IfSome, OnOk, OnErr, IsErrOf, All, length, slice_get, false};
ghost use Rattle.net_core.specs.NetList.{empty, nets, number_of, text_of, with_name, with_label, with_gate, with_latch};
ghost use Rattle.net_core.specs.Inside.{IsNetName, IsFull, HasNoMoreGates, IsInside};
ghost use Rattle.net_core.specs.Turned.{turned};

use crate::label::Label;
use crate::places::{Places, add_net};
use crate::{Gate, Latch, NetFault, Start};
use std::alloc::{AllocError, Global};
use std::marker::Model;

const MAX_NETS: usize = 1 << 20;

const MAX_GATES: usize = 1 << 20;

/// A net list in the making. Contracts see it as the net list that was made so far.
/// A call that is refused leaves it as it was.
pub struct NetMaker {
    alloc: Global,
    places: Places,
    labels: Vec<Label>,
    inputs: Vec<u32>,
    outputs: Vec<u32>,
    gates: Vec<Gate>,
    latches: Vec<Latch>,
}

// By hand, so that a caller that lets one go makes one call, and not one for each part.
impl Drop for NetMaker {
    fn drop(self) {
        let NetMaker {
            alloc: _,
            places,
            labels,
            inputs,
            outputs,
            gates,
            latches,
        } = self;
        drop(places);
        drop(labels);
        drop(inputs);
        drop(outputs);
        drop(gates);
        drop(latches);
    }
}

impl Model for NetMaker {
    ghost use Rattle.net_core.specs.NetList.{NetList};
    ghost use Rattle.net_core.specs.Inside.{IsInside};
    ghost use Rattle.net_core.specs.private.Placed.{IsPlaced};

    ghost Value = { NetList };

    ghost view = { λ m. record { labels = m.labels.items; inputs = m.inputs.items; outputs = m.outputs.items; gates = m.gates.items; latches = m.latches.items } };

    ghost invariant = { λ m. IsPlaced m.places m.labels.items
        × IsInside (record { labels = m.labels.items; inputs = m.inputs.items; outputs = m.outputs.items; gates = m.gates.items; latches = m.latches.items }) };
}

impl NetMaker {
    /// A net list with nothing in it. It takes no memory. Names that strangers choose want `keyed`.
    pub fn new(alloc: Global) -> NetMaker
        ensures { result ≡ empty }
    {
        NetMaker::keyed(alloc, 0)
    }

    /// A net list with nothing in it, which looks names up by a hash with this key. It takes no memory.
    /// Where the key is not known before the names are, nobody can choose names whose look-up takes long.
    pub fn keyed(alloc: Global, key: u64) -> NetMaker
        ensures { result ≡ empty }
    {
        NetMaker {
            alloc,
            places: Places::new(alloc, key),
            labels: Vec::new(alloc),
            inputs: Vec::new(alloc),
            outputs: Vec::new(alloc),
            gates: Vec::new(alloc),
            latches: Vec::new(alloc),
        }
    }

    /// The number of the net of this name, which is new if the name is.
    /// A new net that would be the 1,048,577th is `TooManyNets`.
    pub fn net(&mut self, name: &str) -> Result<u32, NetFault>
        requires { IsNetName name.now }
        ensures number { IfOk result (λ n. number_of self.new name.now ≡ Some n) }
        ensures within { IfOk result (λ n. n < nets self.new) }
        ensures grows { nets self.old ≤ nets self.new }
        ensures made { OnOk result (self.new ≡ with_name self.old name.now) }
        ensures room { OnOk result (number_of self.old name.now ≡ None → IsFull self.old → ⊥) }
        ensures full { IsErrOf result NetFault.TooManyNets → (number_of self.old name.now ≡ None) × IsFull self.old }
        ensures only { IfErr result (λ fault. (fault ≡ NetFault.TooManyNets) ⊎ (fault ≡ NetFault.OutOfMemory)) }
        ensures unchanged { OnErr result (self.new ≡ self.old) }
    {
        match self.places.place(&self.labels, name)? {
            Some(number) => Ok(number),
            None => {
                if self.labels.len() >= MAX_NETS {
                    return Err(NetFault::TooManyNets);
                }
                let number = add_net(self.alloc, &mut self.labels, name, true)?;
                Ok(number)
            }
        }
    }

    /// The number of a new net that no name finds; the label is for messages.
    /// A net that would be the 1,048,577th is `TooManyNets`.
    pub fn fresh(&mut self, label: &str) -> Result<u32, NetFault>
        ensures number { IfOk result (λ n. n ≡ nets self.old) }
        ensures made { OnOk result (self.new ≡ with_label self.old label.now false) }
        ensures room { OnOk result (IsFull self.old → ⊥) }
        ensures full { IsErrOf result NetFault.TooManyNets → IsFull self.old }
        ensures told { IsFull self.old → IsErrOf result NetFault.TooManyNets }
        ensures only { IfErr result (λ fault. (fault ≡ NetFault.TooManyNets) ⊎ (fault ≡ NetFault.OutOfMemory)) }
        ensures unchanged { OnErr result (self.new ≡ self.old) }
    {
        if self.labels.len() >= MAX_NETS {
            return Err(NetFault::TooManyNets);
        }
        let number = add_net(self.alloc, &mut self.labels, label, false)?;
        Ok(number)
    }

    /// Makes a net that there is a primary input, after those before.
    pub fn input(&mut self, net: u32) -> Result<(), AllocError>
        requires { net < nets self.old }
        ensures made { OnOk result (self.new ≡ record self.old { inputs = self.old.inputs ++ net ∷ [] }) }
        ensures unchanged { OnErr result (self.new ≡ self.old) }
    {
        self.inputs.push(net)?;
        Ok(())
    }

    /// Makes a net that there is an output, after those before.
    pub fn output(&mut self, net: u32) -> Result<(), AllocError>
        requires { net < nets self.old }
        ensures made { OnOk result (self.new ≡ record self.old { outputs = self.old.outputs ++ net ∷ [] }) }
        ensures unchanged { OnErr result (self.new ≡ self.old) }
    {
        self.outputs.push(net)?;
        Ok(())
    }

    /// Adds a gate that drives the net `out`, after those before.
    /// A gate or latch that would be the 1,048,577th is `TooManyGates`.
    pub fn gate(&mut self, out: u32, inputs: &[u32], table: u64) -> Result<(), NetFault>
        requires few { length inputs.now ≤ 6 }
        requires out { out < nets self.old }
        requires inputs { All (λ n. n < nets self.old) inputs.now }
        requires table { table < 2 ^ (2 ^ length inputs.now) }
        ensures made { OnOk result (self.new ≡ with_gate self.old (record { out = out; inputs = inputs.now; table = table })) }
        ensures room { OnOk result (HasNoMoreGates self.old → ⊥) }
        ensures full { IsErrOf result NetFault.TooManyGates → HasNoMoreGates self.old }
        ensures told { HasNoMoreGates self.old → IsErrOf result NetFault.TooManyGates }
        ensures only { IfErr result (λ fault. (fault ≡ NetFault.TooManyGates) ⊎ (fault ≡ NetFault.OutOfMemory)) }
        ensures unchanged { OnErr result (self.new ≡ self.old) }
    {
        if self.gates.len() + self.latches.len() >= MAX_GATES {
            return Err(NetFault::TooManyGates);
        }
        let gate = Gate::new(self.alloc, out, inputs, table)?;
        self.gates.push(gate)?;
        Ok(())
    }

    /// Adds a latch that drives the net `out`, after those before.
    /// A gate or latch that would be the 1,048,577th is `TooManyGates`.
    pub fn latch(&mut self, next: u32, out: u32, start: Start) -> Result<(), NetFault>
        requires next { next < nets self.old }
        requires out { out < nets self.old }
        ensures made { OnOk result (self.new ≡ with_latch self.old (record { next = next; out = out; start = start })) }
        ensures room { OnOk result (HasNoMoreGates self.old → ⊥) }
        ensures full { IsErrOf result NetFault.TooManyGates → HasNoMoreGates self.old }
        ensures told { HasNoMoreGates self.old → IsErrOf result NetFault.TooManyGates }
        ensures only { IfErr result (λ fault. (fault ≡ NetFault.TooManyGates) ⊎ (fault ≡ NetFault.OutOfMemory)) }
        ensures unchanged { OnErr result (self.new ≡ self.old) }
    {
        let latch = Latch { next, out, start };
        if self.gates.len() + self.latches.len() < MAX_GATES {
            self.latches.push(latch)?;
            Ok(())
        } else {
            Err(NetFault::TooManyGates)
        }
    }
}

// What the finished net passes on.
impl NetMaker {
    pub(crate) fn alloc(&self) -> Global {
        self.alloc
    }

    // The number of the net of this name.
    pub(crate) fn find(&self, name: &str) -> Option<u32>
        ensures number { result ≡ number_of self.now name.now }
        ensures within { IfSome result (λ n. n < nets self.now) }
    {
        self.places.find(&self.labels, name)
    }

    // How many nets there are.
    pub(crate) fn nets(&self) -> usize
        ensures count { result ≡ nets self.now }
        ensures inside { IsInside self.now }
    {
        self.labels.len()
    }

    // What the net is called in messages.
    pub(crate) fn label(&self, net: u32) -> &str
        requires { net < nets self.now }
        ensures { result.now ≡ text_of self.now net }
    {
        self.labels[net as usize].as_str()
    }

    pub(crate) fn inputs(&self) -> &[u32]
        ensures inputs { result.now ≡ self.now.inputs }
        ensures inside { IsInside self.now }
    {
        self.inputs.as_slice()
    }

    pub(crate) fn outputs(&self) -> &[u32]
        ensures outputs { result.now ≡ self.now.outputs }
        ensures inside { IsInside self.now }
    {
        self.outputs.as_slice()
    }

    pub(crate) fn gates(&self) -> &[Gate]
        ensures gates { result.now ≡ self.now.gates }
        ensures inside { IsInside self.now }
    {
        self.gates.as_slice()
    }

    pub(crate) fn latches(&self) -> &[Latch]
        ensures latches { result.now ≡ self.now.latches }
        ensures inside { IsInside self.now }
    {
        self.latches.as_slice()
    }

    // Turns over one bit of the table of a gate.
    pub(crate) fn turn(&mut self, position: u32, index: u32)
        requires { (g : _) × (slice_get self.old.gates position ≡ Some g) × (index < 2 ^ length g.inputs) }
        ensures { self.new ≡ turned self.old position index }
    {
        self.gates[position as usize].turn(index);
    }
}
