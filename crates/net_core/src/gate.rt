//! Gates.
ghost use Rattle.std.specs.Prelude.{◌≡◌, ◌<◌, ◌≤◌, ◌^◌, length, IfOk};
ghost use Rattle.net_core.specs.Turned.{turned_gate};

use smallvec::SmallVec;
use std::alloc::{AllocError, Global};
use std::marker::Model;

/// A gate: an output, at most 6 inputs and a table, which has a bit for each choice of the inputs' values.
/// Where input i has the value `v_i`, the output is bit `sum of v_i * 2^i` of the table.
/// One net may stand twice among the inputs.
pub struct Gate {
    out: u32,
    inputs: SmallVec<u32, 6>,
    table: u64,
}

// By hand, so that a caller that lets one go makes one call, and not one for each part.
impl Drop for Gate {
    fn drop(self) {
        let Gate {
            out: _,
            inputs,
            table: _,
        } = self;
        drop(inputs);
    }
}

impl Model for Gate {
    ghost use Rattle.std.specs.Prelude.{length, ◌≤◌, ◌<◌, ◌^◌};
    ghost use Rattle.net_core.specs.GateValue.{GateValue};

    ghost Value = { GateValue };

    ghost view = { λ g. record { out = g.out; inputs = g.inputs.items; table = g.table } };

    ghost invariant = { λ g. (length g.inputs.items ≤ 6) × (g.table < 2 ^ (2 ^ length g.inputs.items)) };
}

impl Gate {
    // A gate of these nets and this table.
    pub(crate) fn new(
        alloc: Global,
        out: u32,
        inputs: &[u32],
        table: u64,
    ) -> Result<Gate, AllocError>
        requires few { length inputs.now ≤ 6 }
        requires table { table < 2 ^ (2 ^ length inputs.now) }
        ensures { IfOk result (λ g. g ≡ record { out = out; inputs = inputs.now; table = table }) }
    {
        Ok(Gate {
            out,
            inputs: SmallVec::from_slice(alloc, inputs)?,
            table,
        })
    }

    /// The net that the gate drives.
    pub fn out(&self) -> u32
        ensures { result ≡ self.now.out }
    {
        self.out
    }

    /// The nets that the gate reads, the lowest bit of the table's index first.
    pub fn inputs(&self) -> &[u32]
        ensures inputs { result.now ≡ self.now.inputs }
        ensures few { length self.now.inputs ≤ 6 }
    {
        self.inputs.as_slice()
    }

    /// The table, which has a bit for each choice of the inputs' values.
    pub fn table(&self) -> u64
        ensures table { result ≡ self.now.table }
        ensures fits { result < 2 ^ (2 ^ length self.now.inputs) }
    {
        self.table
    }

    // Turns over one bit of the table.
    pub(crate) fn turn(&mut self, index: u32)
        requires { index < 2 ^ length self.old.inputs }
        ensures { self.new ≡ turned_gate self.old index }
    {
        let bit = table_bit(self.inputs(), index);
        self.table ^= bit;
    }
}

// The bit of this index in the table of a gate with these inputs.
fn table_bit(inputs: &[u32], index: u32) -> u64
    requires few { length inputs.now ≤ 6 }
    requires index { index < 2 ^ length inputs.now }
    ensures { result ≡ 2 ^ index }
{
    1 << index
}
