//! Gates of at most two inputs.
ghost use Rattle.std.specs.Prelude.{◌≡◌, ◌≤◌, ◌<◌, ◌^◌, [], ◌∷◌, length};

use std::marker::Model;

/// A gate of at most two inputs, which takes no memory. Contracts see it as a gate of a net list.
#[derive(Drop)]
pub struct PlannedGate {
    out: u32,
    inputs: [u32; 2],
    wide: usize,
    table: u64,
}

impl Model for PlannedGate {
    ghost use Rattle.std.specs.Prelude.{take, length, ◌≤◌, ◌<◌, ◌^◌};
    ghost use Rattle.net_core.specs.GateValue.{GateValue};

    ghost Value = { GateValue };

    ghost view = { λ g. record { out = g.out; inputs = take g.wide g.inputs; table = g.table } };

    ghost invariant = { λ g. (g.wide ≤ 2) × (g.table < 2 ^ (2 ^ g.wide)) };
}

impl PlannedGate {
    /// The constant 0.
    pub fn zero(out: u32) -> PlannedGate
        ensures { result ≡ record { out = out; inputs = []; table = 0 } }
    {
        PlannedGate {
            out,
            inputs: [0, 0],
            wide: 0,
            table: 0,
        }
    }

    /// The net `a`.
    pub fn buffer(out: u32, a: u32) -> PlannedGate
        ensures { result ≡ record { out = out; inputs = a ∷ []; table = 2 } }
    {
        PlannedGate {
            out,
            inputs: [a, 0],
            wide: 1,
            table: 0b10,
        }
    }

    /// Both nets.
    pub fn and(out: u32, a: u32, b: u32) -> PlannedGate
        ensures { result ≡ record { out = out; inputs = a ∷ b ∷ []; table = 8 } }
    {
        PlannedGate {
            out,
            inputs: [a, b],
            wide: 2,
            table: 0b1000,
        }
    }

    /// One net or the other, but not both.
    pub fn xor(out: u32, a: u32, b: u32) -> PlannedGate
        ensures { result ≡ record { out = out; inputs = a ∷ b ∷ []; table = 6 } }
    {
        PlannedGate {
            out,
            inputs: [a, b],
            wide: 2,
            table: 0b0110,
        }
    }

    /// The net that it drives.
    pub fn out(&self) -> u32
        ensures { result ≡ self.now.out }
    {
        self.out
    }

    /// The nets that it reads, at most two.
    pub fn inputs(&self) -> &[u32]
        ensures inputs { result.now ≡ self.now.inputs }
        ensures few { length result.now ≤ 2 }
    {
        &self.inputs[..self.wide]
    }

    /// Its table, by the values of the inputs.
    pub fn table(&self) -> u64
        ensures table { result ≡ self.now.table }
        ensures fits { result < 2 ^ (2 ^ length self.now.inputs) }
    {
        self.table
    }
}
