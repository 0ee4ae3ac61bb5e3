//! The bits of all nets, gate by gate, where the primary inputs and the outputs of latches have theirs.
ghost use Rattle.std.specs.Prelude.{◌≡◌, ◌==◌, ◌<◌, Some, length, slice_get, slice_set, IfOk};
ghost use Rattle.std.specs.Int.{bit_at};
ghost use Rattle.net_core.specs.NetList.{nets};
ghost use Rattle.net_core.specs.Order.{IsLevelOrder};
ghost use Rattle.net_core.specs.Sound.{IsSound};
ghost use Rattle.net_core.specs.Value.{index_of, HasSourceBits, IsConsistent};

use circuit_model::number_of_bits;
use net_core::{Gate, Net, order};
use std::alloc::{AllocError, Global};

// A bit of a table.
fn table_bit(table: u64, index: u64) -> bool
    requires { index < 64 }
    ensures { result ≡ (bit_at table index == 1) }
{
    (table >> index) & 1 == 1
}

// The value of a gate.
fn gate_value(bits: &[bool], gate: &Gate) -> bool
    ensures { result ≡ (bit_at gate.now.table (index_of bits.now gate.now.inputs) == 1) }
{
    table_bit(gate.table(), number_of_bits(bits, gate.inputs()))
}

// Gives a gate its value.
pub fn set_gate(net: &Net, position: u32, bits: &mut Vec<bool>)
    requires inside { position < length net.now.gates }
    requires long { length bits.old.items ≡ nets net.now }
    ensures sound { IsSound net.now }
    ensures set { (g : _) → slice_get net.now.gates position ≡ Some g → bits.new.items ≡ slice_set bits.old.items g.out (bit_at g.table (index_of bits.old.items g.inputs) == 1) }
{
    let gate = &net.gates()[position as usize];
    let value = gate_value(bits, gate);
    bits[gate.out() as usize] = value;
}

// Gives the gates their values, in this order.
fn set_gates(net: &Net, order: &[u32], bits: &mut Vec<bool>)
    requires order { IsLevelOrder net.now order.now }
    requires long { length bits.old.items ≡ nets net.now }
    ensures consistent { IsConsistent net.now bits.new.items }
    ensures sources { HasSourceBits net.now bits.old.items bits.new.items }
{
    for position in order {
        set_gate(net, *position, bits);
    }
}

/// The bits of all nets where the primary inputs and the outputs of latches have the bits that they have here.
pub fn settled(alloc: Global, net: &Net, bits: Vec<bool>) -> Result<Vec<bool>, AllocError>
    requires { length bits.items ≡ nets net.now }
    ensures consistent { IfOk result (λ v. IsConsistent net.now v.items) }
    ensures sources { IfOk result (λ v. HasSourceBits net.now bits.items v.items) }
{
    let order = order(alloc, net)?;
    let mut bits = bits;
    set_gates(net, &order, &mut bits);
    Ok(bits)
}
