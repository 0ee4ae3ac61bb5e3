//! The values of nets.
ghost use Rattle.std.specs.Prelude.{◌≡◌, ◌<◌, ◌≤◌, ◌+◌, ◌^◌, [], Some, length, slice_get, slice_set, IfOk, ◌==◌, if◌then◌else◌};
ghost use Rattle.std.specs.Int.{bit_at};
ghost use Rattle.net_core.specs.NetList.{nets};
ghost use Rattle.net_core.specs.Inside.{IsInside};
ghost use Rattle.net_core.specs.Sound.{HasOneDriverEach};
ghost use Rattle.net_core.specs.Levelled.{AllHaveLevels};
ghost use Rattle.net_core.specs.Order.{IsOrder};
ghost use Rattle.net_core.specs.Value.{bit_of, index_of, IsConsistent, HasValues};

use crate::level_order::order_by;
use crate::{Gate, Net, NetMaker};
use std::alloc::{AllocError, Global};

// The bit of a net as a number.
fn bit(bits: &[bool], net: u32) -> u32
    ensures { result ≡ (if bit_of bits.now net then 1 else 0) }
{
    match bits.get(net as usize) {
        Some(true) => 1,
        _ => 0,
    }
}

// The index of the bits of nets in a table.
fn index(bits: &[bool], nets: &[u32]) -> u32
    requires { length nets.now ≤ 6 }
    ensures index { result ≡ index_of bits.now nets.now }
    ensures small { result < 2 ^ length nets.now }
{
    match nets {
        [] => 0,
        [first, rest @ ..] => bit(bits, *first) + 2 * index(bits, rest),
    }
}

// A bit of a table.
fn table_bit(table: u64, index: u32) -> bool
    requires { index < 64 }
    ensures { result ≡ (bit_at table index == 1) }
{
    (table >> index) & 1 == 1
}

// The value of a gate.
fn gate_value(bits: &[bool], gate: &Gate) -> bool
    ensures { result ≡ (bit_at gate.now.table (index_of bits.now gate.now.inputs) == 1) }
{
    table_bit(gate.table(), index(bits, gate.inputs()))
}

// The values of the primary inputs.
fn input_bits(alloc: Global, net: &NetMaker, values: &[bool]) -> Result<Vec<bool>, AllocError>
    requires one { HasOneDriverEach net.now }
    requires values { length values.now ≡ length net.now.inputs }
    ensures long { IfOk result (λ v. length v.items ≡ nets net.now) }
    ensures values { IfOk result (λ v. HasValues net.now values.now v.items) }
    ensures inside { IsInside net.now }
{
    let mut bits = vec![in alloc; false; net.nets()]?;
    for (i, input) in net.inputs().iter().enumerate() {
        bits[*input as usize] = values[i];
    }
    Ok(bits)
}

// Gives a gate its value.
fn set_gate(net: &NetMaker, position: u32, bits: &mut Vec<bool>)
    requires inside { position < length net.now.gates }
    requires long { length bits.old.items ≡ nets net.now }
    ensures { (g : _) → slice_get net.now.gates position ≡ Some g → bits.new.items ≡ slice_set bits.old.items g.out (bit_at g.table (index_of bits.old.items g.inputs) == 1) }
{
    let gate = &net.gates()[position as usize];
    let value = gate_value(bits, gate);
    bits[gate.out() as usize] = value;
}

// The values of all nets, gate by gate in the order.
fn values_by(
    alloc: Global,
    net: &NetMaker,
    order: &[u32],
    values: &[bool],
) -> Result<Vec<bool>, AllocError>
    requires one { HasOneDriverEach net.now }
    requires order { (levels : _) × AllHaveLevels net.now levels × IsOrder net.now levels order.now }
    requires values { length values.now ≡ length net.now.inputs }
    ensures { IfOk result (λ v. IsConsistent net.now v.items × HasValues net.now values.now v.items) }
{
    let mut bits = input_bits(alloc, net, values)?;
    for position in order {
        set_gate(net, *position, &mut bits);
    }
    Ok(bits)
}

/// The one list of bits, one for each net, in which the primary inputs have these values, in the order of `inputs`,
/// and each gate's output is its table's bit. The net has no latches.
/// It answers nothing but the list, or runs out of memory.
pub fn eval(alloc: Global, net: &Net, values: &[bool]) -> Result<Vec<bool>, AllocError>
    requires latches { net.now.latches ≡ [] }
    requires values { length values.now ≡ length net.now.inputs }
    ensures consistent { IfOk result (λ v. IsConsistent net.now v.items) }
    ensures values { IfOk result (λ v. HasValues net.now values.now v.items) }
    ensures only { IfOk result (λ v. (w : _) → IsConsistent net.now w → HasValues net.now values.now w → v.items ≡ w) }
{
    let made = net.made();
    let order = order_by(alloc, made, net.levels())?;
    values_by(alloc, made, &order, values)
}
