//! Instances of gates.
ghost use Rattle.std.specs.Prelude.{◌≡◌, ◌⊎◌, ◌<◌, ◌≤◌, All, Ok, Err, IfOk, IfErr, OnOk, length};
ghost use Rattle.net_core.specs.NetList.{nets};
ghost use Rattle.net_verilog.specs.Instances.{ReadsInstance, after_name, placed};
ghost use Rattle.net_verilog.specs.private.Nets.{BeginsInstance, BreaksInstance, EndsInstance};
ghost use Rattle.net_verilog.specs.private.Places.{left};

use crate::gate_kind::{fits, gate_table};
use crate::gates::add;
use crate::inputs::read_inputs;
use crate::parts::{read_identifier, take};
use crate::target::name_of;
use crate::target_net::read_net;
use crate::{Cursor, GateKind, Sign, Table, VerilogFault};
use net_core::NetMaker;
use std::alloc::Global;

// Reads the name of an instance, where one stands.
fn skip_name<'a>(alloc: Global, place: &Cursor<'a>) -> Result<Cursor<'a>, VerilogFault>
    ensures found { IfOk result (λ after. after_name (left place.now) ≡ Ok (left after)) }
    ensures shorter { IfOk result (λ after. length after.rest.now ≤ length place.now.rest.now) }
    ensures fault { IfErr result (λ e. (e ≡ VerilogFault.OutOfMemory) ⊎ (after_name (left place.now) ≡ Err e)) }
{
    let (token, _) = place.next();
    match name_of(&token) {
        None => Ok(*place),
        Some(_) => match read_identifier(alloc, place) {
            Ok((_, after)) => Ok(after),
            Err(fault) => Err(fault),
        },
    }
}

// Adds the gate of an instance.
fn place_gate(
    maker: &mut NetMaker,
    kind: GateKind,
    out: u32,
    inputs: &[u32],
    line: u32,
) -> Result<(), VerilogFault>
    requires few { length inputs.now < 4294967296 }
    requires out { out < nets maker.old }
    requires inputs { All (λ n. n < nets maker.old) inputs.now }
    ensures made { OnOk result (placed kind maker.old out inputs.now line ≡ Ok maker.new) }
    ensures fault { IfErr result (λ e. (e ≡ VerilogFault.OutOfMemory) ⊎ (placed kind maker.old out inputs.now line ≡ Err e)) }
{
    if !fits(kind, inputs.len()) {
        return Err(VerilogFault::Arity {
            line,
            inputs: inputs.len() as u32,
        });
    }
    match add(maker, out, inputs, gate_table(kind, inputs.len())) {
        Ok(()) => Ok(()),
        Err(fault) => Err(fault),
    }
}

// Reads what stands before the inputs of an instance: the number of the target's net, and the place of the first input.
fn begin_instance<'a>(
    alloc: Global,
    maker: &mut NetMaker,
    declared: &Table,
    place: &Cursor<'a>,
) -> Result<(u32, Cursor<'a>), VerilogFault>
    ensures made { IfOk result (λ r. BeginsInstance declared.now maker.old (left place.now) maker.new r.0 (left r.1)) }
    ensures within { IfOk result (λ r. r.0 < nets maker.new) }
    ensures shorter { IfOk result (λ r. length r.1.rest.now < length place.now.rest.now) }
    ensures fault { IfErr result (λ e. (e ≡ VerilogFault.OutOfMemory) ⊎ BreaksInstance declared.now maker.old (left place.now) e) }
{
    let named = match skip_name(alloc, place) {
        Ok(named) => named,
        Err(fault) => return Err(fault),
    };
    let (_, target) = match take(alloc, Sign::Open, &named) {
        Ok(found) => found,
        Err(fault) => return Err(fault),
    };
    let (out, comma) = match read_net(alloc, maker, declared, &target) {
        Ok(found) => found,
        Err(fault) => return Err(fault),
    };
    match take(alloc, Sign::Comma, &comma) {
        Ok((_, inputs)) => Ok((out, inputs)),
        Err(fault) => Err(fault),
    }
}

// Reads the `)` of an instance and adds its gate: the place after it.
fn end_instance<'a>(
    alloc: Global,
    maker: &mut NetMaker,
    kind: GateKind,
    out: u32,
    inputs: &[u32],
    place: &Cursor<'a>,
) -> Result<Cursor<'a>, VerilogFault>
    requires few { length inputs.now < 4294967296 }
    requires out { out < nets maker.old }
    requires inputs { All (λ n. n < nets maker.old) inputs.now }
    ensures made { IfOk result (λ after. EndsInstance kind maker.old out inputs.now (left place.now) (Ok (maker.new, left after))) }
    ensures shorter { IfOk result (λ after. length after.rest.now < length place.now.rest.now) }
    ensures fault { IfErr result (λ e. (e ≡ VerilogFault.OutOfMemory) ⊎ EndsInstance kind maker.old out inputs.now (left place.now) (Err e)) }
{
    let (line, after) = match take(alloc, Sign::Close, place) {
        Ok(found) => found,
        Err(fault) => return Err(fault),
    };
    match place_gate(maker, kind, out, inputs, line) {
        Ok(()) => Ok(after),
        Err(fault) => Err(fault),
    }
}

/// Reads an instance of a gate and adds the gate: the place after it. The nets of its inputs are made after that of its target.
pub fn read_instance<'a>(
    alloc: Global,
    maker: &mut NetMaker,
    declared: &Table,
    kind: GateKind,
    place: &Cursor<'a>,
) -> Result<Cursor<'a>, VerilogFault>
    ensures made { IfOk result (λ after. ReadsInstance declared.now kind maker.old (left place.now) (Ok (maker.new, left after))) }
    ensures shorter { IfOk result (λ after. length after.rest.now < length place.now.rest.now) }
    ensures fault { IfErr result (λ e. (e ≡ VerilogFault.OutOfMemory) ⊎ ReadsInstance declared.now kind maker.old (left place.now) (Err e)) }
{
    let (out, first) = match begin_instance(alloc, maker, declared, place) {
        Ok(found) => found,
        Err(fault) => return Err(fault),
    };
    let (inputs, close) = match read_inputs(alloc, maker, declared, &first) {
        Ok(found) => found,
        Err(fault) => return Err(fault),
    };
    end_instance(alloc, maker, kind, out, inputs.as_slice(), &close)
}
