//! The text of a net.
ghost use Rattle.std.specs.Prelude.{◌≡◌, ◌++◌, ◌∷◌, [], OnOk, IfOk, flat_map, map};
ghost use Rattle.net_core.specs.Inside.{GateIsInside, LatchIsInside};
ghost use Rattle.net_core.specs.NetList.{nets};
ghost use Rattle.net_write.specs.Plain.{HasPlainNames};
ghost use Rattle.net_write.specs.Written.{gate_statements, inputs_with, latch_statement, names_of, start_token, text_with, written};

use crate::lines::{add_field, add_fields, add_names};
use crate::rows::add_rows;
use net_core::{Gate, Latch, Net, Start};
use std::alloc::{AllocError, Global};

// Appends the line of the inputs, if there are any.
fn add_inputs(out: &mut Vec<u8>, net: &Net) -> Result<(), AllocError>
    ensures { OnOk result (out.new.items ≡ out.old.items ++ text_with (inputs_with (names_of net.now net.now.inputs))) }
{
    if net.inputs().is_empty() {
        return Ok(());
    }
    add_names(out, b".inputs", net, net.inputs())?;
    Ok(())
}

fn start_byte(start: Start) -> u8
    ensures { result ∷ [] ≡ start_token start }
{
    match start {
        Start::Zero => b'0',
        Start::One => b'1',
        Start::Unknown => b'3',
    }
}

// Appends the line of a latch.
fn add_latch(out: &mut Vec<u8>, net: &Net, latch: &Latch) -> Result<(), AllocError>
    requires { LatchIsInside (nets net.now) latch.now }
    ensures { OnOk result (out.new.items ≡ out.old.items ++ text_with (latch_statement net.now latch.now ∷ [])) }
{
    out.extend_from_slice(b".latch")?;
    add_field(out, net, latch.next)?;
    add_field(out, net, latch.out)?;
    out.push(b' ')?;
    out.push(start_byte(latch.start))?;
    out.push(b'\n')?;
    Ok(())
}

// Appends the lines of the latches.
fn add_latches(out: &mut Vec<u8>, net: &Net) -> Result<(), AllocError>
    ensures { OnOk result (out.new.items ≡ out.old.items ++ text_with (map (latch_statement net.now) net.now.latches)) }
{
    for latch in net.latches() {
        add_latch(out, net, latch)?;
    }
    Ok(())
}

// Appends the lines of a gate: its cover and the rows.
fn add_gate(out: &mut Vec<u8>, net: &Net, gate: &Gate) -> Result<(), AllocError>
    requires { GateIsInside (nets net.now) gate.now }
    ensures { OnOk result (out.new.items ≡ out.old.items ++ text_with (gate_statements net.now gate.now)) }
{
    out.extend_from_slice(b".names")?;
    add_fields(out, net, gate.inputs())?;
    add_field(out, net, gate.out())?;
    out.push(b'\n')?;
    add_rows(out, gate.inputs().len() as u32, gate.table())?;
    Ok(())
}

// Appends the lines of the gates.
fn add_gates(out: &mut Vec<u8>, net: &Net) -> Result<(), AllocError>
    ensures { OnOk result (out.new.items ≡ out.old.items ++ text_with (flat_map (gate_statements net.now) net.now.gates)) }
{
    for gate in net.gates() {
        add_gate(out, net, gate)?;
    }
    Ok(())
}

/// The text of a net in BLIF: a model `make` with the inputs, if there are any, the outputs, a line for each latch with
/// its start 0, 1 or 3, which says that it is not known, and for each gate its nets and a row with output 1 for each
/// index whose bit of the table is 1, by rising index. It answers nothing but the text, or runs out of memory.
/// Names are plain, as `plain_names` says: so the text is read back.
pub fn write_blif(alloc: Global, net: &Net) -> Result<Vec<u8>, AllocError>
    requires { HasPlainNames net.now }
    ensures { IfOk result (λ text. text.items ≡ written net.now) }
{
    let mut out = Vec::new(alloc);
    out.extend_from_slice(b".model make\n")?;
    add_inputs(&mut out, net)?;
    add_names(&mut out, b".outputs", net, net.outputs())?;
    add_latches(&mut out, net)?;
    add_gates(&mut out, net)?;
    out.extend_from_slice(b".end\n")?;
    Ok(out)
}
