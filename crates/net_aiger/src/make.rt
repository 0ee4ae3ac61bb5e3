//! The net list of what was read.
ghost use Rattle.std.specs.Prelude.{◌≡◌, ◌<◌, ◌≤◌, ◌+◌, ◌^◌, [], Ok, None, true, false, All, IfOk, IfErr, OnOk, length};
ghost use Rattle.net_core.specs.Inside.{IsNetName};
ghost use Rattle.net_core.specs.NetList.{empty, nets, number_of};
ghost use Rattle.net_aiger.specs.Checks.{apart, own};
ghost use Rattle.net_aiger.specs.private.Run.{is_complete};
ghost use Rattle.std.specs.Fmt.{decimal};
ghost use Rattle.net_aiger.specs.Nets.{and_made, ands_made, fresh_latch, gated, labelled, latch_made, latched, latches_made, literal_gate, net_made, output_made, outputs_made, rest_made, variable_made, variables_made};
ghost use Rattle.net_aiger.specs.Reading.{driven, net_of, port_name};
ghost use Rattle.net_aiger.specs.private.Making.{Awaits, AwaitsPort, IsFaultOf};

use crate::gates::{and_table, is_plain, put_input, table_of};
use crate::reader::Reader;
use crate::reading::{AndLine, LatchLine};
use net_core::{Name, NetFault, NetMaker, Start};
use std::alloc::Global;

// Makes a net of a new name, and gives its number.
fn add_named(maker: &mut NetMaker, name: &Name) -> Result<u32, NetFault>
    requires name { IsNetName name.now }
    requires is_new { number_of maker.old name.now ≡ None }
    ensures number { IfOk result (λ n. n ≡ nets maker.old) }
    ensures made { OnOk result (labelled name.now true maker.old ≡ Ok maker.new) }
    ensures nets { OnOk result (nets maker.new ≡ nets maker.old + 1) }
    ensures fault { IfErr result (λ e. IsFaultOf (labelled name.now true maker.old) e) }
{
    let number = maker.net(name.as_str())?;
    Ok(number)
}

// Makes a net that is labelled by a number, and gives its own.
fn add_numbered(alloc: Global, maker: &mut NetMaker, label: u32) -> Result<u32, NetFault>
    ensures number { IfOk result (λ n. n ≡ nets maker.old) }
    ensures made { OnOk result (labelled (decimal label) false maker.old ≡ Ok maker.new) }
    ensures nets { OnOk result (nets maker.new ≡ nets maker.old + 1) }
    ensures fault { IfErr result (λ e. IsFaultOf (labelled (decimal label) false maker.old) e) }
{
    let text = format!(in alloc; "{label}")?;
    maker.fresh(text.as_str())
}

// Adds a gate.
fn add_gate(maker: &mut NetMaker, out: u32, inputs: &[u32], table: u64) -> Result<(), NetFault>
    requires few { length inputs.now ≤ 6 }
    requires out { out < nets maker.old }
    requires inputs { All (λ n. n < nets maker.old) inputs.now }
    requires table { table < 2 ^ (2 ^ length inputs.now) }
    ensures made { OnOk result (gated (record { out = out; inputs = inputs.now; table = table }) maker.old ≡ Ok maker.new) }
    ensures nets { OnOk result (nets maker.new ≡ nets maker.old) }
    ensures fault { IfErr result (λ e. IsFaultOf (gated (record { out = out; inputs = inputs.now; table = table }) maker.old) e) }
{
    maker.gate(out, inputs, table)
}

// Adds a latch.
fn add_latch(maker: &mut NetMaker, next: u32, out: u32, start: Start) -> Result<(), NetFault>
    requires next { next < nets maker.old }
    requires out { out < nets maker.old }
    ensures made { OnOk result (latched (record { next = next; out = out; start = start }) maker.old ≡ Ok maker.new) }
    ensures nets { OnOk result (nets maker.new ≡ nets maker.old) }
    ensures fault { IfErr result (λ e. IsFaultOf (latched (record { next = next; out = out; start = start }) maker.old) e) }
{
    maker.latch(next, out, start)
}

// Makes the net of a port, and gives its number.
fn make_port(reader: &Reader, maker: &mut NetMaker, port: u64) -> Result<u32, NetFault>
    requires is_new { number_of maker.old (port_name reader.now port) ≡ None }
    ensures number { IfOk result (λ n. n ≡ nets maker.old) }
    ensures made { OnOk result (labelled (port_name reader.now port) true maker.old ≡ Ok maker.new) }
    ensures nets { OnOk result (nets maker.new ≡ nets maker.old + 1) }
    ensures fault { IfErr result (λ e. IsFaultOf (labelled (port_name reader.now port) true maker.old) e) }
{
    let name = reader.port_name(port)?;
    let number = add_named(maker, &name)?;
    Ok(number)
}

// Makes the net of a variable.
fn make_variable(
    reader: &Reader,
    maker: &mut NetMaker,
    number: u32,
    literal: u32,
) -> Result<(), NetFault>
    requires place { number ≡ nets maker.old }
    requires is_new { number < driven reader.now.header → number_of maker.old (port_name reader.now number) ≡ None }
    ensures made { OnOk result (variable_made reader.now number literal maker.old ≡ Ok maker.new) }
    ensures nets { OnOk result (nets maker.new ≡ nets maker.old + 1) }
    ensures fault { IfErr result (λ e. IsFaultOf (variable_made reader.now number literal maker.old) e) }
{
    let header = reader.header();
    if number < header.inputs {
        make_port(reader, maker, u64::from(number))?;
        maker.input(number)?;
        Ok(())
    } else if u64::from(number) < header.driven() {
        make_port(reader, maker, u64::from(number))?;
        Ok(())
    } else {
        add_numbered(reader.alloc, maker, literal)?;
        Ok(())
    }
}

// Makes the nets of inputs, latches and ANDs.
fn make_variables(reader: &Reader, key: u64) -> Result<NetMaker, NetFault>
    requires apart { apart reader.now 0 [] reader.now.ports ≡ Ok tt }
    requires complete { is_complete reader.now ≡ true }
    ensures made { IfOk result (λ maker. variables_made reader.now 0 reader.now.defined empty ≡ Ok maker) }
    ensures long { IfOk result (λ maker. nets maker ≡ length reader.now.defined) }
    ensures awaits { IfOk result (λ maker. AwaitsPort reader.now (driven reader.now.header) maker) }
    ensures fault { IfErr result (λ e. IsFaultOf (variables_made reader.now 0 reader.now.defined empty) e) }
{
    let mut maker = NetMaker::keyed(reader.alloc, key);
    for number in 0..reader.defined() {
        make_variable(reader, &mut maker, number, reader.literal(number))?;
    }
    Ok(maker)
}

// Makes the gate of an AND. The list of inputs is used again.
fn make_and(
    reader: &Reader,
    inputs: &mut Vec<u32>,
    maker: &mut NetMaker,
    line: AndLine,
) -> Result<(), NetFault>
    requires { length reader.now.defined ≤ nets maker.old }
    ensures made { OnOk result (and_made reader.now (net_of reader.now line.literal) line maker.old ≡ Ok maker.new) }
    ensures long { OnOk result (length reader.now.defined ≤ nets maker.new) }
    ensures fault { IfErr result (λ e. IsFaultOf (and_made reader.now (net_of reader.now line.literal) line maker.old) e) }
{
    let Some(out) = reader.net(line.literal) else {
        return Ok(());
    };
    inputs.clear();
    put_input(reader, inputs, line.left)?;
    put_input(reader, inputs, line.right)?;
    add_gate(
        maker,
        out,
        inputs.as_slice(),
        and_table(line.left, line.right),
    )
}

// Makes the gates of ANDs.
fn make_ands(reader: &Reader, maker: &mut NetMaker, lines: &[AndLine]) -> Result<(), NetFault>
    requires { length reader.now.defined ≤ nets maker.old }
    ensures made { OnOk result (ands_made reader.now lines.now maker.old ≡ Ok maker.new) }
    ensures long { OnOk result (length reader.now.defined ≤ nets maker.new) }
    ensures fault { IfErr result (λ e. IsFaultOf (ands_made reader.now lines.now maker.old) e) }
{
    let mut inputs = Vec::new(reader.alloc);
    for line in lines {
        make_and(reader, &mut inputs, maker, *line)?;
    }
    Ok(())
}

// Makes the gate that gives a net the value of a literal.
fn make_literal(
    reader: &Reader,
    maker: &mut NetMaker,
    out: u32,
    literal: u32,
) -> Result<(), NetFault>
    requires out { out < nets maker.old }
    requires long { length reader.now.defined ≤ nets maker.old }
    ensures made { OnOk result (gated (literal_gate reader.now out literal) maker.old ≡ Ok maker.new) }
    ensures long { OnOk result (length reader.now.defined ≤ nets maker.new) }
    ensures fault { IfErr result (λ e. IsFaultOf (gated (literal_gate reader.now out literal) maker.old) e) }
{
    let mut inputs = Vec::new(reader.alloc);
    put_input(reader, &mut inputs, literal)?;
    add_gate(maker, out, inputs.as_slice(), table_of(literal))
}

// Makes a latch that reads a fresh net with its literal's value.
fn make_reading(
    reader: &Reader,
    maker: &mut NetMaker,
    out: u32,
    latch: LatchLine,
) -> Result<(), NetFault>
    requires out { out < nets maker.old }
    requires long { length reader.now.defined ≤ nets maker.old }
    ensures made { OnOk result (fresh_latch reader.now out latch maker.old ≡ Ok maker.new) }
    ensures long { OnOk result (length reader.now.defined ≤ nets maker.new) }
    ensures fault { IfErr result (λ e. IsFaultOf (fresh_latch reader.now out latch maker.old) e) }
{
    let next = add_numbered(reader.alloc, maker, latch.next)?;
    make_literal(reader, maker, next, latch.next)?;
    add_latch(maker, next, out, latch.start)
}

// Makes a latch.
fn make_latch(reader: &Reader, maker: &mut NetMaker, latch: LatchLine) -> Result<(), NetFault>
    requires { length reader.now.defined ≤ nets maker.old }
    ensures made { OnOk result (latch_made reader.now (net_of reader.now latch.literal) latch maker.old ≡ Ok maker.new) }
    ensures long { OnOk result (length reader.now.defined ≤ nets maker.new) }
    ensures fault { IfErr result (λ e. IsFaultOf (latch_made reader.now (net_of reader.now latch.literal) latch maker.old) e) }
{
    let Some(out) = reader.net(latch.literal) else {
        return Ok(());
    };
    if is_plain(latch.next) {
        add_latch(maker, reader.variable_net(latch.next), out, latch.start)
    } else {
        make_reading(reader, maker, out, latch)
    }
}

// Makes latches.
fn make_latches(reader: &Reader, maker: &mut NetMaker, lines: &[LatchLine]) -> Result<(), NetFault>
    requires { length reader.now.defined ≤ nets maker.old }
    ensures made { OnOk result (latches_made reader.now lines.now maker.old ≡ Ok maker.new) }
    ensures long { OnOk result (length reader.now.defined ≤ nets maker.new) }
    ensures fault { IfErr result (λ e. IsFaultOf (latches_made reader.now lines.now maker.old) e) }
{
    for line in lines {
        make_latch(reader, maker, *line)?;
    }
    Ok(())
}

// Makes an output that is no input and no latch.
fn make_port_net(
    reader: &Reader,
    maker: &mut NetMaker,
    port: u64,
    literal: u32,
) -> Result<(), NetFault>
    requires long { length reader.now.defined ≤ nets maker.old }
    requires is_new { number_of maker.old (port_name reader.now port) ≡ None }
    ensures made { OnOk result (output_made reader.now port literal None maker.old ≡ Ok maker.new) }
    ensures long { OnOk result (length reader.now.defined ≤ nets maker.new) }
    ensures fault { IfErr result (λ e. IsFaultOf (output_made reader.now port literal None maker.old) e) }
{
    let out = make_port(reader, maker, port)?;
    make_literal(reader, maker, out, literal)?;
    maker.output(out)?;
    Ok(())
}

// Makes an output.
fn make_output(
    reader: &Reader,
    maker: &mut NetMaker,
    port: u64,
    literal: u32,
) -> Result<(), NetFault>
    requires long { length reader.now.defined ≤ nets maker.old }
    requires is_new { own reader.now port literal ≡ None → number_of maker.old (port_name reader.now port) ≡ None }
    ensures made { OnOk result (output_made reader.now port literal (own reader.now port literal) maker.old ≡ Ok maker.new) }
    ensures long { OnOk result (length reader.now.defined ≤ nets maker.new) }
    ensures fault { IfErr result (λ e. IsFaultOf (output_made reader.now port literal (own reader.now port literal) maker.old) e) }
{
    match reader.own(port, literal)? {
        Some(net) => {
            maker.output(net)?;
            Ok(())
        }
        None => make_port_net(reader, maker, port, literal),
    }
}

// Makes the outputs of the ports from a number on.
fn make_outputs(
    reader: &Reader,
    maker: &mut NetMaker,
    first: u64,
    literals: &[u32],
) -> Result<(), NetFault>
    requires small { first < 2 ^ 33 }
    requires long { length reader.now.defined ≤ nets maker.old }
    requires awaits { Awaits reader.now first literals.now maker.old }
    ensures made { OnOk result (outputs_made reader.now first literals.now maker.old ≡ Ok maker.new) }
    ensures fault { IfErr result (λ e. IsFaultOf (outputs_made reader.now first literals.now maker.old) e) }
{
    let mut port = first;
    for literal in literals {
        make_output(reader, maker, port, *literal)?;
        port += 1;
    }
    Ok(())
}

// Makes the gates of the ANDs, the latches, and the outputs.
fn make_rest(reader: &Reader, maker: &mut NetMaker) -> Result<(), NetFault>
    requires complete { is_complete reader.now ≡ true }
    requires long { nets maker.old ≡ length reader.now.defined }
    requires awaits { AwaitsPort reader.now (driven reader.now.header) maker.old }
    ensures made { OnOk result (rest_made reader.now maker.old ≡ Ok maker.new) }
    ensures fault { IfErr result (λ e. IsFaultOf (rest_made reader.now maker.old) e) }
{
    make_ands(reader, maker, reader.ands())?;
    make_latches(reader, maker, reader.latches())?;
    let first = reader.header().driven();
    make_outputs(reader, maker, first, reader.outputs())
}

/// The net list of what was read: the nets of inputs, latches and ANDs, the gates of the ANDs, the latches, and the outputs.
pub(crate) fn make_net(reader: &Reader, key: u64) -> Result<NetMaker, NetFault>
    requires apart { apart reader.now 0 [] reader.now.ports ≡ Ok tt }
    requires complete { is_complete reader.now ≡ true }
    ensures made { IfOk result (λ maker. net_made reader.now ≡ Ok maker) }
    ensures fault { IfErr result (λ e. IsFaultOf (net_made reader.now) e) }
{
    let mut maker = match make_variables(reader, key) {
        Ok(maker) => maker,
        Err(fault) => return Err(fault),
    };
    match make_rest(reader, &mut maker) {
        Ok(()) => Ok(maker),
        Err(fault) => Err(fault),
    }
}
