//! The list of ports of a module.
ghost use Rattle.std.specs.Prelude.{◌≡◌, ◌⊎◌, ◌<◌, ◌≤◌, Ok, Err, None, IfOk, IfErr, length};
ghost use Rattle.net_verilog.specs.Several.{Several};
ghost use Rattle.net_verilog.specs.declared.declared.Direction.TheVariants.{Wire};
ghost use Rattle.net_verilog.specs.private.Decimals.{IsSmall};
ghost use Rattle.net_verilog.specs.private.Places.{left};
ghost use Rattle.verilog_reader.specs.Modules.{PortList, PortsAfter, ReadsPort, head_of};
ghost use Rattle.verilog_reader.specs.private.Ports.{NamesFrom};

use crate::names::read_name;
use crate::plain_ports::read_plain_names;
use crate::ranges::read_wire_range;
use crate::scope::Scope;
use crate::starts::{item_start, port_direction};
use net_core::NetMaker;
use net_verilog::{Cursor, Direction, Sign, VerilogFault, is_sign, take};
use std::alloc::Global;

// The direction and the range of names of a list of ports.
#[derive(Clone, Copy)]
struct Head {
    direction: Direction,
    range: Option<(u32, u32)>,
}

// Reads the direction and the range of a port, where they stand; else it has those of the port before.
fn read_head<'a>(
    alloc: Global,
    before: Head,
    place: &Cursor<'a>,
) -> Result<(Head, Cursor<'a>), VerilogFault>
    requires { IsSmall before.range }
    ensures found { IfOk result (λ r. head_of (before.direction, before.range) (left place.now) ≡ Ok ((r.0.direction, r.0.range), left r.1)) }
    ensures small { IfOk result (λ r. IsSmall r.0.range) }
    ensures shorter { IfOk result (λ r. length r.1.rest.now ≤ length place.now.rest.now) }
    ensures fault { IfErr result (λ e. (e ≡ VerilogFault.OutOfMemory) ⊎ (head_of (before.direction, before.range) (left place.now) ≡ Err e)) }
{
    let (token, after) = place.next();
    match port_direction(item_start(&token)) {
        None => Ok((before, *place)),
        Some(direction) => match read_wire_range(alloc, &after) {
            Ok((range, names)) => Ok((Head { direction, range }, names)),
            Err(fault) => Err(fault),
        },
    }
}

// Reads a port of a list of declarations.
fn read_port<'a>(
    alloc: Global,
    maker: &mut NetMaker,
    declared: &mut Scope,
    before: Head,
    place: &Cursor<'a>,
) -> Result<(Head, Cursor<'a>), VerilogFault>
    requires { IsSmall before.range }
    ensures made { IfOk result (λ r. ReadsPort ((before.direction, before.range), (declared.old, maker.old)) (left place.now) (Ok (((r.0.direction, r.0.range), (declared.new, maker.new)), left r.1))) }
    ensures small { IfOk result (λ r. IsSmall r.0.range) }
    ensures shorter { IfOk result (λ r. length r.1.rest.now < length place.now.rest.now) }
    ensures fault { IfErr result (λ e. (e ≡ VerilogFault.OutOfMemory) ⊎ ReadsPort ((before.direction, before.range), (declared.old, maker.old)) (left place.now) (Err e)) }
{
    let (head, name) = match read_head(alloc, before, place) {
        Ok(found) => found,
        Err(fault) => return Err(fault),
    };
    match read_name(alloc, maker, declared, head.range, head.direction, &name) {
        Ok(after) => Ok((head, after)),
        Err(fault) => Err(fault),
    }
}

// Reads ports of a list of declarations: the place after the last.
fn read_ports<'a>(
    alloc: Global,
    maker: &mut NetMaker,
    declared: &mut Scope,
    place: &Cursor<'a>,
) -> Result<(Head, Cursor<'a>), VerilogFault>
    ensures made { IfOk result (λ r. Several ReadsPort ((Wire, None), (declared.old, maker.old)) (left place.now) (Ok (((r.0.direction, r.0.range), (declared.new, maker.new)), left r.1))) }
    ensures shorter { IfOk result (λ r. length r.1.rest.now < length place.now.rest.now) }
    ensures fault { IfErr result (λ e. (e ≡ VerilogFault.OutOfMemory) ⊎ Several ReadsPort ((Wire, None), (declared.old, maker.old)) (left place.now) (Err e)) }
{
    let mut here = *place;
    let mut head = Head {
        direction: Direction::Wire,
        range: None,
    };
    loop {
        let (more, next) = match read_port(alloc, maker, declared, head, &here) {
            Ok(found) => found,
            Err(fault) => return Err(fault),
        };
        let (token, after) = next.next();
        if !is_sign(Sign::Comma, token.kind) {
            return Ok((more, next));
        }
        head = more;
        here = after;
    }
}

// Reads the ports that begin with a token: the place after the last.
fn read_ports_from<'a>(
    alloc: Global,
    maker: &mut NetMaker,
    declared: &mut Scope,
    start: Option<Direction>,
    place: &Cursor<'a>,
) -> Result<Cursor<'a>, VerilogFault>
    ensures made { IfOk result (λ right. NamesFrom start (declared.old, maker.old) (left place.now) (Ok ((declared.new, maker.new), left right))) }
    ensures fault { IfErr result (λ e. (e ≡ VerilogFault.OutOfMemory) ⊎ NamesFrom start (declared.old, maker.old) (left place.now) (Err e)) }
{
    match start {
        None => read_plain_names(alloc, place),
        Some(_) => match read_ports(alloc, maker, declared, place) {
            Ok((_, right)) => Ok(right),
            Err(fault) => Err(fault),
        },
    }
}

// Reads what follows the `(` of a list of ports, with its `)`.
fn read_ports_after<'a>(
    alloc: Global,
    maker: &mut NetMaker,
    declared: &mut Scope,
    place: &Cursor<'a>,
) -> Result<Cursor<'a>, VerilogFault>
    ensures made { IfOk result (λ after. PortsAfter (declared.old, maker.old) (left place.now) (Ok ((declared.new, maker.new), left after))) }
    ensures fault { IfErr result (λ e. (e ≡ VerilogFault.OutOfMemory) ⊎ PortsAfter (declared.old, maker.old) (left place.now) (Err e)) }
{
    let (token, after) = place.next();
    if is_sign(Sign::Close, token.kind) {
        return Ok(after);
    }
    let start = port_direction(item_start(&token));
    let right = match read_ports_from(alloc, maker, declared, start, place) {
        Ok(right) => right,
        Err(fault) => return Err(fault),
    };
    match take(alloc, Sign::Close, &right) {
        Ok((_, after)) => Ok(after),
        Err(fault) => Err(fault),
    }
}

/// Reads a list of ports, where one stands: the place after it.
pub fn read_port_list<'a>(
    alloc: Global,
    maker: &mut NetMaker,
    declared: &mut Scope,
    place: &Cursor<'a>,
) -> Result<Cursor<'a>, VerilogFault>
    ensures made { IfOk result (λ after. PortList (declared.old, maker.old) (left place.now) (Ok ((declared.new, maker.new), left after))) }
    ensures fault { IfErr result (λ e. (e ≡ VerilogFault.OutOfMemory) ⊎ PortList (declared.old, maker.old) (left place.now) (Err e)) }
{
    let (token, after) = place.next();
    if !is_sign(Sign::Open, token.kind) {
        return Ok(*place);
    }
    match read_ports_after(alloc, maker, declared, &after) {
        Ok(after) => Ok(after),
        Err(fault) => Err(fault),
    }
}
