//! Names of declarations.
ghost use Rattle.std.specs.Prelude.{◌≡◌, ◌⊎◌, ◌<◌, Ok, Err, IfOk, IfErr, length};
ghost use Rattle.net_verilog.specs.Several.{Several};
ghost use Rattle.net_verilog.specs.private.Decimals.{IsSmall};
ghost use Rattle.net_verilog.specs.private.Places.{left};
ghost use Rattle.verilog_reader.specs.Declares.{ReadsName};

use crate::declaring::declare;
use crate::ports::make_ports;
use crate::scope::Scope;
use net_core::NetMaker;
use net_verilog::{Cursor, Direction, Sign, VerilogFault, is_sign, read_identifier};
use std::alloc::Global;

/// Reads a name, declares it and makes its ports: the place after it.
pub fn read_name<'a>(
    alloc: Global,
    maker: &mut NetMaker,
    declared: &mut Scope,
    range: Option<(u32, u32)>,
    direction: Direction,
    place: &Cursor<'a>,
) -> Result<Cursor<'a>, VerilogFault>
    requires { IsSmall range }
    ensures made { IfOk result (λ after. ReadsName range direction (declared.old, maker.old) (left place.now) (Ok ((declared.new, maker.new), left after))) }
    ensures shorter { IfOk result (λ after. length after.rest.now < length place.now.rest.now) }
    ensures fault { IfErr result (λ e. (e ≡ VerilogFault.OutOfMemory) ⊎ ReadsName range direction (declared.old, maker.old) (left place.now) (Err e)) }
{
    let ((line, name), after) = match read_identifier(alloc, place) {
        Ok(found) => found,
        Err(fault) => return Err(fault),
    };
    match declare(alloc, declared, range, direction, line, name) {
        Ok(()) => (),
        Err(fault) => return Err(fault),
    }
    match make_ports(alloc, maker, range, direction, name) {
        Ok(()) => Ok(after),
        Err(fault) => Err(fault),
    }
}

/// Reads names of a declaration with commas between them: the place after the last.
pub fn read_names<'a>(
    alloc: Global,
    maker: &mut NetMaker,
    declared: &mut Scope,
    range: Option<(u32, u32)>,
    direction: Direction,
    place: &Cursor<'a>,
) -> Result<Cursor<'a>, VerilogFault>
    requires { IsSmall range }
    ensures made { IfOk result (λ after. Several (ReadsName range direction) (declared.old, maker.old) (left place.now) (Ok ((declared.new, maker.new), left after))) }
    ensures shorter { IfOk result (λ after. length after.rest.now < length place.now.rest.now) }
    ensures fault { IfErr result (λ e. (e ≡ VerilogFault.OutOfMemory) ⊎ Several (ReadsName range direction) (declared.old, maker.old) (left place.now) (Err e)) }
{
    let mut here = *place;
    loop {
        let next = match read_name(alloc, maker, declared, range, direction, &here) {
            Ok(next) => next,
            Err(fault) => return Err(fault),
        };
        let (token, after) = next.next();
        if !is_sign(Sign::Comma, token.kind) {
            return Ok(next);
        }
        here = after;
    }
}
