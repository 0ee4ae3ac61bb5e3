//! Statements of assignments.
ghost use Rattle.std.specs.Prelude.{◌≡◌, ◌⊎◌, ◌<◌, Ok, Err, IfOk, IfErr, length};
ghost use Rattle.net_verilog.specs.Assigns.{Assigns};
ghost use Rattle.net_verilog.specs.Several.{Several};
ghost use Rattle.net_verilog.specs.private.Places.{left};

use crate::assign::read_assignment;
use crate::parts::is_sign;
use crate::{Cursor, Sign, Table, VerilogFault};
use net_core::NetMaker;
use std::alloc::Global;

/// Reads assignments with commas between them: the place after the last.
pub fn read_assignments<'a>(
    alloc: Global,
    maker: &mut NetMaker,
    declared: &Table,
    place: &Cursor<'a>,
) -> Result<Cursor<'a>, VerilogFault>
    ensures made { IfOk result (λ after. Several (Assigns declared.now) maker.old (left place.now) (Ok (maker.new, left after))) }
    ensures shorter { IfOk result (λ after. length after.rest.now < length place.now.rest.now) }
    ensures fault { IfErr result (λ e. (e ≡ VerilogFault.OutOfMemory) ⊎ Several (Assigns declared.now) maker.old (left place.now) (Err e)) }
{
    let mut here = *place;
    loop {
        let next = match read_assignment(alloc, maker, declared, &here) {
            Ok(next) => next,
            Err(fault) => return Err(fault),
        };
        let (token, after) = next.next();
        if !is_sign(Sign::Comma, token.kind) {
            return Ok(next);
        }
        here = after;
    }
}
