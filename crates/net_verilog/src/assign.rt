//! Assignments.
ghost use Rattle.std.specs.Prelude.{◌≡◌, ◌⊎◌, ◌<◌, Ok, Err, IfOk, IfErr, length};
ghost use Rattle.net_verilog.specs.Assigns.{Assigns};
ghost use Rattle.net_verilog.specs.private.Places.{left};

use crate::expression::read_expression;
use crate::gates::drive;
use crate::parts::take;
use crate::target_net::read_net;
use crate::{Cursor, Sign, Table, VerilogFault};
use net_core::NetMaker;
use std::alloc::Global;

/// Reads `target = expression` and makes the gates of it: the place after it. The target's net is made first, then the
/// operands and operators in post-order, left before right.
pub fn read_assignment<'a>(
    alloc: Global,
    maker: &mut NetMaker,
    declared: &Table,
    place: &Cursor<'a>,
) -> Result<Cursor<'a>, VerilogFault>
    ensures made { IfOk result (λ after. Assigns declared.now maker.old (left place.now) (Ok (maker.new, left after))) }
    ensures shorter { IfOk result (λ after. length after.rest.now < length place.now.rest.now) }
    ensures fault { IfErr result (λ e. (e ≡ VerilogFault.OutOfMemory) ⊎ Assigns declared.now maker.old (left place.now) (Err e)) }
{
    let (out, sign) = match read_net(alloc, maker, declared, place) {
        Ok(found) => found,
        Err(fault) => return Err(fault),
    };
    let (_, begin) = match take(alloc, Sign::Equals, &sign) {
        Ok(found) => found,
        Err(fault) => return Err(fault),
    };
    let (driver, after) = match read_expression(alloc, maker, declared, &begin) {
        Ok(found) => found,
        Err(fault) => return Err(fault),
    };
    match drive(maker, out, driver) {
        Ok(()) => Ok(after),
        Err(fault) => Err(fault),
    }
}
