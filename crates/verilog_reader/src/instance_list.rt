//! Statements of instances.
ghost use Rattle.std.specs.Prelude.{◌≡◌, ◌⊎◌, ◌<◌, Ok, Err, IfOk, IfErr, length};
ghost use Rattle.net_verilog.specs.Instances.{ReadsInstance};
ghost use Rattle.net_verilog.specs.Several.{Several};
ghost use Rattle.net_verilog.specs.private.Places.{left};

use net_core::NetMaker;
use net_verilog::{Cursor, GateKind, Sign, Table, VerilogFault, is_sign, read_instance};
use std::alloc::Global;

/// Reads instances of a gate with commas between them: the place after the last.
pub fn read_instances<'a>(
    alloc: Global,
    maker: &mut NetMaker,
    declared: &Table,
    kind: GateKind,
    place: &Cursor<'a>,
) -> Result<Cursor<'a>, VerilogFault>
    ensures made { IfOk result (λ after. Several (ReadsInstance declared.now kind) maker.old (left place.now) (Ok (maker.new, left after))) }
    ensures shorter { IfOk result (λ after. length after.rest.now < length place.now.rest.now) }
    ensures fault { IfErr result (λ e. (e ≡ VerilogFault.OutOfMemory) ⊎ Several (ReadsInstance declared.now kind) maker.old (left place.now) (Err e)) }
{
    let mut here = *place;
    loop {
        let next = match read_instance(alloc, maker, declared, kind, &here) {
            Ok(next) => next,
            Err(fault) => return Err(fault),
        };
        let (token, after) = next.next();
        if !is_sign(Sign::Comma, token.kind) {
            return Ok(next);
        }
        here = after;
    }
}
