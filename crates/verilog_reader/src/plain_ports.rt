//! Plain lists of ports.
ghost use Rattle.std.specs.Prelude.{◌≡◌, ◌⊎◌, ◌<◌, Ok, Err, IfOk, IfErr};
ghost use Rattle.net_verilog.specs.Several.{Several};
ghost use Rattle.net_verilog.specs.private.Places.{left};
ghost use Rattle.verilog_reader.specs.Items.{State};
ghost use Rattle.verilog_reader.specs.Modules.{PlainPort};

use net_verilog::{Cursor, Sign, VerilogFault, is_sign, read_identifier};
use std::alloc::Global;

/// Reads names with commas between them: the place after the last.
pub fn read_plain_names<'a>(alloc: Global, place: &Cursor<'a>) -> Result<Cursor<'a>, VerilogFault>
    ensures made { IfOk result (λ after. (state : State) → Several PlainPort state (left place.now) (Ok (state, left after))) }
    ensures fault { IfErr result (λ e. (e ≡ VerilogFault.OutOfMemory) ⊎ ((state : State) → Several PlainPort state (left place.now) (Err e))) }
{
    let mut here = *place;
    loop {
        let (_, next) = match read_identifier(alloc, &here) {
            Ok(found) => found,
            Err(fault) => return Err(fault),
        };
        let (token, after) = next.next();
        if !is_sign(Sign::Comma, token.kind) {
            return Ok(next);
        }
        here = after;
    }
}
