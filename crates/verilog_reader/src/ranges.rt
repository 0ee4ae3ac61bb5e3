//! Ranges of declarations.
ghost use Rattle.std.specs.Prelude.{◌≡◌, ◌⊎◌, ◌≤◌, Ok, Err, IfOk, IfErr, length};
ghost use Rattle.net_verilog.specs.Parts.{range as range_that};
ghost use Rattle.net_verilog.specs.private.Decimals.{IsSmall};
ghost use Rattle.net_verilog.specs.private.Places.{left};
ghost use Rattle.verilog_reader.specs.Items.{after_wire as after_wire_that, declared_range as declared_that};

use crate::starts::is_wire;
use net_verilog::{Cursor, Direction, VerilogFault, read_range};
use std::alloc::Global;

// The place after a `wire`, where one stands.
fn after_wire<'a>(place: &Cursor<'a>) -> Cursor<'a>
    ensures left { left result ≡ after_wire_that (left place.now) }
    ensures shorter { length result.rest.now ≤ length place.now.rest.now }
{
    let (token, after) = place.next();
    if is_wire(&token) { after } else { *place }
}

/// Reads a range after a `wire`, where they stand.
pub fn read_wire_range<'a>(
    alloc: Global,
    place: &Cursor<'a>,
) -> Result<(Option<(u32, u32)>, Cursor<'a>), VerilogFault>
    ensures found { IfOk result (λ r. range_that (after_wire_that (left place.now)) ≡ Ok (r.0, left r.1)) }
    ensures small { IfOk result (λ r. IsSmall r.0) }
    ensures shorter { IfOk result (λ r. length r.1.rest.now ≤ length place.now.rest.now) }
    ensures fault { IfErr result (λ e. (e ≡ VerilogFault.OutOfMemory) ⊎ (range_that (after_wire_that (left place.now)) ≡ Err e)) }
{
    let after = after_wire(place);
    match read_range(alloc, &after) {
        Ok(found) => Ok(found),
        Err(fault) => Err(fault),
    }
}

/// Reads what stands between the first word of a declaration and its names.
pub fn read_declared_range<'a>(
    alloc: Global,
    direction: Direction,
    place: &Cursor<'a>,
) -> Result<(Option<(u32, u32)>, Cursor<'a>), VerilogFault>
    ensures found { IfOk result (λ r. declared_that direction (left place.now) ≡ Ok (r.0, left r.1)) }
    ensures small { IfOk result (λ r. IsSmall r.0) }
    ensures shorter { IfOk result (λ r. length r.1.rest.now ≤ length place.now.rest.now) }
    ensures fault { IfErr result (λ e. (e ≡ VerilogFault.OutOfMemory) ⊎ (declared_that direction (left place.now) ≡ Err e)) }
{
    match direction {
        Direction::Wire => read_range(alloc, place),
        Direction::Input => read_wire_range(alloc, place),
        Direction::Output => read_wire_range(alloc, place),
    }
}
