//! Inputs of instances.
ghost use Rattle.std.specs.Prelude.{◌≡◌, ◌⊎◌, ◌<◌, ◌≤◌, ◌+◌, [], All, Ok, Err, IfOk, IfErr, OnOk, length};
ghost use Rattle.net_core.specs.NetList.{nets};
ghost use Rattle.net_verilog.specs.Instances.{ReadsInput};
ghost use Rattle.net_verilog.specs.Several.{Several};
ghost use Rattle.net_verilog.specs.private.Places.{left};

use crate::expression::read_expression;
use crate::gates::settle;
use crate::parts::is_sign;
use crate::{Cursor, Sign, Table, VerilogFault};
use net_core::NetMaker;
use std::alloc::Global;

// Reads one input, whose net comes after those before.
fn read_input<'a>(
    alloc: Global,
    maker: &mut NetMaker,
    declared: &Table,
    inputs: &mut Vec<u32>,
    place: &Cursor<'a>,
) -> Result<Cursor<'a>, VerilogFault>
    requires { All (λ n. n < nets maker.old) inputs.old.items }
    ensures made { IfOk result (λ after. ReadsInput declared.now (maker.old, inputs.old.items) (left place.now) (Ok ((maker.new, inputs.new.items), left after))) }
    ensures on { OnOk result (All (λ n. n < nets maker.new) inputs.new.items) }
    ensures one { OnOk result (length inputs.new.items ≡ 1 + length inputs.old.items) }
    ensures grows { OnOk result (nets maker.old ≤ nets maker.new) }
    ensures shorter { IfOk result (λ after. length after.rest.now ≤ length place.now.rest.now) }
    ensures fault { IfErr result (λ e. (e ≡ VerilogFault.OutOfMemory) ⊎ ReadsInput declared.now (maker.old, inputs.old.items) (left place.now) (Err e)) }
{
    let (driver, after) = match read_expression(alloc, maker, declared, place) {
        Ok(found) => found,
        Err(fault) => return Err(fault),
    };
    let net = match settle(alloc, maker, driver) {
        Ok(net) => net,
        Err(fault) => return Err(fault),
    };
    inputs.push(net)?;
    Ok(after)
}

/// Reads the inputs of an instance, with commas between them: their nets, and the place after the last.
pub fn read_inputs<'a>(
    alloc: Global,
    maker: &mut NetMaker,
    declared: &Table,
    place: &Cursor<'a>,
) -> Result<(Vec<u32>, Cursor<'a>), VerilogFault>
    ensures made { IfOk result (λ r. Several (ReadsInput declared.now) (maker.old, []) (left place.now) (Ok ((maker.new, r.0.items), left r.1))) }
    ensures on { IfOk result (λ r. All (λ n. n < nets maker.new) r.0.items) }
    ensures grows { OnOk result (nets maker.old ≤ nets maker.new) }
    ensures shorter { IfOk result (λ r. length r.1.rest.now ≤ length place.now.rest.now) }
    ensures few { IfOk result (λ r. length r.0.items ≤ 1 + length place.now.rest.now) }
    ensures fault { IfErr result (λ e. (e ≡ VerilogFault.OutOfMemory) ⊎ Several (ReadsInput declared.now) (maker.old, []) (left place.now) (Err e)) }
{
    let mut inputs = Vec::new(alloc);
    let mut here = *place;
    loop {
        let next = match read_input(alloc, maker, declared, &mut inputs, &here) {
            Ok(next) => next,
            Err(fault) => return Err(fault),
        };
        let (token, after) = next.next();
        if !is_sign(Sign::Comma, token.kind) {
            return Ok((inputs, next));
        }
        here = after;
    }
}
