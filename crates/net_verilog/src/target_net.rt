//! Targets and their nets.
ghost use Rattle.std.specs.Prelude.{◌≡◌, ◌⊎◌, ◌<◌, ◌≤◌, IfOk, IfErr, OnOk, length};
ghost use Rattle.net_core.specs.NetList.{nets};
ghost use Rattle.net_verilog.specs.private.Nets.{IsNoNet, Mentions};
ghost use Rattle.net_verilog.specs.private.Places.{left};

use crate::gates::mentioned;
use crate::target::read_target;
use crate::{Cursor, Table, VerilogFault};
use net_core::NetMaker;
use std::alloc::Global;

/// Reads a target and mentions its net: the number of the net, and the place after the target.
pub fn read_net<'a>(
    alloc: Global,
    maker: &mut NetMaker,
    declared: &Table,
    place: &Cursor<'a>,
) -> Result<(u32, Cursor<'a>), VerilogFault>
    ensures made { IfOk result (λ r. Mentions declared.now maker.old (left place.now) maker.new r.0 (left r.1)) }
    ensures within { IfOk result (λ r. r.0 < nets maker.new) }
    ensures grows { OnOk result (nets maker.old ≤ nets maker.new) }
    ensures shorter { IfOk result (λ r. length r.1.rest.now < length place.now.rest.now) }
    ensures fault { IfErr result (λ e. (e ≡ VerilogFault.OutOfMemory) ⊎ IsNoNet declared.now maker.old (left place.now) e) }
{
    let (name, after) = match read_target(alloc, declared, place) {
        Ok(found) => found,
        Err(fault) => return Err(fault),
    };
    match mentioned(maker, name.as_str()) {
        Ok(net) => Ok((net, after)),
        Err(fault) => Err(fault),
    }
}
