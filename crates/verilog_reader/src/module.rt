//! Modules.
ghost use Rattle.std.specs.Prelude.{◌≡◌, ◌⊎◌, Ok, Err, IfOk, IfErr, OnOk};
ghost use Rattle.net_core.specs.NetList.{NetList, empty};
ghost use Rattle.net_verilog.specs.Declarations.{undeclared};
ghost use Rattle.net_verilog.specs.private.Places.{left};
ghost use Rattle.verilog_reader.specs.Modules.{Module, module_taken, nothing_more};

use crate::items::read_items;
use crate::port_list::read_port_list;
use crate::scope::Scope;
use crate::starts::is_module;
use net_core::NetMaker;
use net_verilog::{Cursor, Sign, VerilogFault, is_end, read_identifier, take, wrong};
use std::alloc::Global;

// Reads `module`: the place after it.
fn take_module<'a>(alloc: Global, place: &Cursor<'a>) -> Result<Cursor<'a>, VerilogFault>
    ensures found { IfOk result (λ after. module_taken (left place.now) ≡ Ok (left after)) }
    ensures fault { IfErr result (λ e. (e ≡ VerilogFault.OutOfMemory) ⊎ (module_taken (left place.now) ≡ Err e)) }
{
    let (token, after) = place.next();
    if is_module(&token) {
        Ok(after)
    } else {
        Err(wrong(alloc, &token))
    }
}

// Nothing may follow.
fn check_end(alloc: Global, place: &Cursor<'_>) -> Result<(), VerilogFault>
    ensures found { OnOk result ((net : NetList) → nothing_more net (left place.now) ≡ Ok net) }
    ensures fault { IfErr result (λ e. (e ≡ VerilogFault.OutOfMemory) ⊎ ((net : NetList) → nothing_more net (left place.now) ≡ Err e)) }
{
    let (token, _) = place.next();
    if is_end(token.kind) {
        Ok(())
    } else {
        Err(wrong(alloc, &token))
    }
}

/// Reads a module, with nothing around it.
pub fn read_module(
    alloc: Global,
    maker: &mut NetMaker,
    declared: &mut Scope,
    place: &Cursor<'_>,
) -> Result<(), VerilogFault>
    requires net { maker.old ≡ empty }
    requires names { declared.old ≡ undeclared }
    ensures made { OnOk result (Module (left place.now) (Ok maker.new)) }
    ensures fault { IfErr result (λ e. (e ≡ VerilogFault.OutOfMemory) ⊎ Module (left place.now) (Err e)) }
{
    let begun = match take_module(alloc, place) {
        Ok(begun) => begun,
        Err(fault) => return Err(fault),
    };
    let (_, ports) = match read_identifier(alloc, &begun) {
        Ok(found) => found,
        Err(fault) => return Err(fault),
    };
    let sign = match read_port_list(alloc, maker, declared, &ports) {
        Ok(sign) => sign,
        Err(fault) => return Err(fault),
    };
    let (_, items) = match take(alloc, Sign::Semicolon, &sign) {
        Ok(found) => found,
        Err(fault) => return Err(fault),
    };
    let end = match read_items(alloc, maker, declared, &items) {
        Ok(end) => end,
        Err(fault) => return Err(fault),
    };
    match check_end(alloc, &end) {
        Ok(()) => Ok(()),
        Err(fault) => Err(fault),
    }
}
