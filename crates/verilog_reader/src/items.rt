//! Items of a module.
ghost use Rattle.std.specs.Prelude.{◌≡◌, ◌⊎◌, ◌<◌, Ok, Err, IfOk, IfErr, length};
ghost use Rattle.net_verilog.specs.private.Places.{Prints, left, value_of};
ghost use Rattle.verilog_reader.specs.Items.{Item, Items};
ghost use Rattle.verilog_reader.specs.private.Bodies.{Body, DeclaresNames};

use crate::instance_list::read_instances;
use crate::names::read_names;
use crate::ranges::read_declared_range;
use crate::scope::Scope;
use crate::starts::{ItemStart, is_endmodule, item_fault, item_start};
use net_core::NetMaker;
use net_verilog::{Cursor, Direction, Sign, Token, VerilogFault, read_assignments, take};
use std::alloc::Global;

// Reads the names of a declaration and what stands before them: the place after the last name.
fn read_declaration<'a>(
    alloc: Global,
    maker: &mut NetMaker,
    declared: &mut Scope,
    direction: Direction,
    place: &Cursor<'a>,
) -> Result<Cursor<'a>, VerilogFault>
    ensures made { IfOk result (λ end. DeclaresNames direction (declared.old, maker.old) (left place.now) (Ok ((declared.new, maker.new), left end))) }
    ensures shorter { IfOk result (λ end. length end.rest.now < length place.now.rest.now) }
    ensures fault { IfErr result (λ e. (e ≡ VerilogFault.OutOfMemory) ⊎ DeclaresNames direction (declared.old, maker.old) (left place.now) (Err e)) }
{
    let (range, names) = match read_declared_range(alloc, direction, place) {
        Ok(found) => found,
        Err(fault) => return Err(fault),
    };
    read_names(alloc, maker, declared, range, direction, &names)
}

// Reads what stands between the first token of an item and its `;`: the place of the `;`.
fn read_body<'a>(
    alloc: Global,
    maker: &mut NetMaker,
    declared: &mut Scope,
    start: ItemStart,
    token: &Token<'_>,
    place: &Cursor<'a>,
) -> Result<Cursor<'a>, VerilogFault>
    requires { Prints (value_of token.now) }
    ensures made { IfOk result (λ end. Body start (declared.old, maker.old) (value_of token.now) (left place.now) (Ok ((declared.new, maker.new), left end))) }
    ensures shorter { IfOk result (λ end. length end.rest.now < length place.now.rest.now) }
    ensures fault { IfErr result (λ e. (e ≡ VerilogFault.OutOfMemory) ⊎ Body start (declared.old, maker.old) (value_of token.now) (left place.now) (Err e)) }
{
    match start {
        ItemStart::Declaration(direction) => {
            read_declaration(alloc, maker, declared, direction, place)
        }
        ItemStart::Assignments => read_assignments(alloc, maker, declared.table(), place),
        ItemStart::Instances(kind) => read_instances(alloc, maker, declared.table(), kind, place),
        ItemStart::Other => Err(item_fault(alloc, token)),
    }
}

/// Reads an item: the place after it.
pub fn read_item<'a>(
    alloc: Global,
    maker: &mut NetMaker,
    declared: &mut Scope,
    place: &Cursor<'a>,
) -> Result<Cursor<'a>, VerilogFault>
    ensures made { IfOk result (λ after. Item (declared.old, maker.old) (left place.now) (Ok ((declared.new, maker.new), left after))) }
    ensures shorter { IfOk result (λ after. length after.rest.now < length place.now.rest.now) }
    ensures fault { IfErr result (λ e. (e ≡ VerilogFault.OutOfMemory) ⊎ Item (declared.old, maker.old) (left place.now) (Err e)) }
{
    let (token, after) = place.next();
    let start = item_start(&token);
    let end = match read_body(alloc, maker, declared, start, &token, &after) {
        Ok(end) => end,
        Err(fault) => return Err(fault),
    };
    match take(alloc, Sign::Semicolon, &end) {
        Ok((_, after)) => Ok(after),
        Err(fault) => Err(fault),
    }
}

/// Reads items up to `endmodule`: the place after it.
pub fn read_items<'a>(
    alloc: Global,
    maker: &mut NetMaker,
    declared: &mut Scope,
    place: &Cursor<'a>,
) -> Result<Cursor<'a>, VerilogFault>
    ensures made { IfOk result (λ after. Items (declared.old, maker.old) (left place.now) (Ok ((declared.new, maker.new), left after))) }
    ensures fault { IfErr result (λ e. (e ≡ VerilogFault.OutOfMemory) ⊎ Items (declared.old, maker.old) (left place.now) (Err e)) }
{
    let mut here = *place;
    loop {
        let (token, after) = here.next();
        if is_endmodule(&token) {
            return Ok(after);
        }
        let next = match read_item(alloc, maker, declared, &here) {
            Ok(next) => next,
            Err(fault) => return Err(fault),
        };
        here = next;
    }
}
