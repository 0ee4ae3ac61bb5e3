//! What items begin with.
ghost use Rattle.std.specs.Prelude.{◌≡◌, ◌⊎◌};
ghost use Rattle.net_verilog.specs.private.Places.{Prints, value_of};
ghost use Rattle.net_verilog.specs.Instances.{gate_of as gate_that};
ghost use Rattle.verilog_reader.specs.Items.{gate_start as gate_start_that, is_endmodule as endmodule_is, is_module as module_is, is_wire as wire_is, item_fault as fault_that, item_start as start_that, word_start as word_that};
ghost use Rattle.verilog_reader.specs.Modules.{port_direction as direction_that};

use net_verilog::{
    Direction, GateKind, Kind, Token, VerilogFault, gate_of, left_out, name_of, wrong,
};
use std::alloc::Global;

/// What an item is, by its first token.
#[derive(Clone, Copy)]
pub enum ItemStart {
    Declaration(Direction),
    Assignments,
    Instances(GateKind),
    Other,
}

fn gate_start(word: &[u8]) -> ItemStart
    ensures { result ≡ gate_start_that (gate_that word.now) }
{
    match gate_of(word) {
        Some(kind) => ItemStart::Instances(kind),
        None => ItemStart::Other,
    }
}

fn word_start(word: &[u8]) -> ItemStart
    ensures { result ≡ word_that word.now }
{
    if word == b"input".as_slice() {
        ItemStart::Declaration(Direction::Input)
    } else if word == b"output".as_slice() {
        ItemStart::Declaration(Direction::Output)
    } else if word == b"wire".as_slice() {
        ItemStart::Declaration(Direction::Wire)
    } else if word == b"assign".as_slice() {
        ItemStart::Assignments
    } else {
        gate_start(word)
    }
}

/// What begins with a token.
pub fn item_start(token: &Token<'_>) -> ItemStart
    ensures { result ≡ start_that (value_of token.now) }
{
    match token.kind {
        Kind::Word => word_start(token.text),
        _ => ItemStart::Other,
    }
}

/// The direction that a declaration in a list of ports begins with.
pub fn port_direction(start: ItemStart) -> Option<Direction>
    ensures { result ≡ direction_that start }
{
    match start {
        ItemStart::Declaration(Direction::Input) => Some(Direction::Input),
        ItemStart::Declaration(Direction::Output) => Some(Direction::Output),
        _ => None,
    }
}

/// Whether a token is `module`.
pub fn is_module(token: &Token<'_>) -> bool
    ensures { result ≡ module_is (value_of token.now) }
{
    match token.kind {
        Kind::Word => token.text == b"module".as_slice(),
        _ => false,
    }
}

/// Whether a token is `endmodule`.
pub fn is_endmodule(token: &Token<'_>) -> bool
    ensures { result ≡ endmodule_is (value_of token.now) }
{
    match token.kind {
        Kind::Word => token.text == b"endmodule".as_slice(),
        _ => false,
    }
}

/// Whether a token is `wire`.
pub fn is_wire(token: &Token<'_>) -> bool
    ensures { result ≡ wire_is (value_of token.now) }
{
    match token.kind {
        Kind::Word => token.text == b"wire".as_slice(),
        _ => false,
    }
}

/// The fault of a token with which no item begins: an identifier is left out, with its text.
pub fn item_fault(alloc: Global, token: &Token<'_>) -> VerilogFault
    requires { Prints (value_of token.now) }
    ensures { (result ≡ VerilogFault.OutOfMemory) ⊎ (result ≡ fault_that (value_of token.now)) }
{
    match name_of(token) {
        Some(_) => left_out(alloc, token.line, token.text),
        None => wrong(alloc, token),
    }
}
