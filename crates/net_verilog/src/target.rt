//! Targets.
ghost use Rattle.std.specs.Prelude.{◌≡◌, ◌⊎◌, ◌<◌, ◌≤◌, Ok, Err, None, Some, true, IfOk, IfErr, IfSome, IfNone, length};
ghost use Rattle.std.specs.Option.{option_map};
ghost use Rattle.net_core.specs.Inside.{IsNetName};
ghost use Rattle.text_core.specs.Lines.{IsPrinting};
ghost use Rattle.text_core.specs.Numbers.{value_of as value_that};
ghost use Rattle.net_verilog.specs.Words.{is_decimal as decimal_that};
ghost use Rattle.net_verilog.specs.Declarations.{bit_name as bit_that, range_of as range_that};
ghost use Rattle.net_verilog.specs.Targets.{after_name, decimal_kind, indexed as indexed_that, name_kind, target_of};
ghost use Rattle.net_verilog.specs.private.Places.{Prints, left, value_of};
ghost use Rattle.net_verilog.specs.private.Decimals.{HasBits, short};

use crate::parts::{read_identifier, take};
use crate::words::{is_decimal, is_keyword, is_open_index, text_of, wrong};
use crate::{Cursor, Kind, Sign, Table, Token, VerilogFault};
use net_core::Name;
use std::alloc::{AllocError, Global};
use text_core::read_decimal;

/// The name of an identifier.
pub fn name_of<'a>(token: &Token<'a>) -> Option<&'a str>
    requires { Prints (value_of token.now) }
    ensures some { IfSome result (λ name. name_kind token.now.kind token.now.text.now ≡ Some name.now) }
    ensures prints { IfSome result (λ name. IsPrinting name.now) }
    ensures none { IfNone result (name_kind token.now.kind token.now.text.now ≡ None) }
{
    match token.kind {
        Kind::Word => {
            if is_keyword(token.text) {
                None
            } else {
                Some(text_of(token.text))
            }
        }
        Kind::Escaped => match token.text {
            [_, name @ ..] => Some(text_of(name)),
            [] => Some(text_of(token.text)),
        },
        _ => None,
    }
}

// The value of decimal digits, where it is below 2^32.
fn short_value(text: &[u8]) -> Option<u32>
    requires { decimal_that text.now ≡ true }
    ensures { result ≡ short (value_that 10 text.now) }
{
    match read_decimal(text, 4294967295) {
        Some(value) => Some(value as u32),
        None => None,
    }
}

/// A decimal number, and its value, where that is below 2^32.
pub fn decimal(token: &Token<'_>) -> Option<Option<u32>>
    ensures { result ≡ option_map short (decimal_kind token.now.kind token.now.text.now) }
{
    match token.kind {
        Kind::Number => {
            if is_decimal(token.text) {
                Some(short_value(token.text))
            } else {
                None
            }
        }
        _ => None,
    }
}

/// The name of a bit of a vector.
pub fn bit_name(alloc: Global, name: &str, index: u32) -> Result<Name, AllocError>
    ensures { IfOk result (λ net. net ≡ bit_that name.now index) }
{
    let text = format!(in alloc; "{name}[{index}]")?;
    let net = Name::new(alloc, text.as_str())?;
    Ok(net)
}

// Reads an index and `]`.
fn indexed<'a>(
    alloc: Global,
    name: &str,
    low: u32,
    high: u32,
    place: &Cursor<'a>,
) -> Result<(Name, Cursor<'a>), VerilogFault>
    requires { HasBits name.now (Some (Some (low, high))) }
    ensures found { IfOk result (λ r. indexed_that name.now low high (left place.now) ≡ Ok (r.0, left r.1)) }
    ensures name { IfOk result (λ r. IsNetName r.0) }
    ensures shorter { IfOk result (λ r. length r.1.rest.now < length place.now.rest.now) }
    ensures fault { IfErr result (λ e. (e ≡ VerilogFault.OutOfMemory) ⊎ (indexed_that name.now low high (left place.now) ≡ Err e)) }
{
    let (token, after) = place.next();
    match decimal(&token) {
        None => Err(wrong(alloc, &token)),
        Some(None) => Err(VerilogFault::OutOfRange { line: token.line }),
        Some(Some(index)) => {
            if low <= index && index <= high {
                match take(alloc, Sign::CloseIndex, &after) {
                    Ok((_, end)) => Ok((bit_name(alloc, name, index)?, end)),
                    Err(fault) => Err(fault),
                }
            } else {
                Err(VerilogFault::OutOfRange { line: token.line })
            }
        }
    }
}

// What follows the name of a target.
fn after_name_of<'a>(
    alloc: Global,
    line: u32,
    name: &str,
    range: Option<Option<(u32, u32)>>,
    place: &Cursor<'a>,
) -> Result<(Name, Cursor<'a>), VerilogFault>
    requires name { IsNetName name.now }
    requires bits { HasBits name.now range }
    ensures found { IfOk result (λ r. after_name line name.now range (left place.now) ≡ Ok (r.0, left r.1)) }
    ensures name { IfOk result (λ r. IsNetName r.0) }
    ensures shorter { IfOk result (λ r. length r.1.rest.now ≤ length place.now.rest.now) }
    ensures fault { IfErr result (λ e. (e ≡ VerilogFault.OutOfMemory) ⊎ (after_name line name.now range (left place.now) ≡ Err e)) }
{
    let (token, after) = place.next();
    match range {
        None => Err(VerilogFault::Undeclared { line }),
        Some(None) => {
            if is_open_index(token.kind) {
                return Err(VerilogFault::OutOfRange { line: token.line });
            }
            Ok((Name::new(alloc, name)?, *place))
        }
        Some(Some((low, high))) => {
            if is_open_index(token.kind) {
                indexed(alloc, name, low, high, &after)
            } else {
                Err(VerilogFault::OutOfRange { line })
            }
        }
    }
}

// The range of a declared name.
fn range_of(declared: &Table, name: &str) -> Option<Option<(u32, u32)>>
    ensures same { result ≡ range_that declared.now name.now }
    ensures bits { HasBits name.now result }
{
    match declared.find(name) {
        Some(d) => Some(d.range),
        None => None,
    }
}

/// Reads a target: the name of its net, and the place after it.
pub fn read_target<'a>(
    alloc: Global,
    declared: &Table,
    place: &Cursor<'a>,
) -> Result<(Name, Cursor<'a>), VerilogFault>
    ensures found { IfOk result (λ r. target_of declared.now (left place.now) ≡ Ok (r.0, left r.1)) }
    ensures name { IfOk result (λ r. IsNetName r.0) }
    ensures shorter { IfOk result (λ r. length r.1.rest.now < length place.now.rest.now) }
    ensures fault { IfErr result (λ e. (e ≡ VerilogFault.OutOfMemory) ⊎ (target_of declared.now (left place.now) ≡ Err e)) }
{
    let ((line, name), after) = match read_identifier(alloc, place) {
        Ok(found) => found,
        Err(fault) => return Err(fault),
    };
    match after_name_of(alloc, line, name, range_of(declared, name), &after) {
        Ok(found) => Ok(found),
        Err(fault) => Err(fault),
    }
}
