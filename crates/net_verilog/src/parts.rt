//! Signs, identifiers and ranges.
ghost use Rattle.std.specs.Prelude.{◌≡◌, ◌⊎◌, ◌<◌, ◌≤◌, Ok, Err, None, Some, IfOk, IfErr, length};
ghost use Rattle.net_core.specs.Inside.{IsNetName};
ghost use Rattle.net_verilog.specs.Parts.{bound as bound_that, bounds as bounds_that, identifier, is_sign as sign_is, range as range_that, taken};
ghost use Rattle.net_verilog.specs.private.Decimals.{IsSmall};
ghost use Rattle.net_verilog.specs.private.Places.{left};
ghost use Rattle.text_core.specs.Lines.{IsPrinting};

use crate::target::{decimal, name_of};
use crate::words::{is_open_index, wrong};
use crate::{Cursor, Kind, Sign, VerilogFault};
use std::alloc::Global;

/// Whether a token is this sign.
pub fn is_sign(sign: Sign, kind: Kind) -> bool
    ensures { result ≡ sign_is sign kind }
{
    match sign {
        Sign::Open => matches!(kind, Kind::Open),
        Sign::Close => matches!(kind, Kind::Close),
        Sign::CloseIndex => matches!(kind, Kind::CloseIndex),
        Sign::Comma => matches!(kind, Kind::Comma),
        Sign::Semicolon => matches!(kind, Kind::Semicolon),
        Sign::Colon => matches!(kind, Kind::Colon),
        Sign::Equals => matches!(kind, Kind::Equals),
    }
}

/// Reads a sign: its line, and the place after it.
pub fn take<'a>(
    alloc: Global,
    sign: Sign,
    place: &Cursor<'a>,
) -> Result<(u32, Cursor<'a>), VerilogFault>
    ensures found { IfOk result (λ r. taken sign (left place.now) ≡ Ok (r.0, left r.1)) }
    ensures shorter { IfOk result (λ r. length r.1.rest.now < length place.now.rest.now) }
    ensures fault { IfErr result (λ e. (e ≡ VerilogFault.OutOfMemory) ⊎ (taken sign (left place.now) ≡ Err e)) }
{
    let (token, after) = place.next();
    if is_sign(sign, token.kind) {
        Ok((token.line, after))
    } else {
        Err(wrong(alloc, &token))
    }
}

/// Reads an identifier: its line and name, and the place after it.
pub fn read_identifier<'a>(
    alloc: Global,
    place: &Cursor<'a>,
) -> Result<((u32, &'a str), Cursor<'a>), VerilogFault>
    ensures found { IfOk result (λ r. identifier (left place.now) ≡ Ok ((r.0.0, r.0.1.now), left r.1)) }
    ensures name { IfOk result (λ r. IsNetName r.0.1.now) }
    ensures prints { IfOk result (λ r. IsPrinting r.0.1.now) }
    ensures shorter { IfOk result (λ r. length r.1.rest.now < length place.now.rest.now) }
    ensures fault { IfErr result (λ e. (e ≡ VerilogFault.OutOfMemory) ⊎ (identifier (left place.now) ≡ Err e)) }
{
    let (token, after) = place.next();
    let Some(name) = name_of(&token) else {
        return Err(wrong(alloc, &token));
    };
    if name.len() > 255 || name.is_empty() {
        return Err(VerilogFault::Syntax { line: token.line });
    }
    Ok(((token.line, name), after))
}

// Reads a bound of a range.
fn read_bound<'a>(alloc: Global, place: &Cursor<'a>) -> Result<(u32, Cursor<'a>), VerilogFault>
    ensures found { IfOk result (λ r. bound_that (left place.now) ≡ Ok (r.0, left r.1)) }
    ensures few { IfOk result (λ r. r.0 ≤ 65535) }
    ensures shorter { IfOk result (λ r. length r.1.rest.now < length place.now.rest.now) }
    ensures fault { IfErr result (λ e. (e ≡ VerilogFault.OutOfMemory) ⊎ (bound_that (left place.now) ≡ Err e)) }
{
    let (token, after) = place.next();
    match decimal(&token) {
        None => Err(wrong(alloc, &token)),
        Some(None) => Err(VerilogFault::Syntax { line: token.line }),
        Some(Some(bound)) => {
            if bound > 65535 {
                Err(VerilogFault::Syntax { line: token.line })
            } else {
                Ok((bound, after))
            }
        }
    }
}

// Reads the bounds and `]` of a range.
fn read_bounds<'a>(
    alloc: Global,
    place: &Cursor<'a>,
) -> Result<(Option<(u32, u32)>, Cursor<'a>), VerilogFault>
    ensures found { IfOk result (λ r. bounds_that (left place.now) ≡ Ok (r.0, left r.1)) }
    ensures small { IfOk result (λ r. IsSmall r.0) }
    ensures shorter { IfOk result (λ r. length r.1.rest.now < length place.now.rest.now) }
    ensures fault { IfErr result (λ e. (e ≡ VerilogFault.OutOfMemory) ⊎ (bounds_that (left place.now) ≡ Err e)) }
{
    let (a, colon) = match read_bound(alloc, place) {
        Ok(found) => found,
        Err(fault) => return Err(fault),
    };
    let (_, second) = match take(alloc, Sign::Colon, &colon) {
        Ok(found) => found,
        Err(fault) => return Err(fault),
    };
    let (b, close) = match read_bound(alloc, &second) {
        Ok(found) => found,
        Err(fault) => return Err(fault),
    };
    let (_, after) = match take(alloc, Sign::CloseIndex, &close) {
        Ok(found) => found,
        Err(fault) => return Err(fault),
    };
    Ok((Some((a.min(b), a.max(b))), after))
}

/// Reads a range, where one stands.
pub fn read_range<'a>(
    alloc: Global,
    place: &Cursor<'a>,
) -> Result<(Option<(u32, u32)>, Cursor<'a>), VerilogFault>
    ensures found { IfOk result (λ r. range_that (left place.now) ≡ Ok (r.0, left r.1)) }
    ensures small { IfOk result (λ r. IsSmall r.0) }
    ensures shorter { IfOk result (λ r. length r.1.rest.now ≤ length place.now.rest.now) }
    ensures fault { IfErr result (λ e. (e ≡ VerilogFault.OutOfMemory) ⊎ (range_that (left place.now) ≡ Err e)) }
{
    let (token, after) = place.next();
    if is_open_index(token.kind) {
        match read_bounds(alloc, &after) {
            Ok(found) => Ok(found),
            Err(fault) => Err(fault),
        }
    } else {
        Ok((None, *place))
    }
}
