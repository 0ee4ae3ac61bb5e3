//! Scalars with the names of bits.
ghost use Rattle.std.specs.Prelude.{◌≡◌, ◌≤◌, ◌<◌, ℕ, List, Some, IfOk, length, IfSome, IfNone, true};
ghost use Rattle.text_core.specs.Lines.{IsPrinting};
ghost use Rattle.net_verilog.specs.Declarations.{bit_name as bit_that, range_of as range_that};
ghost use Rattle.verilog_reader.specs.private.Meets.{Decides, IsBit, IsBitAt, IsCutOf, IsNoBit};

use crate::bits::range_of;
use crate::scope::Scope;
use net_verilog::{bit_name, text_of};
use std::alloc::{AllocError, Global};
use text_core::read_decimal;

/// The place of the last `[`.
pub fn last_open(name: &[u8]) -> Option<usize>
    ensures inside { IfSome result (λ cut. cut < length name.now) }
    ensures some { IfSome result (λ cut. IsCutOf name.now cut) }
    ensures none { IfNone result (IsNoBit name.now) }
{
    let mut cut = name.len();
    while cut > 0 {
        cut -= 1;
        if name[cut] == b'[' {
            return Some(cut);
        }
    }
    None
}

/// The index that stands between a `[` at a place and the `]` at the end.
pub fn index_at(name: &[u8], cut: usize) -> Option<u32>
    requires { cut < length name.now }
    ensures { (before : List ℕ) → (i : ℕ) → i ≤ 4294967295 → length before ≡ cut → name.now ≡ bit_that before i → result ≡ Some i }
{
    let end = name.len() - 1;
    if cut + 1 > end {
        return None;
    }
    match read_decimal(&name[cut + 1..end], 4294967295) {
        Some(index) => Some(index as u32),
        None => None,
    }
}

// Whether a `[` stands at a place.
fn is_open_at(name: &[u8], cut: usize) -> bool
    requires { cut < length name.now }
    ensures { (before : List ℕ) → (i : ℕ) → length before ≡ cut → name.now ≡ bit_that before i → result ≡ true }
{
    name[cut] == b'['
}

// The range of a declared vector.
fn vector_range(declared: &Scope, name: &str) -> Option<(u32, u32)>
    ensures some { IfSome result (λ r. range_that declared.now name.now ≡ Some (Some r)) }
    ensures none { IfNone result ((r : ℕ × ℕ) → range_that declared.now name.now ≡ Some (Some r) → ⊥) }
{
    match range_of(declared, name) {
        Some(Some(range)) => Some(range),
        _ => None,
    }
}

// Whether a name is that of a bit.
fn is_bit_of(alloc: Global, before: &str, index: u32, name: &str) -> Result<bool, AllocError>
    ensures { IfOk result (λ r. Decides r (name.now ≡ bit_that before.now index)) }
{
    let bit = bit_name(alloc, before, index)?;
    Ok(name == bit.as_str())
}

// Whether a name is that of a bit of the declared vector before a place in it.
fn is_bit_at(alloc: Global, declared: &Scope, name: &str, cut: usize) -> Result<bool, AllocError>
    requires inside { cut < length name.now }
    requires prints { IsPrinting name.now }
    ensures { IfOk result (λ r. Decides r (IsBitAt declared.now name.now cut)) }
{
    if !is_open_at(name.as_bytes(), cut) {
        return Ok(false);
    }
    let before = text_of(&name.as_bytes()[..cut]);
    let Some((low, high)) = vector_range(declared, before) else {
        return Ok(false);
    };
    let Some(index) = index_at(name.as_bytes(), cut) else {
        return Ok(false);
    };
    if index < low || high < index {
        return Ok(false);
    }
    let same = is_bit_of(alloc, before, index, name)?;
    Ok(same)
}

/// Whether a name is that of a bit of some declared vector.
pub fn is_bit(alloc: Global, declared: &Scope, name: &str) -> Result<bool, AllocError>
    requires { IsPrinting name.now }
    ensures { IfOk result (λ r. Decides r (IsBit declared.now name.now)) }
{
    match last_open(name.as_bytes()) {
        Some(cut) => {
            let is = is_bit_at(alloc, declared, name, cut)?;
            Ok(is)
        }
        None => Ok(false),
    }
}
