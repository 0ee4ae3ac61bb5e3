//! Nets that two names make.
ghost use Rattle.std.specs.Prelude.{◌≡◌, ◌≤◌, ◌+◌, nat_lt, length, Some, IfOk, IsTrue};
ghost use Rattle.net_verilog.specs.Declarations.{bit_name as bit_that, range_of as range_that};
ghost use Rattle.verilog_reader.specs.private.Meets.{Decides, HasScalar, IsFound, is_scalar as scalar_that};

use crate::scope::Scope;
use net_verilog::bit_name;
use std::alloc::{AllocError, Global};

/// The range of a declared name.
pub fn range_of(declared: &Scope, name: &str) -> Option<Option<(u32, u32)>>
    ensures { result ≡ range_that declared.now name.now }
{
    declared.range(name)
}

fn is_scalar(range: Option<Option<(u32, u32)>>) -> bool
    ensures { result ≡ scalar_that range }
{
    match range {
        Some(None) => true,
        _ => false,
    }
}

// Whether a range is that of a vector with these indexes.
fn is_vector(range: Option<Option<(u32, u32)>>, low: u32, high: u32) -> bool
    ensures { IsTrue result → range ≡ Some (Some (low, high)) }
{
    match range {
        Some(Some((from, to))) => from == low && to == high,
        _ => false,
    }
}

// Whether the name of a bit has more than 255 bytes.
fn is_long(alloc: Global, name: &str, index: u32) -> Result<bool, AllocError>
    ensures { IfOk result (λ r. r ≡ nat_lt 255 (length (bit_that name.now index))) }
{
    let bit = bit_name(alloc, name, index)?;
    Ok(bit.as_str().len() > 255)
}

// Whether a bit has the name of a declared scalar.
fn is_scalar_bit(
    alloc: Global,
    declared: &Scope,
    name: &str,
    index: u32,
) -> Result<bool, AllocError>
    ensures { IfOk result (λ r. r ≡ scalar_that (range_that declared.now (bit_that name.now index))) }
{
    let bit = bit_name(alloc, name, index)?;
    Ok(is_scalar(range_of(declared, bit.as_str())))
}

// Whether a bit of a vector with an index of a list has the name of a declared scalar.
fn has_scalar(
    alloc: Global,
    declared: &Scope,
    name: &str,
    low: u32,
    high: u32,
) -> Result<bool, AllocError>
    ensures { IfOk result (λ r. Decides r (HasScalar declared.now name.now low (1 + high))) }
{
    for index in declared.listed(name) {
        if low <= *index && *index <= high {
            if is_scalar_bit(alloc, declared, name, *index)? {
                return Ok(true);
            }
        }
    }
    Ok(false)
}

// Whether a bit of a vector has the name of a declared scalar; that was looked at where the vector is declared already.
fn meets_scalar(
    alloc: Global,
    declared: &Scope,
    name: &str,
    low: u32,
    high: u32,
) -> Result<bool, AllocError>
    ensures { IfOk result (λ r. Decides r (HasScalar declared.now name.now low (1 + high))) }
{
    if is_vector(declared.range(name), low, high) {
        return Ok(false);
    }
    has_scalar(alloc, declared, name, low, high)
}

/// What is found of the bits of a vector.
pub fn bits_found(
    alloc: Global,
    declared: &Scope,
    name: &str,
    low: u32,
    high: u32,
) -> Result<Option<bool>, AllocError>
    requires { high ≤ 65535 }
    ensures { IfOk result (λ r. IsFound declared.now name.now low (1 + high) r) }
{
    if high < low {
        return Ok(Some(false));
    }
    if is_long(alloc, name, high)? {
        return Ok(None);
    }
    let met = meets_scalar(alloc, declared, name, low, high)?;
    Ok(Some(met))
}
