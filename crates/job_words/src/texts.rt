//! Texts of a few parts, of which those of faults and of stages are made.
ghost use Rattle.std.specs.Prelude.{◌≡◌, ◌++◌, IfOk, string_bytes};
ghost use Rattle.std.specs.Fmt.{decimal};

use net_core::Name;
use std::alloc::{AllocError, Global};

/// A text and a number.
pub(crate) fn numbered(alloc: Global, before: &str, number: u32) -> Result<String, AllocError>
    ensures { IfOk result (λ text. string_bytes text ≡ before.now ++ decimal number) }
{
    format!(in alloc; "{before}{number}")
}

/// Two numbers, with texts before them and between.
pub(crate) fn two_numbers(
    alloc: Global,
    before: &str,
    first: u32,
    between: &str,
    second: u32,
) -> Result<String, AllocError>
    ensures { IfOk result (λ text. string_bytes text ≡ before.now ++ (decimal first ++ (between.now ++ decimal second))) }
{
    format!(in alloc; "{before}{first}{between}{second}")
}

/// A name and a number, with texts before them and between.
pub(crate) fn named_number(
    alloc: Global,
    before: &str,
    name: &str,
    between: &str,
    number: u32,
) -> Result<String, AllocError>
    ensures { IfOk result (λ text. string_bytes text ≡ before.now ++ (name.now ++ (between.now ++ decimal number))) }
{
    format!(in alloc; "{before}{name}{between}{number}")
}

/// A name, with texts before it and behind.
pub(crate) fn about(
    alloc: Global,
    before: &str,
    name: &Name,
    after: &str,
) -> Result<String, AllocError>
    ensures { IfOk result (λ text. string_bytes text ≡ before.now ++ (name.now ++ after.now)) }
{
    let name = name.as_str();
    format!(in alloc; "{before}{name}{after}")
}
