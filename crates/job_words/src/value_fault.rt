//! Why the values of `eval` are refused.
ghost use Rattle.std.specs.Prelude.{◌≡◌, ◌++◌, IfOk, codes, string_bytes};
ghost use Rattle.std.specs.Fmt.{decimal};
ghost use Rattle.job_words.specs.ValueFault.{value_text as text_of};

use std::alloc::{AllocError, Global};

/// Why the values at which a netlist is to be evaluated are refused.
#[derive(Drop)]
pub enum ValueFault {
    /// There are not as many values as input, state and fed words.
    WrongCount { count: u64, words: u32 },
    /// The value at this place, counted from 1, is no element of the field.
    TooLarge { place: u64 },
}

/// The number and the text of a fault of values.
pub(crate) fn value_text(alloc: Global, fault: &ValueFault) -> Result<String, AllocError>
    ensures { IfOk result (λ text. string_bytes text ≡ text_of fault.now) }
{
    match fault {
        ValueFault::WrongCount { count, words } => count_text(alloc, *count, *words),
        ValueFault::TooLarge { place } => large_text(alloc, *place),
    }
}

// The text of a wrong number of values.
fn count_text(alloc: Global, count: u64, words: u32) -> Result<String, AllocError>
    ensures { IfOk result (λ text. string_bytes text ≡ codes "48: " ++ (decimal count ++ (codes " values for " ++ (decimal words ++ codes " words")))) }
{
    format!(in alloc; "48: {count} values for {words} words")
}

// The text of a value that is too large.
fn large_text(alloc: Global, place: u64) -> Result<String, AllocError>
    ensures { IfOk result (λ text. string_bytes text ≡ codes "49: value " ++ (decimal place ++ codes " is too large")) }
{
    format!(in alloc; "49: value {place} is too large")
}
