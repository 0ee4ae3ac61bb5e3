//! The values at which a netlist is to be evaluated.
ghost use Rattle.std.specs.Prelude.{◌≡◌, ◌+◌, ◌<◌, ◌^◌, map, string_bytes, IfSome, IfNone};
ghost use Rattle.outcome.specs.Outcome.{Within};
ghost use Rattle.text_core.specs.Numbers.{IsHex};
ghost use Rattle.job_words.specs.Stop.{GivesBy};
ghost use Rattle.job_words.specs.declared.fault.Fault.TheVariants.{Value};
ghost use Rattle.job_words.specs.declared.stop.Stop.TheVariants.{Refused};
ghost use Rattle.answer_polynomials.specs.Values.{ElementsOf, ValuesOf};

use gf_field::Field;
use job_words::{Fault, Stop, ValueFault};
use std::alloc::Global;
use text_core::read_hex;

/// One element of the field for each word, or the fault of their number, or of the first value that is none.
pub(crate) fn read_values<F: Field>(
    alloc: Global,
    field: &F,
    words: u32,
    values: &[String],
) -> Result<Vec<u64>, Stop>
    ensures { GivesBy (λ xs. xs.items) result (Within Value (ValuesOf (F.degree field.now) words (map string_bytes values.now))) ⊥ ⊥ }
{
    let count = values.len();
    if count != words as usize {
        let count = count as u64;
        return Err(refused(ValueFault::WrongCount { count, words }));
    }
    read_elements(alloc, field, values)
}

// An element for each value, or the fault of the first that is none.
fn read_elements<F: Field>(alloc: Global, field: &F, values: &[String]) -> Result<Vec<u64>, Stop>
    ensures { GivesBy (λ xs. xs.items) result (Within Value (ElementsOf (F.degree field.now) 1 (map string_bytes values.now))) ⊥ ⊥ }
{
    let mut elements = Vec::new(alloc);
    for i in 0..values.len() {
        match read_element(field, values[i].as_str()) {
            Some(element) => elements.push(element)?,
            None => return Err(refused(ValueFault::TooLarge {
                place: i as u64 + 1,
            })),
        }
    }
    Ok(elements)
}

// The element that a value spells.
fn read_element<F: Field>(field: &F, value: &str) -> Option<u64>
    ensures found { IfSome result (λ x. IsHex value.now x × (x < 2 ^ F.degree field.now)) }
    ensures none { IfNone result ((x : _) → IsHex value.now x → x < 2 ^ F.degree field.now → ⊥) }
{
    match read_hex(value.as_bytes(), greatest(field)) {
        Some(x) => Some(x as u64),
        None => None,
    }
}

// The greatest element of the field.
fn greatest<F: Field>(field: &F) -> u128
    ensures small { result < 18446744073709551616 }
    ensures is { 1 + result ≡ 2 ^ F.degree field.now }
{
    let k = field.k();
    (1u128 << k) - 1
}

// The refusal of values.
fn refused(fault: ValueFault) -> Stop
    ensures { result ≡ Refused (Value fault) }
{
    Stop::Refused(Fault::Value(fault))
}
