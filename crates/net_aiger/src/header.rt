//! The header.
ghost use Rattle.std.specs.Prelude.{◌≡◌, ◌⊎◌, ◌≤◌, Ok, Err, Some, IfOk, IfErr, OnOk, drop, length};
ghost use Rattle.std.specs.Fmt.{decimal};
ghost use Rattle.net_aiger.specs.Spelling.{counts as counts_of, first_other as first_not_0, is_header as heads, left_out as leaves_out};
ghost use Rattle.net_aiger.specs.private.Run.{header_from, header_with};
ghost use Rattle.net_aiger.specs.Numbers.{words_of};

use crate::AigerFault;
use crate::numbers::{numbers, words};
use crate::reading::Header;
use net_core::Name;
use std::alloc::{AllocError, Global};

// The first number that is not 0.
fn first_other(numbers: &[u32]) -> Option<u32>
    ensures { result ≡ first_not_0 numbers.now }
{
    for number in numbers {
        if *number != 0 {
            return Some(*number);
        }
    }
    None
}

// Whether a word and numbers are a header.
fn is_header(word: &[u8], numbers: &[u32]) -> bool
    ensures { result ≡ heads word.now numbers.now }
{
    (word == b"aag".as_slice() || word == b"aig".as_slice())
        && (5 <= numbers.len() && numbers.len() <= 9)
}

// The numbers behind the fifth.
fn behind_fifth(numbers: &[u32]) -> &[u32]
    ensures { result.now ≡ drop 5 numbers.now }
{
    match numbers {
        [_, _, _, _, _, others @ ..] => others,
        _ => &numbers[numbers.len()..],
    }
}

// The word of a number that is not read.
fn number_word(alloc: Global, number: u32) -> Result<Name, AllocError>
    ensures { IfOk result (λ word. word ≡ decimal number) }
{
    let text = format!(in alloc; "{number}")?;
    Name::new(alloc, text.as_str())
}

// Refuses the binary format, and what the numbers behind the fifth count.
fn left_out(alloc: Global, word: &[u8], numbers: &[u32]) -> Result<(), AigerFault>
    ensures made { OnOk result (leaves_out word.now numbers.now ≡ Ok tt) }
    ensures fault { IfErr result (λ e. (e ≡ AigerFault.OutOfMemory) ⊎ (leaves_out word.now numbers.now ≡ Err e)) }
{
    if word == b"aig".as_slice() {
        let word = Name::new(alloc, "aig")?;
        return Err(AigerFault::LeftOut { line: 1, word });
    }
    match first_other(behind_fifth(numbers)) {
        None => Ok(()),
        Some(number) => {
            let word = number_word(alloc, number)?;
            Err(AigerFault::LeftOut { line: 1, word })
        }
    }
}

// What the first five numbers count.
fn counts(numbers: &[u32]) -> Header
    requires { 5 ≤ length numbers.now }
    ensures { result ≡ counts_of numbers.now }
{
    Header {
        most: numbers[0],
        inputs: numbers[1],
        latches: numbers[2],
        outputs: numbers[3],
        ands: numbers[4],
    }
}

// The header of a word and numbers.
fn header_of(alloc: Global, word: &[u8], numbers: &[u32]) -> Result<Header, AigerFault>
    ensures made { IfOk result (λ header. header_with word.now (Some numbers.now) ≡ Ok header) }
    ensures fault { IfErr result (λ e. (e ≡ AigerFault.OutOfMemory) ⊎ (header_with word.now (Some numbers.now) ≡ Err e)) }
{
    if !is_header(word, numbers) {
        return Err(AigerFault::Syntax { line: 1 });
    }
    left_out(alloc, word, numbers)?;
    Ok(counts(numbers))
}

/// The header that the first line says, or its fault.
pub(crate) fn read_header(alloc: Global, line: &[u8]) -> Result<Header, AigerFault>
    ensures made { IfOk result (λ header. header_from (words_of line.now) ≡ Ok header) }
    ensures fault { IfErr result (λ e. (e ≡ AigerFault.OutOfMemory) ⊎ (header_from (words_of line.now) ≡ Err e)) }
{
    let words = words(alloc, line)?;
    let [word, rest @ ..] = words.as_slice() else {
        return Err(AigerFault::Syntax { line: 1 });
    };
    let Some(numbers) = numbers(alloc, rest)? else {
        return Err(AigerFault::Syntax { line: 1 });
    };
    header_of(alloc, *word, &numbers)
}
