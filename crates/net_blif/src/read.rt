//! The reader of BLIF.
ghost use Rattle.std.specs.Prelude.{◌≡◌, ◌⊎◌, ◌<◌, ◌≤◌, ◌+◌, ◌&&◌, Ok, Err, IfOk, IfErr, OnOk, length, take_while, nat_le};
ghost use Rattle.std.specs.Str.Lines.{lines};
ghost use Rattle.net_blif.specs.Lines.{joined, lines_of};
ghost use Rattle.net_blif.specs.Models.{begins, first_word as first_word_of, start, BlifDesign, Reads};
ghost use Rattle.net_blif.specs.private.ReadOn.{ReadsOn};

use crate::in_place::words_in_place;
use crate::lines::next_joined;
use crate::reader::Reader;
use crate::spelling::are_tokens;
use crate::statement::{is_dotted, is_word};
use crate::token::Token;
use crate::{BlifFault, Design};
use net_core::key_of;
use std::alloc::{AllocError, Global};

// The bytes from `!` to `~` with which a token begins.
fn printing_front(token: &[u8]) -> &[u8]
    ensures { result.now ≡ take_while (λ b. nat_le 33 b && nat_le b 126) token.now }
{
    for (i, byte) in token.iter().enumerate() {
        if *byte < b'!' || *byte > b'~' {
            return &token[..i];
        }
    }
    token
}

// The bytes from `!` to `~` with which a line of these tokens begins.
fn first_word<'a>(words: &[Token<'a>]) -> &'a [u8]
    ensures { result.now ≡ first_word_of words.now }
{
    match words {
        [word, ..] => printing_front(word.bytes()),
        [] => &[],
    }
}

// Whether the first statement of a text is `.model`.
fn has_model(alloc: Global, text: &[u8]) -> Result<bool, AllocError>
    requires { length text.now ≤ 67108864 }
    ensures { IfOk result (λ has. has ≡ begins (lines_of text.now)) }
{
    let mut words = Vec::new(alloc);
    let mut rest = text;
    while !rest.is_empty() {
        let (after, _) = next_joined(alloc, rest, &mut words)?;
        let word = first_word(&words);
        if is_dotted(word) {
            return Ok(is_word(word, b".model"));
        }
        rest = after;
    }
    Ok(false)
}

// What the first line of a text says: the text after it, and the count of its physical lines. A line that stands alone is
// read where it stands: that of a row at a glance, and that of a cover without its first word. Tokens are left in `words`.
fn read_first<'a>(
    reader: &mut Reader<'a>,
    alloc: Global,
    number: u32,
    text: &'a [u8],
    words: &mut Vec<Token<'a>>,
) -> Result<(&'a [u8], u32), BlifFault>
    requires some { 0 < length text.now }
    requires few { length text.now ≤ 67108864 }
    ensures read { IfOk result (λ r. ReadsOn reader.old number text.now reader.new (number + r.1) r.0.now) }
    ensures fault { IfErr result (λ e. (e ≡ BlifFault.OutOfMemory) ⊎ Reads reader.old (joined number (lines text.now)) (Err e)) }
    ensures count { IfOk result (λ r. length r.0.now + r.1 ≤ length text.now) }
    ensures shorter { IfOk result (λ r. length r.0.now < length text.now) }
{
    if let Some(row) = reader.row_at(text) {
        return match reader.read_row(row.pattern, row.output) {
            Ok(()) => Ok((row.after, 1)),
            Err(AllocError) => Err(BlifFault::OutOfMemory),
        };
    }
    let Ok(found) = words_in_place(text, words) else {
        return Err(BlifFault::OutOfMemory);
    };
    if let Some((is_cover, after)) = found {
        return match reader.read_alone(alloc, number, is_cover, words) {
            Ok(()) => Ok((after, 1)),
            Err(fault) => Err(fault),
        };
    }
    read_joined(reader, alloc, number, text, words)
}

// The same of any first line, whose physical lines are joined.
fn read_joined<'a>(
    reader: &mut Reader<'a>,
    alloc: Global,
    number: u32,
    text: &'a [u8],
    words: &mut Vec<Token<'a>>,
) -> Result<(&'a [u8], u32), BlifFault>
    requires some { 0 < length text.now }
    requires few { length text.now ≤ 67108864 }
    ensures read { IfOk result (λ r. ReadsOn reader.old number text.now reader.new (number + r.1) r.0.now) }
    ensures fault { IfErr result (λ e. (e ≡ BlifFault.OutOfMemory) ⊎ Reads reader.old (joined number (lines text.now)) (Err e)) }
    ensures count { IfOk result (λ r. length r.0.now + r.1 ≤ length text.now) }
    ensures shorter { IfOk result (λ r. length r.0.now < length text.now) }
{
    let (after, count) = next_joined(alloc, text, words)?;
    if !are_tokens(words) {
        return Err(BlifFault::Syntax { line: number });
    }
    match reader.read_words(alloc, number, words) {
        Ok(()) => Ok((after, count)),
        Err(fault) => Err(fault),
    }
}

// What the lines of a text say, one after another.
fn read_lines<'a>(reader: &mut Reader<'a>, alloc: Global, text: &'a [u8]) -> Result<(), BlifFault>
    requires few { length text.now ≤ 67108864 }
    requires none { reader.old ≡ start }
    ensures read { OnOk result (Reads start (lines_of text.now) (Ok reader.new)) }
    ensures fault { IfErr result (λ e. (e ≡ BlifFault.OutOfMemory) ⊎ Reads start (lines_of text.now) (Err e)) }
{
    let mut words = Vec::new(alloc);
    let mut rest = text;
    let mut number = 1u32;
    while !rest.is_empty() {
        match read_first(reader, alloc, number, rest, &mut words) {
            Ok((after, count)) => {
                rest = after;
                number += count;
            }
            Err(fault) => return Err(fault),
        }
    }
    Ok(())
}

/// The models of a text in BLIF, of at most 67,108,864 bytes, or its first fault.
/// A text without `.model` as its first statement is `NoModel`; else the first line with a fault decides,
/// and at one line `Syntax` comes before the others. After the last line come the instances, in order of the lines:
/// at one line `NoSuchModel`, then from left to right at each connection `NoSuchFormal` and `FormalTwice`, and then
/// `FormalMissing`; after all lines `Recursive`, and then `TooDeep`. It may run out of memory at any place.
pub fn read_blif(alloc: Global, bytes: &[u8]) -> Result<Design, BlifFault>
    requires { length bytes.now ≤ 67108864 }
    ensures read { IfOk result (λ design. BlifDesign bytes.now (Ok design)) }
    ensures fault { IfErr result (λ e. (e ≡ BlifFault.OutOfMemory) ⊎ BlifDesign bytes.now (Err e)) }
{
    if !has_model(alloc, bytes)? {
        return Err(BlifFault::NoModel);
    }
    let mut reader = Reader::new(alloc, key_of(bytes));
    read_lines(&mut reader, alloc, bytes)?;
    let models = reader.finish(alloc)?;
    match Design::new(alloc, models) {
        Ok(design) => Ok(design),
        Err(fault) => Err(fault),
    }
}
