//! Lines as a last `\` joins them.
ghost use Rattle.std.specs.Prelude.{◌≡◌, ◌++◌, ◌+◌, ◌<◌, ◌≤◌, length, IfOk, OnOk, if◌then◌else◌};
ghost use Rattle.text_core.specs.Lines.{tokens_of};
ghost use Rattle.net_blif.specs.Lines.{clean as cleaned, goes_on as line_goes_on, is_trailing as trails, trim_end as trimmed, without_last};
ghost use Rattle.net_blif.specs.private.FirstLine.{BeginsWith};

use crate::spelling::all_words;
use crate::token::Token;
use std::alloc::{AllocError, Global};
use text_core::{before_comment, next_line};

fn is_trailing(byte: u8) -> bool
    ensures { result ≡ trails byte }
{
    byte == b' ' || byte == b'\t' || byte == b'\r'
}

// A line without the spaces, tabs and CR at its end.
fn trim_end(mut line: &[u8]) -> &[u8]
    ensures { result.now ≡ trimmed line.entry.now }
{
    while let [front @ .., last] = line {
        if !is_trailing(*last) {
            return line;
        }
        line = front;
    }
    line
}

// What a physical line says, and whether the next line is joined to it.
fn part(line: &[u8]) -> (&[u8], bool)
    ensures goes_on { result.1 ≡ line_goes_on (cleaned line.now) }
    ensures front { result.0.now ≡ (if result.1 then without_last (cleaned line.now) else cleaned line.now) }
{
    match trim_end(before_comment(line)) {
        [front @ .., b'\\'] => (front, true),
        whole => (whole, false),
    }
}

// The tokens of a line behind those of a list.
fn add_words<'a>(
    alloc: Global,
    line: &'a [u8],
    words: &mut Vec<Token<'a>>,
) -> Result<(), AllocError>
    ensures { OnOk result (words.new.items ≡ words.old.items ++ tokens_of line.now) }
{
    let mut more = all_words(alloc, line)?;
    words.append(&mut more)?;
    Ok(())
}

/// Puts the tokens of the first joined line of a text into `words`, and gives the text after it and the count of physical
/// lines.
pub fn next_joined<'a>(
    alloc: Global,
    text: &'a [u8],
    words: &mut Vec<Token<'a>>,
) -> Result<(&'a [u8], u32), AllocError>
    requires some { 0 < length text.now }
    requires few { length text.now ≤ 67108864 }
    ensures line { IfOk result (λ r. BeginsWith text.now words.new.items r.1 r.0.now) }
    ensures count { IfOk result (λ r. length r.0.now + r.1 ≤ length text.now) }
    ensures shorter { IfOk result (λ r. length r.0.now < length text.now) }
{
    let (physical, after) = next_line(text);
    let (front, more) = part(physical);
    words.clear();
    add_words(alloc, front, words)?;
    let mut goes_on = more;
    let mut rest = after;
    let mut count = 1;
    while goes_on && !rest.is_empty() {
        let (physical, after) = next_line(rest);
        let (front, more) = part(physical);
        add_words(alloc, front, words)?;
        goes_on = more;
        rest = after;
        count += 1;
    }
    Ok((rest, count))
}
