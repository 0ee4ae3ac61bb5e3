//! The text of a table.
ghost use Rattle.std.specs.Prelude.{◌≡◌, ◌⊎◌, ◌↔◌, ◌≤◌, ◌<◌, ◌+◌, ◌*◌, ◌^◌, ◌∷◌, ℕ, [], codes, map, IfOk, IfErr, IfNone, IfSome, IsTrue, List, Ok, Err};
ghost use Rattle.std.specs.Str.Lines.{lines};
ghost use Rattle.text_core.specs.Numbers.{AreDigits, IsDigit, IsHex};
ghost use Rattle.lift_table.specs.Small.{IsSmall};
ghost use Rattle.lift_table.specs.TableText.{TableOutcome, IsHead};
ghost use Rattle.lift_table.specs.private.Reading.{HeadOutcome, RowOutcome, TokenOutcome, TokensOutcome};

use crate::fault::TableFault;
use crate::small::two_to;
use std::alloc::{AllocError, Global};
use text_core::{next_line, read_hex, tokens};

/// The values of the text of a table of so many words of k bits, by row. A fault is that of the first line that has one.
pub fn read_table(alloc: Global, bytes: &[u8], k: u32, words: u32) -> Result<Vec<u64>, TableFault>
    requires { IsSmall k words }
    ensures table { IfOk result (λ table. TableOutcome k (2 ^ (k * words)) bytes.now (Ok table.items)) }
    ensures fault { IfErr result (λ e. (e ≡ TableFault.OutOfMemory) ⊎ TableOutcome k (2 ^ (k * words)) bytes.now (Err e)) }
{
    let rows = two_to(k * words);
    let mut rest = match read_head(alloc, bytes) {
        Ok(rest) => rest,
        Err(fault) => return Err(fault),
    };
    let mut table = Vec::new(alloc);
    for row in 0..rows {
        let (value, after) = match read_row(alloc, rest, k, row + 2) {
            Ok(read) => read,
            Err(fault) => return Err(fault),
        };
        table.push(value)?;
        rest = after;
    }
    if rest.is_empty() {
        Ok(table)
    } else {
        let (_surplus, _after) = next_line(rest);
        Err(TableFault::Syntax { line: rows + 2 })
    }
}

// What follows the head of a table.
fn read_head(alloc: Global, bytes: &[u8]) -> Result<&[u8], TableFault>
    ensures rest { IfOk result (λ rest. HeadOutcome (lines bytes.now) (Ok (lines rest.now))) }
    ensures fault { IfErr result (λ e. (e ≡ TableFault.OutOfMemory) ⊎ HeadOutcome (lines bytes.now) (Err e)) }
{
    if bytes.is_empty() {
        return Err(TableFault::Syntax { line: 1 });
    }
    let (text, rest) = next_line(bytes);
    if is_head(alloc, text)? {
        Ok(rest)
    } else {
        Err(TableFault::Syntax { line: 1 })
    }
}

// Whether a line is the head of a table.
fn is_head(alloc: Global, line: &[u8]) -> Result<bool, AllocError>
    ensures { IfOk result (λ is. IsTrue is ↔ IsHead line.now) }
{
    let tokens = tokens(alloc, line)?;
    Ok(are_head(tokens.as_slice()))
}

// Whether tokens are the head of a table.
fn are_head(tokens: &[&[u8]]) -> bool
    ensures { IsTrue result ↔ (map (λ token. token.now) tokens.now ≡ codes "gftable" ∷ codes "1" ∷ []) }
{
    match tokens {
        [name, version] => is_token(name, b"gftable") && is_token(version, b"1"),
        _ => false,
    }
}

fn is_token(token: &[u8], text: &[u8]) -> bool
    ensures { IsTrue result ↔ (token.now ≡ text.now) }
{
    token == text
}

// The value of the row of the first line, which has this number, and what follows it.
fn read_row(alloc: Global, bytes: &[u8], k: u32, line: u32) -> Result<(u64, &[u8]), TableFault>
    requires { k ≤ 8 }
    ensures row { IfOk result (λ read. RowOutcome k line (lines bytes.now) (Ok (read.0, lines read.1.now))) }
    ensures fault { IfErr result (λ e. (e ≡ TableFault.OutOfMemory) ⊎ RowOutcome k line (lines bytes.now) (Err e)) }
{
    if bytes.is_empty() {
        return Err(TableFault::Syntax { line });
    }
    let (text, rest) = next_line(bytes);
    let tokens = tokens(alloc, text)?;
    match value_of(tokens.as_slice(), k, line) {
        Ok(value) => Ok((value, rest)),
        Err(fault) => Err(fault),
    }
}

// The value of the tokens of a line with this number.
fn value_of(tokens: &[&[u8]], k: u32, line: u32) -> Result<u64, TableFault>
    requires { k ≤ 8 }
    ensures { TokensOutcome k line (map (λ token. token.now) tokens.now) result }
{
    match tokens {
        [token] => number_of(token, k, line),
        _ => Err(TableFault::Syntax { line }),
    }
}

// The value of a token in a line with this number.
fn number_of(token: &[u8], k: u32, line: u32) -> Result<u64, TableFault>
    requires { k ≤ 8 }
    ensures { TokenOutcome k line token.now result }
{
    match read_hex(token, u128::from(two_to(k) - 1)) {
        Some(value) => Ok(value as u64),
        None => {
            if is_hex(token) {
                Err(TableFault::TooLarge { line })
            } else {
                Err(TableFault::Syntax { line })
            }
        }
    }
}

// Whether a token is a hexadecimal number.
fn is_hex(token: &[u8]) -> bool
    ensures { IsTrue result ↔ ((value : ℕ) × IsHex token.now value) }
{
    match after_prefix(token) {
        Some(digits) => are_digits(digits),
        None => false,
    }
}

// What follows `0x`.
fn after_prefix(token: &[u8]) -> Option<&[u8]>
    ensures some { IfSome result (λ digits. token.now ≡ 48 ∷ 120 ∷ digits.now) }
    ensures none { IfNone result ((digits : List ℕ) → token.now ≡ 48 ∷ 120 ∷ digits → ⊥) }
{
    match token {
        [b'0', b'x', digits @ ..] => Some(digits),
        _ => None,
    }
}

// Whether there are hexadecimal digits and nothing else.
fn are_digits(digits: &[u8]) -> bool
    ensures { IsTrue result ↔ AreDigits 16 digits.now }
{
    !digits.is_empty() && digits.iter().all(|&b| is_digit(b))
}

// Whether a byte is a hexadecimal digit.
fn is_digit(byte: u8) -> bool
    ensures { IsTrue result ↔ IsDigit 16 byte }
{
    match byte {
        b'0'..=b'9' | b'A'..=b'F' | b'a'..=b'f' => true,
        _ => false,
    }
}
