//! Lines and tokens.
ghost use Rattle.std.specs.Prelude.{◌≡◌, ◌≢◌, ◌<◌, ◌≤◌, ◌∷◌, ◌↔◌, ℕ, length, slice_index, map, IfOk, IfSome, IfNone, IsTrue, All};
ghost use Rattle.std.specs.Str.Lines.{lines, strip_carriage_return};
ghost use Rattle.text_core.specs.Lines.{tokens_of, IsPrinting, IsPlain};
ghost use Rattle.text_core.specs.Lines.{before_comment as text_before_comment};

use std::alloc::{AllocError, Global};

/// The first line of a text that is not empty, without its LF and the CR before that, and the text after it.
pub fn next_line(text: &[u8]) -> (&[u8], &[u8])
    requires { 0 < length text.now }
    ensures lines { lines text.now ≡ result.0.now ∷ lines result.1.now }
    ensures shorter { length result.1.now < length text.now }
{
    let end = line_end(text);
    if end < text.len() {
        (without_return(&text[..end]), &text[end + 1..])
    } else {
        (text, &text[end..])
    }
}

// Where the first LF stands, or the length where there is none.
fn line_end(text: &[u8]) -> usize
    ensures within { result ≤ length text.now }
    ensures before { (k : ℕ) → k < result → slice_index text.now k ≢ 10 }
    ensures found { result < length text.now → slice_index text.now result ≡ 10 }
{
    for (i, byte) in text.iter().enumerate() {
        if *byte == b'\n' {
            return i;
        }
    }
    text.len()
}

// A line without the CR at its end.
fn without_return(line: &[u8]) -> &[u8]
    ensures { result.now ≡ strip_carriage_return line.now }
{
    match line {
        [front @ .., b'\r'] => front,
        _ => line,
    }
}

/// A line up to its first `#`.
pub fn before_comment(line: &[u8]) -> &[u8]
    ensures { result.now ≡ text_before_comment line.now }
{
    for (i, byte) in line.iter().enumerate() {
        if *byte == b'#' {
            return &line[..i];
        }
    }
    line
}

/// The tokens of a line, which spaces and tabs separate.
pub fn tokens<'a>(alloc: Global, line: &'a [u8]) -> Result<Vec<&'a [u8]>, AllocError>
    ensures { IfOk result (λ v. map (λ token. token.now) v.items ≡ tokens_of line.now) }
{
    line.split(|&b| b == b' ' || b == b'\t')
        .filter(|token| !token.is_empty())
        .collect(alloc)
}

/// Whether each byte of a token prints, from `!` to `~`.
pub fn is_printing(token: &[u8]) -> bool
    ensures { IsTrue result ↔ IsPrinting token.now }
{
    token.iter().all(|&b| 0x21 <= b && b <= 0x7e)
}

/// The text of bytes in ASCII; none comes only where some byte is no ASCII.
pub fn ascii_text(bytes: &[u8]) -> Option<&str>
    ensures found { IfSome result (λ text. text.now ≡ bytes.now) }
    ensures none { IfNone result (All (λ b. b < 128) bytes.now → ⊥) }
{
    match str::from_utf8(bytes) {
        Ok(text) => Some(text),
        Err(_) => None,
    }
}

/// The text of a token each of whose bytes prints.
pub fn printing_text(token: &[u8]) -> Option<&str>
    ensures found { IfSome result (λ text. (text.now ≡ token.now) × IsPrinting token.now) }
    ensures none { IfNone result (IsPrinting token.now → ⊥) }
{
    if is_printing(token) {
        ascii_text(token)
    } else {
        None
    }
}

// Whether each byte of a token prints and is no `\`.
fn is_plain(token: &[u8]) -> bool
    ensures { IsTrue result ↔ IsPlain token.now }
{
    token.iter().all(|&b| 0x21 <= b && b <= 0x7e && b != b'\\')
}

/// The text of a token each of whose bytes prints and is no `\`.
pub fn plain_text(token: &[u8]) -> Option<&str>
    ensures found { IfSome result (λ text. (text.now ≡ token.now) × IsPlain token.now) }
    ensures none { IfNone result (IsPlain token.now → ⊥) }
{
    if is_plain(token) {
        ascii_text(token)
    } else {
        None
    }
}
