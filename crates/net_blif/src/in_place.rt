//! Lines that stand alone, read where they stand.
ghost use Rattle.std.specs.Prelude.{◌≡◌, ◌<◌, ◌≤◌, ◌∷◌, ◌++◌, [], ℕ, false, codes, length, slice_index, All, IsTrue, IfOk, IfSome, OnOk};
ghost use Rattle.std.specs.Str.Lines.{lines};
ghost use Rattle.text_core.specs.Lines.{is_blank as blank};
ghost use Rattle.net_blif.specs.Lines.{goes_on as line_goes_on};
ghost use Rattle.net_blif.specs.Statement.{IsToken};
ghost use Rattle.net_blif.specs.private.FirstLine.{as_word, with_names, IsWordByte, StandsAlone};

use crate::token::Token;
use crate::word_run::word_run;
use std::alloc::AllocError;

// The front of a text: bytes from `$` to `~`, as many as there are, the byte behind them, and what follows it.
#[derive(Drop)]
struct Front<'a> {
    word: &'a [u8],
    byte: u8,
    rest: &'a [u8],
}

// The front of a text that begins with so many bytes from `$` to `~` and has a byte behind them.
fn front_at(text: &[u8], size: usize) -> Front<'_>
    requires inside { size < length text.now }
    requires begins { (k : ℕ) → k < size → IsWordByte (slice_index text.now k) }
    ensures is { text.now ≡ result.word.now ++ result.byte ∷ result.rest.now }
    ensures word { All IsWordByte result.word.now }
    ensures shorter { length result.rest.now < length text.now }
{
    Front {
        word: &text[..size],
        byte: text[size],
        rest: &text[size + 1..],
    }
}

// The front of a text, which begins with at least so many bytes from `$` to `~`; none where all its bytes are such.
fn front_from(text: &[u8], start: usize) -> Option<Front<'_>>
    requires start { start ≤ length text.now }
    requires begins { (k : ℕ) → k < start → IsWordByte (slice_index text.now k) }
    ensures is { IfSome result (λ f. text.now ≡ f.word.now ++ f.byte ∷ f.rest.now) }
    ensures word { IfSome result (λ f. All IsWordByte f.word.now) }
    ensures shorter { IfSome result (λ f. length f.rest.now < length text.now) }
{
    for i in start..text.len() {
        let byte = text[i];
        if byte < b'$' || byte > b'~' {
            return Some(front_at(text, i));
        }
    }
    None
}

// The front of a text; none where all bytes are from `$` to `~`.
fn front_of(text: &[u8]) -> Option<Front<'_>>
    ensures is { IfSome result (λ f. text.now ≡ f.word.now ++ f.byte ∷ f.rest.now) }
    ensures word { IfSome result (λ f. All IsWordByte f.word.now) }
    ensures shorter { IfSome result (λ f. length f.rest.now < length text.now) }
{
    let (run, is_whole) = word_run(text);
    if is_whole {
        return Some(front_at(text, run));
    }
    front_from(text, run)
}

fn is_blank(byte: u8) -> bool
    ensures { result ≡ blank byte }
{
    byte == b' ' || byte == b'\t'
}

// Whether a word has at most 255 bytes, and its last is no `\`.
fn may_stand(word: &[u8]) -> bool
    ensures short { IsTrue result → length word.now ≤ 255 }
    ensures ends { IsTrue result → line_goes_on word.now ≡ false }
{
    match word {
        [.., last] => word.len() <= 255 && *last != b'\\',
        [] => true,
    }
}

// The text behind the end of a line: LF, or CR and LF.
fn after_end(byte: u8, rest: &[u8]) -> Option<&[u8]>
    ensures line { IfSome result (λ after. lines (byte ∷ rest.now) ≡ [] ∷ lines after.now) }
    ensures within { IfSome result (λ after. length after.now ≤ length rest.now) }
{
    if byte == b'\n' {
        return Some(rest);
    }
    match rest {
        [first, after @ ..] => {
            if byte == b'\r' && *first == b'\n' {
                Some(after)
            } else {
                None
            }
        }
        [] => None,
    }
}

// A run of bytes at the end of the words, unless it is empty.
fn push_word<'a>(words: &mut Vec<Token<'a>>, word: &'a [u8]) -> Result<(), AllocError>
    ensures { OnOk result (words.new.items ≡ words.old.items ++ as_word word.now) }
{
    if !word.is_empty() {
        let Ok(()) = words.push(Token::new(word)) else {
            return Err(AllocError);
        };
    }
    Ok(())
}

// Puts the tokens of the first line of a text into `words`, and gives the text after it. It gives a text only where the
// line stands alone, ends with LF, and each of its tokens has 1 to 255 bytes from `$` to `~`.
fn line_in_place<'a>(
    text: &'a [u8],
    words: &mut Vec<Token<'a>>,
) -> Result<Option<&'a [u8]>, AllocError>
    ensures line { IfOk result (λ found. IfSome found (λ after. StandsAlone text.now words.new.items after.now)) }
    ensures tokens { IfOk result (λ found. IfSome found (λ after. All IsToken words.new.items)) }
    ensures shorter { IfOk result (λ found. IfSome found (λ after. length after.now < length text.now)) }
{
    words.clear();
    let mut rest = text;
    while let Some(front) = front_of(rest) {
        if !may_stand(front.word) {
            return Ok(None);
        }
        push_word(words, front.word)?;
        if !is_blank(front.byte) {
            return Ok(after_end(front.byte, front.rest));
        }
        rest = front.rest;
    }
    Ok(None)
}

// Whether a text begins with `.names` and a space, and what stands behind these, or else the whole text.
fn behind_names(text: &[u8]) -> (bool, &[u8])
    ensures names { IsTrue result.0 → text.now ≡ codes ".names" ++ 32 ∷ result.1.now }
    ensures other { result.0 ≡ false → result.1.now ≡ text.now }
    ensures within { length result.1.now ≤ length text.now }
{
    match text.strip_prefix(b".names ") {
        Some(rest) => (true, rest),
        None => (false, text),
    }
}

/// Puts the tokens of the first line of a text into `words`, but for a first one that is `.names` and stands before a space,
/// and gives whether there is such a one, and the text after the line. It gives these only where the line stands alone,
/// ends with LF, and each of its tokens has 1 to 255 bytes from `$` to `~`.
pub fn words_in_place<'a>(
    text: &'a [u8],
    words: &mut Vec<Token<'a>>,
) -> Result<Option<(bool, &'a [u8])>, AllocError>
    ensures line { IfOk result (λ found. IfSome found (λ r. StandsAlone text.now (with_names r.0 words.new.items) r.1.now)) }
    ensures tokens { IfOk result (λ found. IfSome found (λ r. All IsToken words.new.items)) }
    ensures shorter { IfOk result (λ found. IfSome found (λ r. length r.1.now < length text.now)) }
{
    let (is_cover, rest) = behind_names(text);
    let Some(after) = line_in_place(rest, words)? else {
        return Ok(None);
    };
    Ok(Some((is_cover, after)))
}
