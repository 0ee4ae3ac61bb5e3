//! Tokens at the front of a line.
ghost use Rattle.std.specs.Prelude.{◌≡◌};
ghost use Rattle.cert_check.specs.Scan.{is_blank as is_blank_text, after_word as after_this_word, after_first as after_this_byte, after_sign as after_this_sign, digits_first as digits_in_front, digits_in, digits_at as digits_of, indexed_in, indexed_at as indexed_of};
ghost use Rattle.cert_check.specs.private.Scanning.{left_of, two_of, three_of};

use text_core::{Class, begins_hex, front, front_index, front_name, skip_blanks};

/// Whether nothing but spaces and tabs is left.
pub(crate) fn is_blank(bytes: &[u8]) -> bool
    ensures { result ≡ is_blank_text bytes.now }
{
    skip_blanks(bytes).is_empty()
}

/// What stands after this word of letters, digits and `_`, where it stands at the front.
pub(crate) fn after_word<'a>(bytes: &'a [u8], word: &[u8]) -> Option<&'a [u8]>
    ensures { left_of result ≡ after_this_word word.now bytes.now }
{
    let bytes = skip_blanks(bytes);
    let found = front(bytes, Class::NameByte);
    if found == word {
        Some(&bytes[found.len()..])
    } else {
        None
    }
}

// What stands after this byte, where it is the first.
fn after_first(bytes: &[u8], sign: u8) -> Option<&[u8]>
    ensures { left_of result ≡ after_this_byte sign bytes.now }
{
    match bytes {
        [first, rest @ ..] if *first == sign => Some(rest),
        _ => None,
    }
}

/// What stands after this sign, where it stands at the front.
pub(crate) fn after_sign(bytes: &[u8], sign: u8) -> Option<&[u8]>
    ensures { left_of result ≡ after_this_sign sign bytes.now }
{
    after_first(skip_blanks(bytes), sign)
}

/// The decimal digits that are the first bytes, at least one, and what stands after them.
pub(crate) fn digits_first(bytes: &[u8]) -> Option<(&[u8], &[u8])>
    ensures { two_of result ≡ digits_in_front bytes.now }
{
    let digits = front(bytes, Class::Digit);
    if digits.is_empty() {
        None
    } else {
        Some((digits, &bytes[digits.len()..]))
    }
}

// The same, unless they begin a hexadecimal number.
fn digits_or_none(bytes: &[u8]) -> Option<(&[u8], &[u8])>
    ensures { two_of result ≡ digits_in bytes.now }
{
    if begins_hex(bytes) {
        None
    } else {
        digits_first(bytes)
    }
}

/// The decimal digits of a number at the front, and what stands after them.
pub(crate) fn digits_at(bytes: &[u8]) -> Option<(&[u8], &[u8])>
    ensures { two_of result ≡ digits_of bytes.now }
{
    digits_or_none(skip_blanks(bytes))
}

// The name at the front with its index.
fn name_and_index(bytes: &[u8]) -> Option<(&[u8], &[u8], &[u8])>
    ensures { three_of result ≡ indexed_in bytes.now }
{
    match bytes {
        [first, ..] if first.is_ascii_alphabetic() => {
            let name = front_name(bytes);
            match front_index(&bytes[name.len()..]) {
                Some((digits, rest)) => Some((name, digits, rest)),
                None => None,
            }
        }
        _ => None,
    }
}

/// The name of `W[i]` at the front, the digits of its index, and what stands after it.
pub(crate) fn indexed_at(bytes: &[u8]) -> Option<(&[u8], &[u8], &[u8])>
    ensures { three_of result ≡ indexed_of bytes.now }
{
    name_and_index(skip_blanks(bytes))
}
