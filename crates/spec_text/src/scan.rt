//! Tokens at the front of a text, each as long as possible.
ghost use Rattle.std.specs.Prelude.{◌≡◌, ◌≤◌, length};
ghost use Rattle.spec_text.specs.private.Scanning.{hex_run, number_front, word_front, any_front, front_of, IsSeenAs, IsSeenAt};

use text_core::{Class, front, front_name, value_in_base};

/// A token; a number that is not below 2^64 is not kept.
#[derive(Clone, Copy)]
pub(crate) enum Scanned<'a> {
    Named(&'a [u8]),
    HexNumber(Option<u64>),
    DecimalNumber(Option<u64>),
    EqualsSign,
    PlusSign,
    TimesSign,
    PowerSign,
}

// The hexadecimal digits after `0x` at the front.
fn hex_digits(bytes: &[u8]) -> &[u8]
    ensures value { result.now ≡ hex_run bytes.now }
    ensures within { length result.now ≤ length bytes.now }
{
    match bytes {
        [zero, x, rest @ ..] => {
            if *zero == b'0' && *x == b'x' {
                front(rest, Class::HexDigit)
            } else {
                &[]
            }
        }
        _ => &[],
    }
}

// The number at the front, and how many bytes it has.
fn number(bytes: &[u8]) -> (Scanned<'_>, usize)
    requires { length bytes.now ≤ 67108864 }
    ensures { IsSeenAs (number_front bytes.now) result }
{
    let digits = hex_digits(bytes);
    if digits.len() > 0 {
        return (
            Scanned::HexNumber(value_in_base(digits, 16)),
            digits.len() + 2,
        );
    }
    let digits = front(bytes, Class::Digit);
    (
        Scanned::DecimalNumber(value_in_base(digits, 10)),
        digits.len(),
    )
}

// The number or name at the front, by its first byte, and how many bytes it has.
fn word(bytes: &[u8], first: u8) -> Option<(Scanned<'_>, usize)>
    requires { length bytes.now ≤ 67108864 }
    ensures { IsSeenAt (word_front first bytes.now) result }
{
    if first >= b'0' && first <= b'9' {
        return Some(number(bytes));
    }
    if (first >= b'A' && first <= b'Z') || (first >= b'a' && first <= b'z') {
        let name = front_name(bytes);
        return Some((Scanned::Named(name), name.len()));
    }
    None
}

// The token at the front, by its first byte, and how many bytes it has.
fn any(bytes: &[u8], first: u8) -> Option<(Scanned<'_>, usize)>
    requires { length bytes.now ≤ 67108864 }
    ensures { IsSeenAt (any_front first bytes.now) result }
{
    match first {
        b'=' => Some((Scanned::EqualsSign, 1)),
        b'+' => Some((Scanned::PlusSign, 1)),
        b'*' => Some((Scanned::TimesSign, 1)),
        b'^' => Some((Scanned::PowerSign, 1)),
        _ => word(bytes, first),
    }
}

/// The token at the front, and how many bytes it has.
pub(crate) fn token(bytes: &[u8]) -> Option<(Scanned<'_>, usize)>
    requires { length bytes.now ≤ 67108864 }
    ensures { IsSeenAt (front_of bytes.now) result }
{
    match bytes {
        [] => None,
        [first, ..] => any(bytes, *first),
    }
}
