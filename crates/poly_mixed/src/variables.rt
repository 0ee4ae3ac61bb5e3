//! Variables at the front of a text.
ghost use Rattle.std.specs.Prelude.{length, drop};
ghost use Rattle.poly_mixed.specs.private.Reading.{variable_at, net_at, name_at, IsScanned};
ghost use Rattle.text_core.specs.Scan.{name_of};

use crate::{Labels, PolyFault};
use text_core::{Class, after, front, front_index, front_name, value_in_base};

/// A word, or the bit or net of a rank.
#[derive(Clone, Copy)]
pub(crate) enum Variable {
    Word(usize),
    Rank(u32),
}

// The variable at the front of a text, and what stands after it.
pub(crate) fn read_variable<'a>(
    labels: &Labels,
    bytes: &'a [u8],
) -> Result<(Variable, &'a [u8]), PolyFault>
    ensures { IsScanned (variable_at labels.now bytes.now) result }
{
    match bytes {
        [b'@', rest @ ..] => read_net(labels, rest),
        [first, ..] if first.is_ascii_alphabetic() => read_name(labels, bytes),
        _ => Err(PolyFault::Syntax),
    }
}

// The net whose number stands after `@`.
fn read_net<'a>(labels: &Labels, bytes: &'a [u8]) -> Result<(Variable, &'a [u8]), PolyFault>
    ensures { IsScanned (net_at labels.now bytes.now) result }
{
    let digits = front(bytes, Class::Digit);
    if digits.is_empty() {
        return Err(PolyFault::Syntax);
    }
    match labels.net_rank(value_in_base(digits, 10)) {
        Some(rank) => Ok((Variable::Rank(rank), after(bytes, Class::Digit))),
        None => Err(PolyFault::NoSuchNet),
    }
}

// The word of a name, or the bit where an index stands after it.
fn read_name<'a>(labels: &Labels, bytes: &'a [u8]) -> Result<(Variable, &'a [u8]), PolyFault>
    ensures { IsScanned (name_at labels.now bytes.now (drop (length (name_of bytes.now)) bytes.now)) result }
{
    let name = front_name(bytes);
    let rest = &bytes[name.len()..];
    match front_index(rest) {
        Some((digits, rest)) => match labels.bit_rank(name, value_in_base(digits, 10)) {
            Some(rank) => Ok((Variable::Rank(rank), rest)),
            None => Err(PolyFault::NoSuchBit),
        },
        None => match labels.word_number(name) {
            Some(word) => Ok((Variable::Word(word), rest)),
            None => Err(PolyFault::Syntax),
        },
    }
}
