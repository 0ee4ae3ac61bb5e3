//! Bytes that a line of the rows cannot have, written otherwise: `\xNN` is the byte with this number, `\\` is `\`, and `\-`
//! is nothing.
ghost use Rattle.std.specs.Prelude.{◌≤◌, length};

use std::alloc::{AllocError, Global};

/// The bytes that a part of a line stands for.
pub fn plain(alloc: Global, text: &[u8]) -> Result<Vec<u8>, AllocError> {
    let mut bytes = Vec::new(alloc);
    let mut rest = text;
    while let [first, after @ ..] = rest {
        let (byte, left) = next(*first, after);
        if let Some(byte) = byte {
            bytes.push(byte)?;
        }
        rest = left;
    }
    Ok(bytes)
}

// The byte that a text begins with, where there is one, and what is left.
fn next(first: u8, after: &[u8]) -> (Option<u8>, &[u8])
    ensures { length result.1.now ≤ length after.now }
{
    match (first, after) {
        (b'\\', [b'x', high, low, left @ ..]) => (
            Some(digit(*high).wrapping_mul(16).wrapping_add(digit(*low))),
            left,
        ),
        (b'\\', [b'-', left @ ..]) => (None, left),
        (b'\\', [b'\\', left @ ..]) => (Some(b'\\'), left),
        _ => (Some(first), after),
    }
}

// The value of a hexadecimal digit in lower case.
fn digit(byte: u8) -> u8 {
    match byte {
        b'0'..=b'9' => byte - b'0',
        b'a'..=b'f' => byte - b'a' + 10,
        _ => 0,
    }
}
