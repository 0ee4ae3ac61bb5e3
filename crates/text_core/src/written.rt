//! Numbers as they are written.
ghost use Rattle.std.specs.Prelude.{◌≡◌, ◌<◌, ◌++◌, false, OnOk};
ghost use Rattle.std.specs.Fmt.{digit_glyph, digits};
ghost use Rattle.text_core.specs.Numbers.{hex_text};

use std::alloc::AllocError;

// The digit of this value.
fn glyph(digit: u8) -> u8
    requires { digit < 16 }
    ensures { result ≡ digit_glyph false digit }
{
    if digit < 10 {
        b'0' + digit
    } else {
        b'a' + (digit - 10)
    }
}

// Appends the digits of a number, the highest first.
fn push_digits(text: &mut Vec<u8>, number: u128) -> Result<(), AllocError>
    ensures { OnOk result (text.new.items ≡ text.old.items ++ digits 16 false number) }
{
    let last = glyph((number % 16) as u8);
    if number < 16 {
        text.push(last)?;
        return Ok(());
    }
    push_digits(text, number / 16)?;
    text.push(last)?;
    Ok(())
}

/// Appends a number in hexadecimal: `0x` and its digits in lower case, without leading zeros.
pub fn push_hex(text: &mut Vec<u8>, number: u128) -> Result<(), AllocError>
    ensures { OnOk result (text.new.items ≡ text.old.items ++ hex_text number) }
{
    text.extend_from_slice(b"0x")?;
    push_digits(text, number)?;
    Ok(())
}
