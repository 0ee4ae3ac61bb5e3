//! Runs of bytes at the front of a text, each as long as it can be.
ghost use Rattle.std.specs.Prelude.{◌≡◌, ◌≤◌, length, option_map};
ghost use Rattle.text_core.specs.Scan.{is_in, is_digit as is_digit_byte, is_hex_digit as is_hex_byte, is_letter as is_letter_byte, run, after as after_run, skip as skipped, name_of, index_of, begins_hex as is_hex_front};

/// Kinds of bytes.
#[derive(Clone, Copy)]
pub enum Class {
    Blank,
    White,
    Digit,
    HexDigit,
    NameByte,
}

fn is_digit(byte: u8) -> bool
    ensures { result ≡ is_digit_byte byte }
{
    byte >= b'0' && byte <= b'9'
}

fn is_hex_digit(byte: u8) -> bool
    ensures { result ≡ is_hex_byte byte }
{
    is_digit(byte) || (byte >= b'A' && byte <= b'F') || (byte >= b'a' && byte <= b'f')
}

fn is_letter(byte: u8) -> bool
    ensures { result ≡ is_letter_byte byte }
{
    (byte >= b'A' && byte <= b'Z') || (byte >= b'a' && byte <= b'z')
}

fn is_of(class: Class, byte: u8) -> bool
    ensures { result ≡ is_in class byte }
{
    match class {
        Class::Blank => byte == b' ' || byte == b'\t',
        Class::White => byte == b' ' || byte == b'\t' || byte == b'\n' || byte == b'\r',
        Class::Digit => is_digit(byte),
        Class::HexDigit => is_hex_digit(byte),
        Class::NameByte => is_letter(byte) || is_digit(byte) || byte == b'_',
    }
}

/// The run of bytes of a class at the front.
pub fn front(bytes: &[u8], class: Class) -> &[u8]
    ensures value { result.now ≡ run (is_in class) bytes.now }
    ensures within { length result.now ≤ length bytes.now }
{
    for (i, byte) in bytes.iter().enumerate() {
        if !is_of(class, *byte) {
            return &bytes[..i];
        }
    }
    bytes
}

/// What stands after the run of bytes of a class at the front.
pub fn after(bytes: &[u8], class: Class) -> &[u8]
    ensures { result.now ≡ after_run (is_in class) bytes.now }
{
    let front = front(bytes, class);
    &bytes[front.len()..]
}

/// The text without the blanks at the front.
pub fn skip_blanks(bytes: &[u8]) -> &[u8]
    ensures { result.now ≡ skipped bytes.now }
{
    after(bytes, Class::Blank)
}

/// The name at the front, at most 255 bytes.
pub fn front_name(bytes: &[u8]) -> &[u8]
    ensures value { result.now ≡ name_of bytes.now }
    ensures within { length result.now ≤ length bytes.now }
{
    let front = front(bytes, Class::NameByte);
    if front.len() > 255 {
        &front[..255]
    } else {
        front
    }
}

/// The digits of an index `[i]` at the front, and what stands after it.
pub fn front_index(bytes: &[u8]) -> Option<(&[u8], &[u8])>
    ensures { option_map (λ found. (found.0.now, found.1.now)) result ≡ index_of bytes.now }
{
    let [b'[', rest @ ..] = bytes else {
        return None;
    };
    let digits = front(rest, Class::Digit);
    match after(rest, Class::Digit) {
        [b']', rest @ ..] if !digits.is_empty() => Some((digits, rest)),
        _ => None,
    }
}

/// Whether a hexadecimal number stands at the front: `0x` and a digit.
pub fn begins_hex(bytes: &[u8]) -> bool
    ensures { result ≡ is_hex_front bytes.now }
{
    match bytes {
        [b'0', b'x', rest @ ..] => !front(rest, Class::HexDigit).is_empty(),
        _ => false,
    }
}
