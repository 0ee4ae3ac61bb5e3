//! Names of words.
ghost use Rattle.std.specs.Prelude.{◌↔◌, IsTrue, EachIndex, slice_index};
ghost use Rattle.text_core.specs.Names.{IsName, IsNameByte};

/// Whether a token is an ASCII letter and then letters, digits and `_`, at most 255 bytes.
pub fn is_name(token: &[u8]) -> bool
    ensures { IsTrue result ↔ IsName token.now }
{
    match token {
        [first, ..] => first.is_ascii_alphabetic() && token.len() <= 255 && are_name_bytes(token),
        [] => false,
    }
}

// Whether each byte is a letter, a digit or `_`.
fn are_name_bytes(bytes: &[u8]) -> bool
    ensures { IsTrue result ↔ EachIndex bytes.now (λ k. IsNameByte (slice_index bytes.now k)) }
{
    bytes
        .iter()
        .all(|b| b.is_ascii_alphanumeric() || *b == b'_')
}
