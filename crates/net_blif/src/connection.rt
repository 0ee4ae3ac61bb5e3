//! Connections of instances.
ghost use Rattle.std.specs.Prelude.{◌≡◌};
ghost use Rattle.text_core.specs.Lines.{IsPrinting};
ghost use Rattle.net_blif.specs.Connection.{actual_of, formal_of, is_connection as connection_is};

use crate::token::Token;

/// What stands before the first `=` of a token and what stands behind it.
pub fn sides(token: &[u8]) -> (&[u8], &[u8])
    ensures formal { result.0.now ≡ formal_of token.now }
    ensures actual { result.1.now ≡ actual_of token.now }
    ensures printing { IsPrinting token.now → IsPrinting result.0.now × IsPrinting result.1.now }
{
    for (i, byte) in token.iter().enumerate() {
        if *byte == b'=' {
            return (&token[..i], &token[i + 1..]);
        }
    }
    (token, &token[..0])
}

/// Whether a token has a `=` with something on both sides.
pub fn is_connection(token: &Token<'_>) -> bool
    ensures { result ≡ connection_is token.now }
{
    let (formal, actual) = sides(token.bytes());
    !formal.is_empty() && !actual.is_empty()
}
