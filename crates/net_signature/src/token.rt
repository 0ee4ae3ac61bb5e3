//! Tokens.
ghost use Rattle.std.specs.Prelude.{◌≡◌, ◌↔◌, IsTrue};

/// Whether a token is this text.
pub fn is_token(token: &[u8], text: &[u8]) -> bool
    ensures { IsTrue result ↔ (token.now ≡ text.now) }
{
    token == text
}
