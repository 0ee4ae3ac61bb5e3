//! Tokens of a line.
ghost use Rattle.std.specs.Prelude.{◌≡◌};

use std::marker::Model;

/// A token of a line. Contracts see its bytes.
#[derive(Drop)]
pub struct Token<'a> {
    bytes: &'a [u8],
}

impl<'a> Model for Token<'a> {
    ghost use Rattle.std.specs.Prelude.{List, ℕ};

    ghost Value = { List ℕ };

    ghost view = { λ token. token.bytes.now };
}

impl<'a> Token<'a> {
    /// The token of these bytes.
    pub fn new(bytes: &'a [u8]) -> Token<'a>
        ensures { result ≡ bytes.now }
    {
        Token { bytes }
    }

    /// Its bytes.
    pub fn bytes(&self) -> &'a [u8]
        ensures { result.now ≡ self.now }
    {
        self.bytes
    }
}

/// Some tokens of a line, in order. Contracts see the list of them.
#[derive(Drop)]
pub struct Tokens<'w, 'a> {
    list: &'w [Token<'a>],
}

impl<'w, 'a> Model for Tokens<'w, 'a> {
    ghost use Rattle.std.specs.Prelude.{List, ℕ};

    ghost Value = { List (List ℕ) };

    ghost view = { λ tokens. tokens.list.now };
}

impl<'w, 'a> Tokens<'w, 'a> {
    /// The tokens of the list.
    pub fn new(list: &'w [Token<'a>]) -> Tokens<'w, 'a>
        ensures { result ≡ list.now }
    {
        Tokens { list }
    }

    /// The tokens, in order.
    pub fn as_slice(&self) -> &'w [Token<'a>]
        ensures { result.now ≡ self.now }
    {
        self.list
    }
}
