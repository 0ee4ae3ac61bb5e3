//! The tokens of a text, one after another.
ghost use Rattle.std.specs.Prelude.{◌≡◌, ◌≤◌, ◌<◌, ◌+◌, ◌∷◌, [], ℕ, false, length};
ghost use Rattle.net_verilog.specs.Tokens.{tokens_from, tokens_of, is_end, unless_end};

use crate::Kind;
use crate::piece::piece;

/// A token: what it is, its bytes, and its line from 1.
#[derive(Clone, Copy)]
pub struct Token<'a> {
    pub kind: Kind,
    pub text: &'a [u8],
    pub line: u32,
}

/// A place in a text: what is left of it, the line, and whether all of the line so far is white.
#[derive(Clone, Copy)]
pub struct Cursor<'a> {
    rest: &'a [u8],
    line: u32,
    first: bool,
    ghost short: { line + length rest.now ≤ 67108865 },
}

impl<'a> Cursor<'a> {
    ghost use Rattle.net_verilog.specs.private.Places.{left, value_of, Prints};

    /// The beginning of a text.
    pub fn new(text: &'a [u8]) -> Cursor<'a>
        requires { length text.now ≤ 67108864 }
        ensures { left result ≡ tokens_of text.now }
    {
        Cursor {
            rest: text,
            line: 1,
            first: true,
        }
    }

    // This place, with another answer to whether all of the line so far is white.
    fn with(&self, first: bool) -> Cursor<'a>
        ensures rest { result.rest.now ≡ self.now.rest.now }
        ensures line { result.line ≡ self.now.line }
        ensures first { result.first ≡ first }
    {
        Cursor {
            rest: self.rest,
            line: self.line,
            first,
        }
    }

    // The place after so many bytes.
    fn after(&self, count: usize, first: bool) -> Cursor<'a>
        requires { count ≤ length self.now.rest.now }
        ensures left { left result ≡ tokens_from count self.now.line first self.now.rest.now }
        ensures shorter { length result.rest.now + count ≡ length self.now.rest.now }
    {
        let mut place = self.with(first);
        let mut more = count;
        while more > 0 {
            place = place.after_byte();
            more -= 1;
        }
        place
    }

    // The place after one byte, which does not begin a part.
    fn after_byte(&self) -> Cursor<'a>
        requires { 0 < length self.now.rest.now }
        ensures left { (more : ℕ) → tokens_from (1 + more) self.now.line self.now.first self.now.rest.now ≡ tokens_from more result.line result.first result.rest.now }
        ensures shorter { length result.rest.now + 1 ≡ length self.now.rest.now }
    {
        match self.rest {
            [] => *self,
            [b, after @ ..] => Cursor {
                rest: after,
                line: if *b == b'\n' {
                    self.line + 1
                } else {
                    self.line
                },
                first: *b == b'\n' || self.first,
            },
        }
    }

    /// The next token, and the place after it. The end is met again and again.
    pub fn next(&self) -> (Token<'a>, Cursor<'a>)
        ensures next { left self.now ≡ value_of result.0 ∷ unless_end result.0.kind (left result.1) }
        ensures more { is_end result.0.kind ≡ false → left self.now ≡ value_of result.0 ∷ left result.1 }
        ensures shorter { is_end result.0.kind ≡ false → length result.1.rest.now < length self.now.rest.now }
        ensures no_longer { length result.1.rest.now ≤ length self.now.rest.now }
        ensures prints { Prints (value_of result.0) }
    {
        let mut place = *self;
        while !place.rest.is_empty() {
            let (kind, length) = piece(place.first, place.rest);
            match kind {
                None => {
                    place = place.after(length, place.first);
                }
                Some(kind) => {
                    let token = Token {
                        kind,
                        text: &place.rest[..length],
                        line: place.line,
                    };
                    return (token, place.after(length, false));
                }
            }
        }
        let token = Token {
            kind: Kind::End,
            text: place.rest,
            line: place.line,
        };
        (token, place)
    }
}
