//! Tokens, one after another in one text.
ghost use Rattle.std.specs.Prelude.{◌≡◌, ◌≤◌, ◌<◌, ◌+◌, ℕ, List, [], ◌∷◌, ◌++◌, Some, length, slice_get, slice_index_or, slice_range, IfOk, OnOk, OnErr};

use crate::pushes::push_one;
use crate::token::Token;
use std::alloc::{AllocError, Global};
use std::marker::Model;

/// Where a token stands in the text: from `start`, and before `end`.
#[derive(Clone, Copy)]
pub struct Span {
    start: u32,
    end: u32,
}

/// Tokens, one after another in one text. Contracts see the list of them.
#[derive(Drop)]
pub struct TokenList {
    text: Vec<u8>,
    spans: Vec<Span>,
}

impl Model for TokenList {
    ghost use Rattle.std.specs.Prelude.{List, length};
    ghost use Rattle.net_blif.specs.Statement.{Token};
    ghost use Rattle.net_blif.specs.Tokens.{AreSpans, tokens_at};

    ghost Value = { List Token };

    ghost view = { λ l. tokens_at l.text.items l.spans.items };

    ghost invariant = { λ l. AreSpans (length l.text.items) l.spans.items };
}

/// Some tokens of a list, one after another. Contracts see the list of them.
#[derive(Drop)]
pub struct TokenSlice<'a> {
    text: &'a [u8],
    spans: &'a [Span],
}

impl<'a> Model for TokenSlice<'a> {
    ghost use Rattle.std.specs.Prelude.{List, length};
    ghost use Rattle.net_blif.specs.Statement.{Token};
    ghost use Rattle.net_blif.specs.Tokens.{AreSpans, tokens_at};

    ghost Value = { List Token };

    ghost view = { λ s. tokens_at s.text.now s.spans.now };

    ghost invariant = { λ s. AreSpans (length s.text.now) s.spans.now };
}

impl<'a> TokenSlice<'a> {
    /// How many tokens there are.
    pub fn len(&self) -> usize
        ensures { result ≡ length self.now }
    {
        self.spans.len()
    }

    /// The token of a place below the count.
    pub fn get(&self, place: usize) -> &'a [u8]
        requires { place < length self.now }
        ensures { result.now ≡ slice_index_or self.now place [] }
    {
        let Span { start, end } = span_at(self.spans, place);
        &self.text[start as usize..end as usize]
    }
}

impl TokenList {
    /// No tokens. It takes no memory.
    pub fn new(alloc: Global) -> TokenList
        ensures { result ≡ [] }
    {
        TokenList {
            text: Vec::new(alloc),
            spans: Vec::new(alloc),
        }
    }

    /// How many tokens there are.
    pub fn len(&self) -> usize
        ensures { result ≡ length self.now }
    {
        self.spans.len()
    }

    /// The tokens from `first` on and before `end`.
    pub fn range(&self, first: usize, end: usize) -> TokenSlice<'_>
        requires order { first ≤ end }
        requires end { end ≤ length self.now }
        ensures { result ≡ slice_range self.now first end }
    {
        TokenSlice {
            text: self.text.as_slice(),
            spans: &self.spans[first..end],
        }
    }

    /// All the tokens.
    pub fn all(&self) -> TokenSlice<'_>
        ensures { result ≡ self.now }
    {
        TokenSlice {
            text: self.text.as_slice(),
            spans: self.spans.as_slice(),
        }
    }

    /// The token of a place below the count.
    pub fn get(&self, place: usize) -> &[u8]
        requires { place < length self.now }
        ensures { result.now ≡ slice_index_or self.now place [] }
    {
        self.all().get(place)
    }

    /// One more token at the end. Always inlined, since a call costs as much as a short token. On an error the text may be
    /// longer, by bytes behind those of the last token.
    #[inline(always)]
    pub fn push(&mut self, token: &[u8]) -> Result<(), AllocError>
        ensures made { OnOk result (self.new ≡ self.old ++ token.now ∷ []) }
        ensures unchanged { OnErr result (self.new ≡ self.old) }
    {
        let start = self.text.len();
        self.text.extend_from_slice(token)?;
        let span = span_of(start, token.len())?;
        push_one(&mut self.spans, span)?;
        Ok(())
    }

    /// The tokens of a line at the end.
    #[inline(always)]
    pub fn push_all(&mut self, tokens: &[Token<'_>]) -> Result<(), AllocError>
        ensures made { OnOk result (self.new ≡ self.old ++ tokens.now) }
        ensures grows { (more : List (List ℕ)) × (self.new ≡ self.old ++ more) }
    {
        for token in tokens {
            self.push(token.bytes())?;
        }
        Ok(())
    }
}

// The span of a place.
fn span_at(spans: &[Span], place: usize) -> Span
    requires { place < length spans.now }
    ensures { Some result ≡ slice_get spans.now place }
{
    spans[place]
}

// So many bytes from a start, where they end below 2^32.
fn span_of(start: usize, size: usize) -> Result<Span, AllocError>
    ensures start { IfOk result (λ span. span.start ≡ start) }
    ensures end { IfOk result (λ span. span.end ≡ start + size) }
{
    let Some(end) = start.checked_add(size) else {
        return Err(AllocError);
    };
    match u32::try_from(end) {
        Ok(end) => Ok(Span {
            start: start as u32,
            end,
        }),
        Err(_) => Err(AllocError),
    }
}
