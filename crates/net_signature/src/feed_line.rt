//! The line of a feed.
ghost use Rattle.std.specs.Prelude.{◌≡◌, ◌⊎◌, ◌≢◌, ◌++◌, ◌∷◌, [], ℕ, ◌<◌, ◌≤◌, List, map, codes, length, slice_index, IfOk, IfErr, IfSome, IfNone};
ghost use Rattle.text_core.specs.Names.{IsName};
ghost use Rattle.text_core.specs.Numbers.{IsDecimal};
ghost use Rattle.net_signature.specs.Statement.{SaysFeed, SaysSource, SaysBit};
ghost use Rattle.net_signature.specs.Outcomes.{OrSyntax};
ghost use Rattle.net_signature.specs.Reading.{Fits};

use crate::entry::{FeedLine, SourceText};
use crate::fault::SigFault;
use crate::word_line::{net_name, word_name};
use net_core::Name;
use std::alloc::Global;
use text_core::read_decimal;

/// The feed of a line `feed NET DEC SRC`, of which these tokens stand behind `feed`.
pub fn read_feed(alloc: Global, line: u32, tokens: &[&[u8]]) -> Result<FeedLine, SigFault>
    ensures { Fits (λ feed. feed) result (OrSyntax line (SaysFeed (codes "feed" ∷ map (λ t. t.now) tokens.now))) }
{
    match tokens {
        [net, cycle, source] => feed_of(alloc, line, net, cycle, source),
        _ => Err(SigFault::Syntax { line }),
    }
}

// The feed of a line of these tokens.
fn feed_of(
    alloc: Global,
    line: u32,
    net: &[u8],
    cycle: &[u8],
    source: &[u8],
) -> Result<FeedLine, SigFault>
    ensures { Fits (λ feed. feed) result (OrSyntax line (SaysFeed (codes "feed" ∷ net.now ∷ cycle.now ∷ source.now ∷ []))) }
{
    let (Some(net), Some(cycle)) = (net_name(net), number_of(cycle, 4096)) else {
        return Err(SigFault::Syntax { line });
    };
    let net = Name::new(alloc, net)?;
    match read_source(alloc, line, source) {
        Ok(source) => Ok(FeedLine { net, cycle, source }),
        Err(fault) => Err(fault),
    }
}

// The number of a token of decimal digits, where it is at most `limit`.
fn number_of(token: &[u8], limit: u32) -> Option<u32>
    ensures found { IfSome result (λ n. IsDecimal token.now n × (n ≤ limit)) }
    ensures none { IfNone result ((n : ℕ) → IsDecimal token.now n → n ≤ limit → ⊥) }
{
    match read_decimal(token, u128::from(limit)) {
        Some(value) => Some(value as u32),
        None => None,
    }
}

// The source that a token of a line says.
fn read_source(alloc: Global, line: u32, token: &[u8]) -> Result<SourceText, SigFault>
    ensures { Fits (λ source. source) result (OrSyntax line (SaysSource token.now)) }
{
    match token {
        b"0" => Ok(SourceText::Zero),
        b"1" => Ok(SourceText::One),
        _ => read_bit(alloc, line, token),
    }
}

// The bit of a word that a token of a line says.
fn read_bit(alloc: Global, line: u32, token: &[u8]) -> Result<SourceText, SigFault>
    ensures bit { IfOk result (λ source. (word : List ℕ) × (place : ℕ) × SaysBit token.now word place × (source ≡ SourceText.Bit word place)) }
    ensures none { IfErr result (λ fault. (fault ≡ SigFault.OutOfMemory) ⊎ ((fault ≡ SigFault.Syntax line) × ((word : List ℕ) (place : ℕ) → SaysBit token.now word place → ⊥))) }
{
    let Some((word, place)) = bit_of(token) else {
        return Err(SigFault::Syntax { line });
    };
    let word = Name::new(alloc, word)?;
    Ok(SourceText::Bit { word, place })
}

// The name and the place of a token `NAME[DEC]`.
fn bit_of(token: &[u8]) -> Option<(&str, u32)>
    ensures found { IfSome result (λ bit. SaysBit token.now bit.0.now bit.1) }
    ensures none { IfNone result ((word : List ℕ) (place : ℕ) → SaysBit token.now word place → ⊥) }
{
    let front = before_end(token)?;
    let (word, digits) = around_bracket(front)?;
    bit_from(word, digits)
}

// What stands before a `]` at the end.
fn before_end(token: &[u8]) -> Option<&[u8]>
    ensures found { IfSome result (λ front. token.now ≡ front.now ++ codes "]") }
    ensures none { IfNone result ((front : List ℕ) → token.now ≡ front ++ codes "]" → ⊥) }
{
    match token.strip_suffix(b"]") {
        Some(front) => Some(front),
        None => None,
    }
}

// What stands before and behind the first `[`.
fn around_bracket(token: &[u8]) -> Option<(&[u8], &[u8])>
    ensures found { IfSome result (λ parts. (token.now ≡ parts.0.now ++ codes "[" ++ parts.1.now) × ((k : ℕ) → k < length parts.0.now → slice_index parts.0.now k ≢ 91)) }
    ensures none { IfNone result ((k : ℕ) → k < length token.now → slice_index token.now k ≢ 91) }
{
    for (i, byte) in token.iter().enumerate() {
        if *byte == b'[' {
            return Some((&token[..i], &token[i + 1..]));
        }
    }
    None
}

// The name and the place of two tokens, where they are such.
fn bit_from<'a>(word: &'a [u8], digits: &[u8]) -> Option<(&'a str, u32)>
    ensures found { IfSome result (λ bit. (bit.0.now ≡ word.now) × IsName word.now × IsDecimal digits.now bit.1 × (bit.1 ≤ 63)) }
    ensures none { IfNone result ((place : ℕ) → IsName word.now → IsDecimal digits.now place → place ≤ 63 → ⊥) }
{
    let name = word_name(word)?;
    let place = number_of(digits, 63)?;
    Some((name, place))
}
