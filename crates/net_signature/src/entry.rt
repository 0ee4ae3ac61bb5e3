//! What a line after the field and the towers says.
ghost use Rattle.std.specs.Prelude.{◌∷◌, [], map, codes};
ghost use Rattle.net_signature.specs.Statement.{SaysEntry, SaysBlock};
ghost use Rattle.net_signature.specs.Outcomes.{OrSyntax};
ghost use Rattle.net_signature.specs.Reading.{Fits, line_of};

use crate::fault::SigFault;
use crate::feed_line::read_feed;
use crate::lines::Statement;
use crate::token::is_token;
use crate::word_line::{net_name, read_word};
use net_core::Name;
use net_words::WordText;
use std::alloc::Global;

/// What a line says.
#[derive(Drop)]
pub enum Entry {
    /// A word.
    Word(WordText),
    /// A feed.
    Feed(FeedLine),
    /// The model of a block that begins.
    Block(Name),
}

/// What a line says of a feed.
#[derive(Drop)]
pub struct FeedLine {
    pub net: Name,
    pub cycle: u32,
    pub source: SourceText,
}

/// What a line says of the source of a feed.
pub enum SourceText {
    /// The constant 0.
    Zero,
    /// The constant 1.
    One,
    /// A bit of the word of this name.
    Bit { word: Name, place: u32 },
}

// By hand, so that a caller that lets one go makes one call, and has no cases.
impl Drop for SourceText {
    fn drop(self) {
        match self {
            SourceText::Zero | SourceText::One => {}
            SourceText::Bit { word, place: _ } => drop(word),
        }
    }
}

/// What a line says.
pub fn read_entry(alloc: Global, statement: &Statement) -> Result<Entry, SigFault>
    ensures { Fits (λ said. said) result (OrSyntax (line_of statement.now).number (SaysEntry (line_of statement.now))) }
{
    match statement.tokens.as_slice() {
        [keyword, rest @ ..] => entry_of(alloc, statement.number, keyword, rest),
        [] => Err(SigFault::Syntax {
            line: statement.number,
        }),
    }
}

// What a line of these tokens says.
fn entry_of(alloc: Global, line: u32, keyword: &[u8], rest: &[&[u8]]) -> Result<Entry, SigFault>
    ensures { Fits (λ said. said) result (OrSyntax line (SaysEntry (record { number = line; tokens = keyword.now ∷ map (λ t. t.now) rest.now }))) }
{
    if is_token(keyword, b"word") {
        word_entry(alloc, line, rest)
    } else if is_token(keyword, b"feed") {
        feed_entry(alloc, line, rest)
    } else if is_token(keyword, b"block") {
        block_entry(alloc, line, rest)
    } else {
        Err(SigFault::Syntax { line })
    }
}

// What a line says that begins with `word`.
fn word_entry(alloc: Global, line: u32, rest: &[&[u8]]) -> Result<Entry, SigFault>
    ensures { Fits (λ said. said) result (OrSyntax line (SaysEntry (record { number = line; tokens = codes "word" ∷ map (λ t. t.now) rest.now }))) }
{
    match read_word(alloc, line, rest) {
        Ok(word) => Ok(Entry::Word(word)),
        Err(fault) => Err(fault),
    }
}

// What a line says that begins with `feed`.
fn feed_entry(alloc: Global, line: u32, rest: &[&[u8]]) -> Result<Entry, SigFault>
    ensures { Fits (λ said. said) result (OrSyntax line (SaysEntry (record { number = line; tokens = codes "feed" ∷ map (λ t. t.now) rest.now }))) }
{
    match read_feed(alloc, line, rest) {
        Ok(feed) => Ok(Entry::Feed(feed)),
        Err(fault) => Err(fault),
    }
}

// What a line says that begins with `block`.
fn block_entry(alloc: Global, line: u32, rest: &[&[u8]]) -> Result<Entry, SigFault>
    ensures { Fits (λ said. said) result (OrSyntax line (SaysEntry (record { number = line; tokens = codes "block" ∷ map (λ t. t.now) rest.now }))) }
{
    match read_block(alloc, line, rest) {
        Ok(model) => Ok(Entry::Block(model)),
        Err(fault) => Err(fault),
    }
}

// The model of a line `block MODEL`.
fn read_block(alloc: Global, line: u32, rest: &[&[u8]]) -> Result<Name, SigFault>
    ensures { Fits (λ model. model) result (OrSyntax line (SaysBlock (codes "block" ∷ map (λ t. t.now) rest.now))) }
{
    match rest {
        [model] => model_of(alloc, line, model),
        _ => Err(SigFault::Syntax { line }),
    }
}

// The model that a token names.
fn model_of(alloc: Global, line: u32, model: &[u8]) -> Result<Name, SigFault>
    ensures { Fits (λ name. name) result (OrSyntax line (SaysBlock (codes "block" ∷ model.now ∷ []))) }
{
    match net_name(model) {
        Some(name) => Ok(Name::new(alloc, name)?),
        None => Err(SigFault::Syntax { line }),
    }
}
