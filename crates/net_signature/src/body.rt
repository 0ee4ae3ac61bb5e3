//! What was read of the lines after the field and the towers.
ghost use Rattle.std.specs.Prelude.{◌≡◌, ◌≤◌, length, None, IfOk, OnOk};
ghost use Rattle.outcome.specs.Outcome.{Returns};
ghost use Rattle.net_signature.specs.Body.{begun, blocks_of, may_stand as may_stand_here, word_may_stand as word_may_stand_here, body_with, block_begun, fed_with, source_of as source_in, fed_word as fed_word_from, next as next_body, SaysHere, ReadsLine};
ghost use Rattle.net_signature.specs.private.Seen.{IsFeedWithin};
ghost use Rattle.net_signature.specs.Reading.{Fits, line_of};

use crate::blocks::{Block, Blocks};
use crate::entry::{Entry, FeedLine, SourceText, read_entry};
use crate::fault::SigFault;
use crate::feeds::Feeds;
use crate::lines::Statement;
use crate::version::Version;
use crate::words::{add_word, is_fed};
use net_core::Name;
use net_words::{FeedText, Source, WordText};
use std::alloc::{AllocError, Global};
use std::marker::Model;

/// The words of the top, the feeds, the blocks that have ended, and the one whose words are being read.
pub struct Body {
    version: Version,
    words: Vec<WordText>,
    feeds: Feeds,
    blocks: Blocks,
    block: Option<Block>,
}

// By hand, so that a caller that lets one go makes one call, and not one for each part.
impl Drop for Body {
    fn drop(self) {
        let Body {
            version: _,
            words,
            feeds,
            blocks,
            block,
        } = self;
        drop(words);
        drop(feeds);
        drop(blocks);
        drop(block);
    }
}

impl Model for Body {
    ghost use Rattle.net_signature.specs.Body.{BodyValue};
    ghost use Rattle.net_signature.specs.Few.{AreFew};

    ghost Value = { BodyValue };

    ghost view = { λ b. record { version = b.version; words = b.words.items; feeds = b.feeds; blocks = b.blocks; block = b.block } };

    ghost invariant = { λ b. AreFew b.words.items };
}

impl Body {
    /// Nothing was read; what strangers name is hashed with this key. It takes no memory.
    pub fn new(alloc: Global, version: Version, key: u64) -> Body
        ensures { result ≡ begun version }
    {
        Body {
            version,
            words: Vec::new(alloc),
            feeds: Feeds::new(alloc, key),
            blocks: Blocks::new(alloc, key),
            block: None,
        }
    }

    // Whether a word may stand here.
    fn word_may_stand(&self, word: &WordText) -> bool
        ensures { result ≡ word_may_stand_here self.now self.now.block word.now }
    {
        match &self.block {
            None => self.feeds.is_empty() && (!is_fed(word) || self.version.has_feeds()),
            Some(_) => !is_fed(word),
        }
    }

    // Whether what a line says may stand here.
    fn may_stand(&self, entry: &Entry) -> bool
        ensures { result ≡ may_stand_here self.now entry.now }
    {
        match entry {
            Entry::Word(word) => self.word_may_stand(word),
            Entry::Feed(_) => self.version.has_feeds() && self.block.is_none(),
            Entry::Block(_) => true,
        }
    }

    // One more word of the top, or of the block being read. Here and below a fault leaves some body.
    fn add_word(&mut self, word: WordText) -> Result<(), SigFault>
        ensures { Fits (λ u. self.new) result (Returns (body_with self.old self.old.block word)) }
    {
        match &mut self.block {
            None => add_word(&mut self.words, word),
            Some(block) => block.add(word),
        }
    }

    // One more feed, whose word is a fed word of the top.
    fn add_feed(&mut self, alloc: Global, line: u32, feed: FeedLine) -> Result<(), SigFault>
        requires { feed.cycle ≤ 4096 }
        ensures { Fits (λ u. self.new) result (Returns (fed_with self.old line feed (source_in self.old.words line feed.source))) }
    {
        match source_of(&self.words, line, &feed.source) {
            Ok(source) => self.feeds.add(
                alloc,
                FeedText {
                    line,
                    net: feed.net,
                    cycle: feed.cycle,
                    source,
                },
            ),
            Err(fault) => Err(fault),
        }
    }

    // Ends the block that is being read, if there is one.
    fn end_block(&mut self, alloc: Global) -> Result<(), AllocError>
        ensures { OnOk result (self.new ≡ record self.old { blocks = blocks_of self.old; block = None }) }
    {
        match self.block.take() {
            None => Ok(()),
            Some(block) => self.blocks.add(alloc, block),
        }
    }

    // A block of this model begins.
    fn begin(&mut self, alloc: Global, line: u32, model: Name) -> Result<(), SigFault>
        ensures { Fits (λ u. self.new) result (Returns (block_begun self.old line model)) }
    {
        self.end_block(alloc)?;
        if self.blocks.has(model.as_str()) {
            return Err(SigFault::NameTwice { line });
        }
        self.block = Some(Block::new(alloc, model));
        Ok(())
    }

    // Adds what one more line says.
    fn next(&mut self, alloc: Global, line: u32, entry: Entry) -> Result<(), SigFault>
        requires { IsFeedWithin entry }
        ensures { Fits (λ u. self.new) result (Returns (next_body self.old line entry)) }
    {
        match entry {
            Entry::Word(word) => self.add_word(word),
            Entry::Feed(feed) => self.add_feed(alloc, line, feed),
            Entry::Block(model) => self.begin(alloc, line, model),
        }
    }

    // What a line says that may stand here.
    fn entry_here(&self, alloc: Global, statement: &Statement) -> Result<Entry, SigFault>
        ensures says { Fits (λ entry. entry) result (SaysHere self.now (line_of statement.now)) }
        ensures within { IfOk result (λ entry. IsFeedWithin entry) }
    {
        let entry = match read_entry(alloc, statement) {
            Ok(entry) => entry,
            Err(fault) => return Err(fault),
        };
        if !self.may_stand(&entry) {
            return Err(SigFault::Syntax {
                line: statement.number,
            });
        }
        Ok(entry)
    }

    /// Adds what one more line says. A fault leaves some body.
    pub fn read_line(&mut self, alloc: Global, statement: &Statement) -> Result<(), SigFault>
        ensures { Fits (λ u. self.new) result (ReadsLine self.old (line_of statement.now)) }
    {
        match self.entry_here(alloc, statement) {
            Ok(entry) => self.next(alloc, statement.number, entry),
            Err(fault) => Err(fault),
        }
    }

    /// The words of the top, the feeds, and all blocks.
    pub fn finish(
        self,
        alloc: Global,
    ) -> Result<(Vec<WordText>, Vec<FeedText>, Vec<Block>), AllocError>
        ensures words { IfOk result (λ parts. parts.0.items ≡ self.words) }
        ensures feeds { IfOk result (λ parts. parts.1.items ≡ self.feeds) }
        ensures blocks { IfOk result (λ parts. parts.2.items ≡ blocks_of self) }
    {
        let mut body = self;
        body.end_block(alloc)?;
        Ok(body.into_parts())
    }

    // The words of the top, the feeds, and the blocks that have ended.
    fn into_parts(self) -> (Vec<WordText>, Vec<FeedText>, Vec<Block>)
        ensures words { result.0.items ≡ self.words }
        ensures feeds { result.1.items ≡ self.feeds }
        ensures blocks { result.2.items ≡ self.blocks }
    {
        let Body {
            version: _,
            words,
            feeds,
            blocks,
            block,
        } = self;
        drop(block);
        (words, feeds.into_list(), blocks.into_list())
    }
}

// The source that a line says, where the word that it names is one of these and fed.
fn source_of(words: &[WordText], line: u32, source: &SourceText) -> Result<Source, SigFault>
    requires { length words.now ≤ 9 }
    ensures fits { Fits (λ source. source) result (Returns (source_in words.now line source.now)) }
    ensures is { result ≡ source_in words.now line source.now }
{
    match source {
        SourceText::Zero => Ok(Source::Zero),
        SourceText::One => Ok(Source::One),
        SourceText::Bit { word, place } => match fed_word(words, word.as_str()) {
            Some(word) => Ok(Source::Bit {
                word,
                place: *place,
            }),
            None => Err(SigFault::NoFedWord { line }),
        },
    }
}

// The number of the fed word of this name.
fn fed_word(words: &[WordText], name: &str) -> Option<u32>
    requires { length words.now ≤ 9 }
    ensures { result ≡ fed_word_from 0 words.now name.now }
{
    let mut number = 0;
    for word in words {
        if word.name.as_str() == name && is_fed(word) {
            return Some(number);
        }
        number += 1;
    }
    None
}
