//! What a signature says.
ghost use Rattle.std.specs.Prelude.{◌≡◌};

use crate::blocks::Block;
use net_core::Numbers;
use net_words::{FeedText, WordText};
use std::marker::Model;

/// A field, words with their bases and nets, feeds, and blocks. Contracts see its parts.
pub struct Signature {
    modulus: u128,
    tower: Numbers<u64>,
    upper: Numbers<u64>,
    words: Vec<WordText>,
    feeds: Vec<FeedText>,
    blocks: Vec<Block>,
}

// By hand, so that a caller that lets one go makes one call, and not one for each part.
impl Drop for Signature {
    fn drop(self) {
        let Signature {
            modulus: _,
            tower,
            upper,
            words,
            feeds,
            blocks,
        } = self;
        drop(tower);
        drop(upper);
        drop(words);
        drop(feeds);
        drop(blocks);
    }
}

impl Model for Signature {
    ghost use Rattle.net_signature.specs.Signature.{SignatureValue};

    ghost Value = { SignatureValue };

    ghost view = { λ s. record { modulus = s.modulus; tower = s.tower; upper = s.upper; words = s.words.items; feeds = s.feeds.items; blocks = s.blocks.items } };
}

impl Signature {
    /// A signature of these parts.
    pub fn of_parts(
        modulus: u128,
        tower: Numbers<u64>,
        upper: Numbers<u64>,
        words: Vec<WordText>,
        feeds: Vec<FeedText>,
        blocks: Vec<Block>,
    ) -> Signature
        ensures { result ≡ record { modulus = modulus; tower = tower; upper = upper; words = words.items; feeds = feeds.items; blocks = blocks.items } }
    {
        Signature {
            modulus,
            tower,
            upper,
            words,
            feeds,
            blocks,
        }
    }

    /// The modulus of the field: bit i is the coefficient of x^i.
    pub fn modulus(&self) -> u128
        ensures { result ≡ self.now.modulus }
    {
        self.modulus
    }

    /// The coefficients of the tower's polynomial below its highest, from the lowest; none where there is no tower.
    pub fn tower(&self) -> &[u64]
        ensures { result.now ≡ self.now.tower }
    {
        self.tower.as_slice()
    }

    /// The coefficients of the polynomial of the tower over the first tower; none where there is no such tower.
    pub fn upper(&self) -> &[u64]
        ensures { result.now ≡ self.now.upper }
    {
        self.upper.as_slice()
    }

    /// The words of the top, in order of their lines.
    pub fn words(&self) -> &[WordText]
        ensures { result.now ≡ self.now.words }
    {
        &self.words
    }

    /// The feeds, in order of their lines; a source names a fed word of the top by its number among the top's words.
    pub fn feeds(&self) -> &[FeedText]
        ensures { result.now ≡ self.now.feeds }
    {
        &self.feeds
    }

    /// The blocks, in order of their lines.
    pub fn blocks(&self) -> &[Block]
        ensures { result.now ≡ self.now.blocks }
    {
        &self.blocks
    }
}
