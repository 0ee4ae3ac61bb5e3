//! Blocks, one after another.
ghost use Rattle.std.specs.Prelude.{◌≡◌, ◌++◌, ◌∷◌, [], OnOk};
ghost use Rattle.std.specs.List.{list_any};
ghost use Rattle.std.specs.Str.{bytes_eq};
ghost use Rattle.outcome.specs.Outcome.{Returns};
ghost use Rattle.net_signature.specs.Body.{block_with};
ghost use Rattle.net_signature.specs.Reading.{Fits};

use crate::fault::SigFault;
use crate::seen::{Seen, add_text, is_seen};
use crate::words::add_word;
use indexmap::IndexMap;
use net_core::{KeyedHash, Name};
use net_words::WordText;
use std::alloc::{AllocError, Global};
use std::marker::Model;

/// A block: the words of a model. Contracts see its model and its words.
pub struct Block {
    model: Name,
    words: Vec<WordText>,
}

// By hand, so that a caller that lets one go makes one call, and not one for each part.
impl Drop for Block {
    fn drop(self) {
        let Block { model, words } = self;
        drop(model);
        drop(words);
    }
}

impl Model for Block {
    ghost use Rattle.net_signature.specs.Body.{BlockValue};

    ghost Value = { BlockValue };

    ghost view = { λ b. record { model = b.model; words = b.words.items } };
}

impl Block {
    // A block without words. It takes no memory.
    pub(crate) fn new(alloc: Global, model: Name) -> Block
        ensures { result ≡ record { model = model; words = [] } }
    {
        Block {
            model,
            words: Vec::new(alloc),
        }
    }

    // One more word.
    pub(crate) fn add(&mut self, word: WordText) -> Result<(), SigFault>
        ensures { Fits (λ u. self.new) result (Returns (block_with self.old word)) }
    {
        add_word(&mut self.words, word)
    }

    /// The name of the model, at most 255 bytes.
    pub fn model(&self) -> &str
        ensures { result.now ≡ self.now.model }
    {
        self.model.as_str()
    }

    /// The words, in order of their lines; none is fed.
    pub fn words(&self) -> &[WordText]
        ensures { result.now ≡ self.now.words }
    {
        &self.words
    }
}

/// Blocks, and the names of their models. Contracts see the list of blocks.
#[derive(Drop)]
pub struct Blocks {
    list: Vec<Block>,
    seen: Seen,
}

impl Model for Blocks {
    ghost use Rattle.std.specs.Prelude.{◌≡◌, ℕ, List, is_some};
    ghost use Rattle.std.specs.List.{list_any};
    ghost use Rattle.indexmap.specs.IndexMap.{get_by_text};
    ghost use Rattle.net_signature.specs.Body.{BlockValue};
    ghost use Rattle.net_signature.specs.private.Seen.{has_model};

    ghost Value = { List BlockValue };

    ghost view = { λ b. b.list.items };

    ghost invariant = { λ b. (q : List ℕ) → is_some (get_by_text b.seen q) ≡ list_any (has_model q) b.list.items };
}

impl Blocks {
    /// No blocks, whose names are hashed with this key. It takes no memory.
    pub fn new(alloc: Global, key: u64) -> Blocks
        ensures { result ≡ [] }
    {
        Blocks {
            list: Vec::new(alloc),
            seen: IndexMap::with_hasher(alloc, KeyedHash::new(key)),
        }
    }

    /// Whether a block is of this model.
    pub fn has(&self, model: &str) -> bool
        ensures { result ≡ list_any (λ block. bytes_eq block.model model.now) self.now }
    {
        is_seen(&self.seen, model)
    }

    /// One more block. Where memory runs out, some blocks are left.
    pub fn add(&mut self, alloc: Global, block: Block) -> Result<(), AllocError>
        ensures { OnOk result (self.new ≡ self.old ++ block ∷ []) }
    {
        let name = String::from_str(alloc, block.model())?;
        self.list.push(block)?;
        match add_text(&mut self.seen, name) {
            Ok(()) => Ok(()),
            Err(error) => {
                self.list.clear();
                self.seen.clear();
                Err(error)
            }
        }
    }

    /// The blocks, in order.
    pub fn into_list(self) -> Vec<Block>
        ensures { result.items ≡ self }
    {
        self.list
    }
}
