//! Instances with the words of their blocks.
ghost use Rattle.std.specs.Prelude.{◌≡◌, ◌<◌, IfOk, IfSome, IfNone, None, Some, length, map, slice_get};
ghost use Rattle.compose_model.specs.NamedWord.{NamedWord};
ghost use Rattle.compose_wiring.specs.private.Names.{actuals_by};

use crate::block_words::BlockWords;
use crate::connections::Connections;
use crate::named::{Named, word_at};
use crate::nets::Nets;
use std::alloc::{AllocError, Global};
use std::marker::Model;

/// An instance. Contracts see its connections and the words of its block.
#[derive(Drop)]
pub(crate) struct Placed<'c, 'b, 'a> {
    connections: &'c Connections<'a>,
    block: &'b BlockWords<'a>,
    nets: Vec<Option<Nets<'a>>>,
}

impl<'c, 'b, 'a> Model for Placed<'c, 'b, 'a> {
    ghost use Rattle.std.specs.Prelude.{◌≡◌};
    ghost use Rattle.compose_wiring.specs.private.Plain.{nets_by, PlacedValue};

    ghost Value = { PlacedValue };

    ghost view = { λ placed. record { connections = placed.connections.now; words = placed.block.now } };

    ghost invariant = { λ placed. placed.nets.items ≡ nets_by (record { connections = placed.connections.now; words = placed.block.now }) };
}

// What connections connect to the nets of words.
fn nets_of<'a>(
    alloc: Global,
    key: u64,
    connections: &Connections<'a>,
    words: &[Named<'_>],
) -> Result<Vec<Option<Nets<'a>>>, AllocError>
    ensures { IfOk result (λ list. list.items ≡ map (λ (word : NamedWord). actuals_by connections.now word.nets) words.now) }
{
    let table = connections.table(alloc, key)?;
    let mut list = Vec::new(alloc);
    for place in 0..words.len() {
        let nets = connections.actuals(alloc, &table, word_at(words, place).nets())?;
        list.push(nets)?;
    }
    Ok(list)
}

impl<'c, 'b, 'a> Placed<'c, 'b, 'a> {
    /// An instance with these connections of a block with these words. Names are hashed with the key.
    pub fn new(
        alloc: Global,
        key: u64,
        connections: &'c Connections<'a>,
        block: &'b BlockWords<'a>,
    ) -> Result<Placed<'c, 'b, 'a>, AllocError>
        ensures { IfOk result (λ placed. placed ≡ record { connections = connections.now; words = block.now }) }
    {
        let nets = nets_of(alloc, key, connections, block.words())?;
        Ok(Placed {
            connections,
            block,
            nets,
        })
    }

    /// The words of its block.
    pub fn block(&self) -> &'b BlockWords<'a>
        ensures { result.now ≡ self.now.words }
    {
        self.block
    }

    /// How many words its block has.
    pub fn count(&self) -> usize
        ensures { result ≡ length self.now.words }
    {
        self.block.words().len()
    }

    /// A word of its block.
    pub fn word(&self, word: usize) -> &'b Named<'a>
        requires { word < length self.now.words }
        ensures { slice_get self.now.words word ≡ Some result.now }
    {
        word_at(self.block.words(), word)
    }

    /// What it connects to the nets of a word; none where one is not connected.
    pub fn nets(&self, word: usize) -> Option<&Nets<'a>>
        requires { word < length self.now.words }
        ensures some { IfSome result (λ nets. (at : NamedWord) → slice_get self.now.words word ≡ Some at → actuals_by self.now.connections at.nets ≡ Some nets.now) }
        ensures none { IfNone result ((at : NamedWord) → slice_get self.now.words word ≡ Some at → actuals_by self.now.connections at.nets ≡ None) }
    {
        match &self.nets[word] {
            Some(nets) => Some(nets),
            None => None,
        }
    }
}
