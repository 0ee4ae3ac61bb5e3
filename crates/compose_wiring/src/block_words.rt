//! The words of blocks.
ghost use Rattle.std.specs.Prelude.{◌≡◌, ◌||◌, [], ◌∷◌, IfOk, OnOk, is_some};
ghost use Rattle.std.specs.List.{list_any};
ghost use Rattle.net_blif.specs.Instances.{is_among};
ghost use Rattle.net_blif.specs.Statement.{Token};
ghost use Rattle.net_blif.specs.Table.{numbers_in};
ghost use Rattle.compose_model.specs.NamedWord.{inputs_among, outputs_among, NamedWord};
ghost use Rattle.compose_wiring.specs.private.Words.{in_some, is_mixed as are_mixed, Knows};

use crate::named::{Named, word_at};
use crate::nets::net_at;
use net_blif::Table;
use net_core::Name;
use std::alloc::{AllocError, Global};
use std::marker::Model;

/// The words of a block. Contracts see the list of them.
#[derive(Drop)]
pub(crate) struct BlockWords<'a> {
    words: Vec<Named<'a>>,
    is_mixed: bool,
}

impl<'a> Model for BlockWords<'a> {
    ghost use Rattle.std.specs.Prelude.{◌≡◌, List};
    ghost use Rattle.compose_model.specs.NamedWord.{NamedWord};
    ghost use Rattle.compose_wiring.specs.private.Words.{is_mixed as are_mixed};

    ghost Value = { List NamedWord };

    ghost view = { λ block. block.words.items };

    ghost invariant = { λ block. block.is_mixed ≡ are_mixed block.words.items };
}

impl<'a> BlockWords<'a> {
    /// These words. Names are hashed with the key.
    pub fn new(alloc: Global, key: u64, words: Vec<Named<'a>>) -> Result<BlockWords<'a>, AllocError>
        ensures { IfOk result (λ block. block ≡ words.entry.items) }
    {
        let is_mixed = is_mixed(alloc, key, &words)?;
        Ok(BlockWords { words, is_mixed })
    }

    /// The words.
    pub fn words(&self) -> &[Named<'a>]
        ensures { result.now ≡ self.now }
    {
        &self.words
    }

    /// Whether a bit of the output word is an input of the block.
    pub fn is_mixed(&self) -> bool
        ensures { result ≡ are_mixed self.now }
    {
        self.is_mixed
    }
}

// Adds names to those that the table knows.
fn add_names(table: &mut Table, names: &[Name]) -> Result<(), AllocError>
    ensures { OnOk result ((name : Token) → is_some (numbers_in table.new name) ≡ (is_among names.now name || is_some (numbers_in table.old name))) }
{
    for place in 0..names.len() {
        table.insert(net_at(names, place), 0)?;
    }
    Ok(())
}

// Adds the nets of a word that is no output word.
fn add_word(table: &mut Table, word: &Named<'_>) -> Result<(), AllocError>
    ensures { OnOk result ((name : Token) → is_some (numbers_in table.new name) ≡ (in_some (inputs_among (word.now ∷ [])) name || is_some (numbers_in table.old name))) }
{
    if !word.is_output() {
        add_names(table, word.nets())?;
    }
    Ok(())
}

// A table that knows the nets of the words that are no output words.
fn inputs(alloc: Global, key: u64, words: &[Named<'_>]) -> Result<Table, AllocError>
    ensures { IfOk result (λ table. Knows (in_some (inputs_among words.now)) (numbers_in table)) }
{
    let mut table = Table::new(alloc, key);
    for place in 0..words.len() {
        add_word(&mut table, word_at(words, place))?;
    }
    Ok(table)
}

// Whether the table knows one of these names.
fn knows_some(table: &Table, names: &[Name]) -> bool
    ensures { result ≡ list_any (λ name. is_some (numbers_in table.now name)) names.now }
{
    names.iter().any(|name| table.get(name.as_str()).is_some())
}

// Whether a word is an output word of which the table knows a net.
fn is_known(table: &Table, word: &Named<'_>) -> bool
    ensures { result ≡ list_any (λ (output : NamedWord). list_any (λ name. is_some (numbers_in table.now name)) output.nets) (outputs_among (word.now ∷ [])) }
{
    word.is_output() && knows_some(table, word.nets())
}

// Whether a bit of an output word is a bit of another word.
fn is_mixed(alloc: Global, key: u64, words: &[Named<'_>]) -> Result<bool, AllocError>
    ensures { IfOk result (λ mixed. mixed ≡ are_mixed words.now) }
{
    let table = inputs(alloc, key, words)?;
    for place in 0..words.len() {
        if is_known(&table, word_at(words, place)) {
            return Ok(true);
        }
    }
    Ok(false)
}
