//! The words of blocks, the instances, and what may feed them.
ghost use Rattle.std.specs.Prelude.{◌≡◌, ◌<◌, ◌≤◌, ◌+◌, ◌^◌, ◌++◌, ℕ, [], ◌∷◌, IfOk, OnOk, length, map, slice_get, Some};
ghost use Rattle.gf_basis.specs.BasisParts.{elements_of};
ghost use Rattle.compose_model.specs.NamedWord.{inputs_among, named_words, outputs_among, NamedWord};
ghost use Rattle.compose_wiring.specs.private.Plain.{candidates_of, output_by, output_candidates, word_candidates, ArePlaced, HaveOutputs, HaveSize, HaveWords, IsListed};

use crate::block_words::BlockWords;
use crate::candidate::Candidate;
use crate::candidates::Candidates;
use crate::connections::Connections;
use crate::named::{Named, with_bases, word_at};
use crate::nets::Nets;
use crate::placed::Placed;
use compose_model::Feeder;
use gf_basis::Basis;
use net_signature::Block;
use std::alloc::{AllocError, Global};

// The words of a block with their bases.
fn block_words<'a>(
    alloc: Global,
    key: u64,
    block: &'a Block,
    bases: &'a [Basis],
) -> Result<BlockWords<'a>, AllocError>
    requires { length bases.now ≡ length block.now.words }
    ensures { IfOk result (λ words. words ≡ named_words block.now.words (map elements_of bases.now)) }
{
    let words = with_bases(alloc, block.words(), bases)?;
    BlockWords::new(alloc, key, words)
}

/// The words of all blocks with their bases: list b + 1 is that of block b.
pub(crate) fn all_words<'a>(
    alloc: Global,
    key: u64,
    blocks: &'a [Block],
    bases: &'a [Vec<Basis>],
) -> Result<Vec<BlockWords<'a>>, AllocError>
    requires { IsListed blocks.now bases.now }
    ensures { IfOk result (λ list. HaveWords blocks.now bases.now list.items) }
{
    let mut list = Vec::new(alloc);
    for number in 0..blocks.len() {
        list.push(block_words(alloc, key, &blocks[number], &bases[number + 1])?)?;
    }
    Ok(list)
}

/// All instances with the words of their blocks, by the numbers of these.
pub(crate) fn all_placed<'c, 'b, 'a>(
    alloc: Global,
    key: u64,
    connections: &'c [Connections<'a>],
    blocks: &'b [BlockWords<'a>],
    numbers: &[u32],
) -> Result<Vec<Placed<'c, 'b, 'a>>, AllocError>
    requires long { length numbers.now ≡ length connections.now }
    requires inside { (i number : ℕ) → slice_get numbers.now i ≡ Some number → number < length blocks.now }
    ensures { IfOk result (λ list. ArePlaced blocks.now numbers.now connections.now list.items) }
{
    let mut list = Vec::new(alloc);
    for instance in 0..connections.len() {
        let number = numbers[instance] as usize;
        let placed = Placed::new(alloc, key, &connections[instance], &blocks[number])?;
        list.push(placed)?;
    }
    Ok(list)
}

// Adds an input word of the top.
fn add_word<'a>(
    alloc: Global,
    list: &mut Vec<Candidate<'a>>,
    word: &Named<'a>,
    number: u32,
) -> Result<(), AllocError>
    ensures { OnOk result (list.new.items ≡ list.old.items ++ word_candidates number (inputs_among (word.now ∷ []))) }
{
    if !word.is_output() {
        let nets = Nets::of(alloc, word.nets())?;
        list.push(Candidate::new(Feeder::InputWord(number), nets, word.basis()))?;
    }
    Ok(())
}

// How many input words a word is.
fn counted(word: &Named<'_>) -> u32
    ensures { result ≡ length (inputs_among (word.now ∷ [])) }
{
    if word.is_output() { 0 } else { 1 }
}

// Adds the input words of the top.
fn add_words<'a>(
    alloc: Global,
    list: &mut Vec<Candidate<'a>>,
    top: &[Named<'a>],
) -> Result<(), AllocError>
    requires { length top.now ≤ 9 }
    ensures { OnOk result (list.new.items ≡ list.old.items ++ word_candidates 0 (inputs_among top.now)) }
{
    let mut number = 0;
    for place in 0..top.len() {
        let word = word_at(top, place);
        add_word(alloc, list, word, number)?;
        number += counted(word);
    }
    Ok(())
}

/// The place of the output word, of which there is one.
pub(crate) fn output_place(words: &[Named<'_>]) -> usize
    requires { length (outputs_among words.now) ≡ 1 }
    ensures { (word : NamedWord) × (slice_get words.now result ≡ Some word) × (outputs_among words.now ≡ word ∷ []) }
{
    for place in 0..words.len() {
        if word_at(words, place).is_output() {
            return place;
        }
    }
    unreachable!()
}

// Adds the output word of an instance, if its nets are connected.
fn add_output<'a>(
    alloc: Global,
    list: &mut Vec<Candidate<'a>>,
    placed: &Placed<'_, '_, 'a>,
    instance: u32,
) -> Result<(), AllocError>
    requires { length (outputs_among placed.now.words) ≡ 1 }
    ensures { OnOk result (list.new.items ≡ list.old.items ++ output_by instance placed.now.connections (outputs_among placed.now.words)) }
{
    let words = placed.block().words();
    let place = output_place(words);
    if let Some(nets) = placed.nets(place) {
        let nets = nets.copy(alloc)?;
        list.push(Candidate::new(
            Feeder::OutputOf(instance),
            nets,
            word_at(words, place).basis(),
        ))?;
    }
    Ok(())
}

// Adds the output words of all instances.
fn add_outputs<'a>(
    alloc: Global,
    list: &mut Vec<Candidate<'a>>,
    placed: &[Placed<'_, '_, 'a>],
) -> Result<(), AllocError>
    requires few { length placed.now < 2 ^ 32 }
    requires outputs { HaveOutputs placed.now }
    ensures { OnOk result (list.new.items ≡ list.old.items ++ output_candidates 0 placed.now) }
{
    for instance in 0..placed.len() {
        add_output(alloc, list, &placed[instance], instance as u32)?;
    }
    Ok(())
}

/// What may feed a word: the input words of the top, and the output words of instances. Their bases have `size` elements.
pub(crate) fn all_candidates<'a>(
    alloc: Global,
    key: u64,
    top: &[Named<'a>],
    placed: &[Placed<'_, '_, 'a>],
    size: u32,
) -> Result<Candidates<'a>, AllocError>
    requires sized { HaveSize size (candidates_of top.now placed.now) }
    requires top { length top.now ≤ 9 }
    requires few { length placed.now < 2 ^ 32 }
    requires outputs { HaveOutputs placed.now }
    ensures { IfOk result (λ candidates. candidates ≡ candidates_of top.now placed.now) }
{
    let mut list = Vec::new(alloc);
    add_words(alloc, &mut list, top)?;
    add_outputs(alloc, &mut list, placed)?;
    Candidates::new(alloc, key, list, size)
}
