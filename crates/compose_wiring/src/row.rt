//! What feeds the words of an instance.
ghost use Rattle.std.specs.Prelude.{◌≡◌, ◌<◌, ◌+◌, ◌^◌, ℕ, [], ◌∷◌, false, true, IfErr, IfNone, IfOk, IfSome, length, map, slice_get, Some};
ghost use Rattle.compose_model.specs.NamedWord.{outputs_among, NamedWord};
ghost use Rattle.compose_wiring.specs.private.Plain.{AreRows, AreSized, ComesOf, HaveSize, IsBadOutput, IsFirstFor, IsRefusedFirst, IsRow, IsRowFault, IsUnfedAt};
ghost use Rattle.compose_wiring.specs.private.Words.{AreOf};

use crate::candidates::Candidates;
use crate::fault::WiringFault;
use crate::placed::Placed;
use compose_model::Feeder;
use std::alloc::{AllocError, Global};

// The first that feeds a word of an instance, if anything does.
fn feed_of(
    alloc: Global,
    candidates: &Candidates<'_>,
    placed: &Placed<'_, '_, '_>,
    word: usize,
) -> Result<Option<Feeder>, AllocError>
    requires word { word < length placed.now.words }
    requires sized { (k : ℕ) × AreOf k placed.now.words × HaveSize k candidates.now }
    ensures some { IfOk result (λ r. IfSome r (λ feed. (at : NamedWord) → slice_get placed.now.words word ≡ Some at → IsFirstFor candidates.now placed.now at feed)) }
    ensures none { IfOk result (λ r. IfNone r (IsUnfedAt candidates.now placed.now word)) }
{
    match placed.nets(word) {
        Some(nets) => {
            let feed = candidates.feed_for(alloc, nets, placed.word(word))?;
            Ok(feed)
        }
        None => Ok(None),
    }
}

// Whether each bit of the output word is connected and no input of the block.
fn is_good_output(placed: &Placed<'_, '_, '_>, word: usize) -> bool
    requires word { word < length placed.now.words }
    requires output { (at : NamedWord) → slice_get placed.now.words word ≡ Some at → outputs_among placed.now.words ≡ at ∷ [] }
    ensures good { result ≡ true → (at : NamedWord) → slice_get placed.now.words word ≡ Some at → IsBadOutput placed.now at → ⊥ }
    ensures bad { result ≡ false → (at : NamedWord) → slice_get placed.now.words word ≡ Some at → IsBadOutput placed.now at }
{
    if placed.block().is_mixed() {
        return false;
    }
    match placed.nets(word) {
        Some(_) => true,
        None => false,
    }
}

// One word more: its feed is added to the row, if it is no output word. Answers whether it is not refused.
fn add_word(
    alloc: Global,
    row: &mut Vec<Feeder>,
    candidates: &Candidates<'_>,
    placed: &Placed<'_, '_, '_>,
    word: usize,
) -> Result<bool, AllocError>
    requires word { word < length placed.now.words }
    requires sized { (k : ℕ) × AreOf k placed.now.words × HaveSize k candidates.now }
    ensures { IfOk result (λ fed. (at : NamedWord) → slice_get placed.now.words word ≡ Some at → ComesOf candidates.now placed.now at fed row.old.items row.new.items) }
{
    if placed.word(word).is_output() {
        return Ok(is_good_output(placed, word));
    }
    let feed = feed_of(alloc, candidates, placed, word)?;
    match feed {
        Some(feed) => {
            row.push(feed)?;
            Ok(true)
        }
        None => Ok(false),
    }
}

// What feeds the words of an instance, or its first word that is refused.
fn row_of(
    alloc: Global,
    candidates: &Candidates<'_>,
    placed: &Placed<'_, '_, '_>,
) -> Result<Result<Vec<Feeder>, u32>, AllocError>
    requires { (k : ℕ) × AreOf k placed.now.words × HaveSize k candidates.now }
    ensures row { IfOk result (λ r. IfOk r (λ row. IsRow candidates.now placed.now row.items)) }
    ensures refused { IfOk result (λ r. IfErr r (λ w. IsRefusedFirst candidates.now placed.now w)) }
{
    let mut row = Vec::new(alloc);
    for word in 0..placed.count() {
        let fed = add_word(alloc, &mut row, candidates, placed, word)?;
        if !fed {
            return Ok(Err(word as u32));
        }
    }
    Ok(Ok(row))
}

/// What feeds the words of each instance, or the first word that is refused, by instance and then by word.
pub(crate) fn rows(
    alloc: Global,
    candidates: &Candidates<'_>,
    placed: &[Placed<'_, '_, '_>],
) -> Result<Vec<Vec<Feeder>>, WiringFault>
    requires few { length placed.now < 2 ^ 32 }
    requires sized { (k : ℕ) × AreSized k placed.now × HaveSize k candidates.now }
    ensures rows { IfOk result (λ rows. AreRows candidates.now placed.now (map (λ row. row.items) rows.items)) }
    ensures fault { IfErr result (IsRowFault candidates.now placed.now) }
{
    let mut rows = Vec::new(alloc);
    for instance in 0..placed.len() {
        let row = row_of(alloc, candidates, &placed[instance])?;
        match row {
            Ok(row) => rows.push(row)?,
            Err(word) => {
                return Err(WiringFault::NotWords {
                    instance: instance as u32 + 1,
                    word,
                });
            }
        }
    }
    Ok(rows)
}
