//! The wiring of a top.
ghost use Rattle.std.specs.Prelude.{◌≡◌, ◌<◌, ◌^◌, ℕ, IfErr, IfNone, IfOk, IfSome, length};
ghost use Rattle.compose_model.specs.declared.feeder.Feeder.{Feeder as FeederValue};
ghost use Rattle.compose_wiring.specs.Answer.{rows_in, AreWired};
ghost use Rattle.compose_wiring.specs.Instanced.{hierarchy, IsInstanced};
ghost use Rattle.compose_wiring.specs.Refusal.{IsWiringFault};
ghost use Rattle.compose_wiring.specs.private.Plain.{AreSized, ArePlainlyWired, HaveSize, IsFirstOutput, IsOutputFeed, IsPlainFault};
ghost use Rattle.compose_wiring.specs.private.Words.{AreOf};

use crate::answer::Wiring;
use crate::candidates::Candidates;
use crate::fault::WiringFault;
use crate::instances::all_instances;
use crate::listing::{all_candidates, all_placed, all_words, output_place};
use crate::named::{Named, with_bases, word_at};
use crate::nets::Nets;
use crate::placed::Placed;
use crate::row::rows;
use compose_model::Feeder;
use gf_basis::Basis;
use net_blif::Design;
use net_signature::Block;
use net_words::WordText;
use std::alloc::{AllocError, Global};

// The first that feeds the output word of the top, if anything does.
fn output_feed(
    alloc: Global,
    candidates: &Candidates<'_>,
    top: &[Named<'_>],
) -> Result<Option<Feeder>, AllocError>
    requires { (k : ℕ) × AreOf k top.now × HaveSize k candidates.now }
    ensures some { IfOk result (λ r. IfSome r (λ feed. IsFirstOutput candidates.now top.now feed)) }
    ensures none { IfOk result (λ r. IfNone r ((feed : FeederValue) → IsOutputFeed candidates.now top.now feed → ⊥)) }
{
    let word = word_at(top, output_place(top));
    let nets = Nets::of(alloc, word.nets())?;
    let feed = candidates.feed_for(alloc, &nets, word)?;
    Ok(feed)
}

// How many bits the words of the top have.
fn size_of(top: &[Named<'_>]) -> u32
    requires { (k : ℕ) × AreOf k top.now }
    ensures { (k : ℕ) → AreOf k top.now → result ≡ k }
{
    word_at(top, output_place(top)).nets().len() as u32
}

// What feeds the words of instances and the output word of the top.
fn plain_wiring<'a>(
    alloc: Global,
    key: u64,
    top: &[Named<'a>],
    placed: &[Placed<'_, '_, 'a>],
) -> Result<Wiring, WiringFault>
    requires few { length placed.now < 2 ^ 32 }
    requires sized { (k : ℕ) × AreOf k top.now × AreSized k placed.now }
    ensures wired { IfOk result (λ wiring. ArePlainlyWired top.now placed.now (rows_in wiring.rows.items) wiring.output) }
    ensures fault { IfErr result (IsPlainFault top.now placed.now) }
{
    let candidates = all_candidates(alloc, key, top, placed, size_of(top))?;
    let rows = rows(alloc, &candidates, placed)?;
    let Some(output) = output_feed(alloc, &candidates, top)? else {
        return Err(WiringFault::OutputNotWords);
    };
    Ok(Wiring { rows, output })
}

/// What feeds the words of the instances of a top and its output word, or the first of these: the first word of an
/// instance, by instance and then by word, that no feed fits, or that is the block's output word and has a bit that
/// is not connected or is an input of the block; the top's output word, where no feed fits it.
///
/// A feed is an input word of the top or the output word of an instance. It fits where its nets are, place by place, those that
/// the instance connects to the word's, and both have the same basis. Where more than one fits, the first is taken: the input
/// words of the top come first, in their order, and then the outputs of the instances by number.
///
/// The top has these words; list 0 of the bases is the top's, and list b + 1 that of block b. Each instance has the block of its
/// number in `numbers`.
pub fn wiring_of<'a>(
    alloc: Global,
    design: &'a Design,
    words: &'a [WordText],
    blocks: &'a [Block],
    bases: &'a [Vec<Basis>],
    numbers: &[u32],
) -> Result<Wiring, WiringFault>
    requires { (k : ℕ) × IsInstanced k (hierarchy design.now words.now blocks.now bases.now) numbers.now }
    ensures wired { IfOk result (λ wiring. AreWired (hierarchy design.now words.now blocks.now bases.now) (rows_in wiring.rows.items) wiring.output) }
    ensures refused { IfErr result (IsWiringFault (hierarchy design.now words.now blocks.now bases.now)) }
{
    let key = design.key();
    let top = with_bases(alloc, words, &bases[0])?;
    let blocks = all_words(alloc, key, blocks, bases)?;
    let connections = all_instances(alloc, design.top_items())?;
    let placed = all_placed(alloc, key, &connections, &blocks, numbers)?;
    let wiring = plain_wiring(alloc, key, &top, &placed)?;
    Ok(wiring)
}
