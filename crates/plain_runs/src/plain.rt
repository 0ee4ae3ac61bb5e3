//! The output of a job, cycle by cycle and gate by gate.
ghost use Rattle.std.specs.Prelude.{◌≡◌, ◌<◌, ◌+◌, ◌^◌, true, false, ℕ, length, IfOk, IfSome, IsSome, IsTrue};
ghost use Rattle.lists.specs.Lists.{Has};
ghost use Rattle.gf_basis.specs.BasisParts.{IsBasisOver};
ghost use Rattle.circuit_model.specs.Job.{IsJob};
ghost use Rattle.circuit_model.specs.Out.{IsOut};
ghost use Rattle.circuit_model.specs.Flat.{AreOver};
ghost use Rattle.plain_runs.specs.JobOfParts.{job_of_parts};
ghost use Rattle.plain_runs.specs.private.Cycle.{AreFed, AreOnlyFed, HaveAsked, IsReached};
ghost use Rattle.plain_runs.specs.Found.{IfFound};

use crate::cycle_bits::{first_bits, next_bits};
use crate::fed_bits::are_fed;
use crate::word_bits::have_elements;
use circuit_model::{CircuitFeed, CircuitWord, element};
use gf_field::Field;
use net_core::Net;
use std::alloc::{AllocError, Global};

// Whether each input word has its element and each fed net its bit of a cycle.
fn is_cycle<F: Field>(
    field: &F,
    words: &[CircuitWord],
    xs: &[u64],
    feeds: &[CircuitFeed],
    cycle: u32,
    bits: &[bool],
) -> bool
    requires over { AreOver (F.degree field.now) (F.product field.now) words.now }
    requires long { length xs.now ≡ length words.now }
    requires elements { (x : ℕ) → Has xs.now x → x < 2 ^ F.degree field.now }
    ensures inputs { IsTrue result → HaveAsked false words.now xs.now bits.now }
    ensures fed { IsTrue result → AreFed words.now xs.now feeds.now cycle bits.now }
    ensures complete { HaveAsked false words.now xs.now bits.now → AreOnlyFed words.now xs.now feeds.now cycle bits.now → IsTrue result }
{
    if have_elements(field, bits, words, xs, false) {
        are_fed(field, words, xs, feeds, cycle, bits)
    } else {
        false
    }
}

// Whether each input and state word has its element and each fed net its bit of the first cycle.
fn is_first<F: Field>(
    field: &F,
    words: &[CircuitWord],
    xs: &[u64],
    feeds: &[CircuitFeed],
    bits: &[bool],
) -> bool
    requires over { AreOver (F.degree field.now) (F.product field.now) words.now }
    requires long { length xs.now ≡ length words.now }
    requires elements { (x : ℕ) → Has xs.now x → x < 2 ^ F.degree field.now }
    ensures inputs { IsTrue result → HaveAsked false words.now xs.now bits.now }
    ensures states { IsTrue result → HaveAsked true words.now xs.now bits.now }
    ensures fed { IsTrue result → AreFed words.now xs.now feeds.now 0 bits.now }
    ensures complete { HaveAsked false words.now xs.now bits.now → HaveAsked true words.now xs.now bits.now → AreOnlyFed words.now xs.now feeds.now 0 bits.now → IsTrue result }
{
    if have_elements(field, bits, words, xs, true) {
        is_cycle(field, words, xs, feeds, 0, bits)
    } else {
        false
    }
}

// The bits of the first cycle, if words and fed nets can have theirs.
fn first_cycle<F: Field>(
    alloc: Global,
    field: &F,
    net: &Net,
    words: &[CircuitWord],
    _output: &CircuitWord,
    feeds: &[CircuitFeed],
    xs: &[u64],
) -> Result<Option<Vec<bool>>, AllocError>
    requires over { AreOver (F.degree field.now) (F.product field.now) words.now }
    requires long { length xs.now ≡ length words.now }
    requires elements { (x : ℕ) → Has xs.now x → x < 2 ^ F.degree field.now }
    ensures reached { IfFound result (λ v. IsReached (job_of_parts (F.degree field.now) (F.product field.now) net.now words.now _output.now feeds.now) xs.now 0 v.items) }
    ensures complete { IfOk result (λ found. IsJob (job_of_parts (F.degree field.now) (F.product field.now) net.now words.now _output.now feeds.now 0) → IsSome found) }
{
    let bits = first_bits(alloc, field, net, words, xs, feeds)?;
    if is_first(field, words, xs, feeds, &bits) {
        Ok(Some(bits))
    } else {
        Ok(None)
    }
}

// The bits of the cycle after cycle t, if words and fed nets can have theirs.
fn next_cycle<F: Field>(
    alloc: Global,
    field: &F,
    net: &Net,
    words: &[CircuitWord],
    _output: &CircuitWord,
    feeds: &[CircuitFeed],
    xs: &[u64],
    t: u32,
    before: &[bool],
) -> Result<Option<Vec<bool>>, AllocError>
    requires over { AreOver (F.degree field.now) (F.product field.now) words.now }
    requires long { length xs.now ≡ length words.now }
    requires elements { (x : ℕ) → Has xs.now x → x < 2 ^ F.degree field.now }
    requires few { t < 4294967295 }
    requires reached { IsReached (job_of_parts (F.degree field.now) (F.product field.now) net.now words.now _output.now feeds.now) xs.now t before.now }
    ensures reached { IfFound result (λ v. IsReached (job_of_parts (F.degree field.now) (F.product field.now) net.now words.now _output.now feeds.now) xs.now (t + 1) v.items) }
    ensures complete { IfOk result (λ found. IsJob (job_of_parts (F.degree field.now) (F.product field.now) net.now words.now _output.now feeds.now 0) → IsSome found) }
{
    let bits = next_bits(alloc, field, net, words, xs, feeds, t + 1, before)?;
    if is_cycle(field, words, xs, feeds, t + 1, &bits) {
        Ok(Some(bits))
    } else {
        Ok(None)
    }
}

// The bits of the last cycle, if words and fed nets can have theirs in each.
fn last_cycle<F: Field>(
    alloc: Global,
    field: &F,
    net: &Net,
    words: &[CircuitWord],
    output: &CircuitWord,
    feeds: &[CircuitFeed],
    xs: &[u64],
    cycles: u32,
) -> Result<Option<Vec<bool>>, AllocError>
    requires over { AreOver (F.degree field.now) (F.product field.now) words.now }
    requires long { length xs.now ≡ length words.now }
    requires elements { (x : ℕ) → Has xs.now x → x < 2 ^ F.degree field.now }
    ensures reached { IfFound result (λ v. IsReached (job_of_parts (F.degree field.now) (F.product field.now) net.now words.now output.now feeds.now) xs.now cycles v.items) }
    ensures complete { IfOk result (λ found. IsJob (job_of_parts (F.degree field.now) (F.product field.now) net.now words.now output.now feeds.now 0) → IsSome found) }
{
    let mut bits = match first_cycle(alloc, field, net, words, output, feeds, xs)? {
        Some(bits) => bits,
        None => return Ok(None),
    };
    for t in 0..cycles {
        bits = match next_cycle(alloc, field, net, words, output, feeds, xs, t, &bits)? {
            Some(bits) => bits,
            None => return Ok(None),
        };
    }
    Ok(Some(bits))
}

// The element of the output word in the bits of the last cycle.
fn last_element<F: Field>(
    field: &F,
    _net: &Net,
    _words: &[CircuitWord],
    output: &CircuitWord,
    _feeds: &[CircuitFeed],
    _xs: &[u64],
    _cycles: u32,
    bits: &[bool],
) -> Option<u64>
    requires over { IsBasisOver (F.degree field.now) (F.product field.now) output.now.basis }
    requires reached { IsReached (job_of_parts (F.degree field.now) (F.product field.now) _net.now _words.now output.now _feeds.now) _xs.now _cycles bits.now }
    ensures output { IfSome result (λ e. IsOut (job_of_parts (F.degree field.now) (F.product field.now) _net.now _words.now output.now _feeds.now _cycles) _xs.now e) }
    ensures some { IsJob (job_of_parts (F.degree field.now) (F.product field.now) _net.now _words.now output.now _feeds.now _cycles) → IsSome result }
{
    element(field, bits, output)
}

/// The output of a job at an input after so many cycles, cycle by cycle and gate by gate: slow, and no more than the
/// definition. Where these parts are a job it is the output; elsewhere it may be none, as where a word that is not fed
/// has not k nets, or its nets can't have the bits of its element, or a fed net is in a word.
pub fn job_output<F: Field>(
    alloc: Global,
    field: &F,
    net: &Net,
    words: &[CircuitWord],
    output: &CircuitWord,
    feeds: &[CircuitFeed],
    xs: &[u64],
    cycles: u32,
) -> Result<Option<u64>, AllocError>
    requires over { AreOver (F.degree field.now) (F.product field.now) words.now }
    requires over_output { IsBasisOver (F.degree field.now) (F.product field.now) output.now.basis }
    requires long { length xs.now ≡ length words.now }
    requires elements { (x : ℕ) → Has xs.now x → x < 2 ^ F.degree field.now }
    ensures output { IfFound result (λ e. IsOut (job_of_parts (F.degree field.now) (F.product field.now) net.now words.now output.now feeds.now cycles) xs.now e) }
    ensures complete { IfOk result (λ found. IsJob (job_of_parts (F.degree field.now) (F.product field.now) net.now words.now output.now feeds.now cycles) → IsSome found) }
{
    match last_cycle(alloc, field, net, words, output, feeds, xs, cycles)? {
        Some(bits) => Ok(last_element(field, net, words, output, feeds, xs, cycles, &bits)),
        None => Ok(None),
    }
}
