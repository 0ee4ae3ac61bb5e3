//! The command `same`: whether two netlists compute one function, or the input at which they are told apart.
ghost use Rattle.std.specs.Prelude.{◌≡◌, ◌≤◌, length, IfOk};
ghost use Rattle.outcome.specs.Outcome.{Exactly, Within};
ghost use Rattle.job_words.specs.declared.fault.Fault.TheVariants.{Stage};
ghost use Rattle.job_input.specs.Labelling.{labels_of};
ghost use Rattle.job_input.specs.Setting.{setting_value, IsReady, IsTakenFor};
ghost use Rattle.spec_compare.specs.Verdict.{comparison_of};
ghost use Rattle.answer_core.specs.DifferingLines.{difference_at};
ghost use Rattle.answer_core.specs.Replies.{Replies, RepliesAlone, ComparesAlone};
ghost use Rattle.answer_polynomials.specs.Same.{SameOf, SameReply, SameAfterFirst, SameAfterBoth, SameAfter, SameAnswerTo, same_reply, differ_lines};

use crate::second_stages::second_stage_stop;
use answer_core::{Output, add_difference, labels, last_cut, stage_stop, unroll_simpler};
use gf_field::Field;
use job_input::{BoundNetlist, Setting, read_netlist};
use job_io::Shelf;
use job_words::{SimplifyPairWords, Stop};
use net_words::Combinational;
use poly_mixed::{Labels, NoSteps};
use spec_compare::{Verdict, compare};
use std::alloc::{AllocError, Global};

/// What the command answers over a setting and the files of its two netlists.
pub fn answer<F: Field, S: Shelf>(
    alloc: Global,
    field: &F,
    setting: &Setting,
    words: &SimplifyPairWords,
    shelf: &mut S,
) -> Result<Output, Stop>
    requires { IsReady (F.degree field.now) (F.product field.now) setting.now }
    ensures held { S.held shelf.new ≡ S.held shelf.old }
    ensures never_fall { (S.faults shelf.old ≤ S.faults shelf.new) × (S.misses shelf.old ≤ S.misses shelf.new) }
    ensures gives { Replies S.held S.misses S.faults shelf.old shelf.new result (SameAnswerTo (setting_value (F.degree field.now) (F.product field.now) setting.now) words.now) }
{
    match read_netlist(alloc, shelf, setting, words.net) {
        Ok(netlist) => beside(alloc, field, setting, words, netlist, shelf),
        Err(stop) => Err(stop),
    }
}

// The answer beside the first netlist; the second one's file is read here.
fn beside<F: Field, S: Shelf>(
    alloc: Global,
    field: &F,
    setting: &Setting,
    words: &SimplifyPairWords,
    netlist: BoundNetlist,
    shelf: &mut S,
) -> Result<Output, Stop>
    requires ready { IsReady (F.degree field.now) (F.product field.now) setting.now }
    requires taken { IsTakenFor (F.degree field.now) setting.now netlist }
    ensures held { S.held shelf.new ≡ S.held shelf.old }
    ensures never_fall { (S.faults shelf.old ≤ S.faults shelf.new) × (S.misses shelf.old ≤ S.misses shelf.new) }
    ensures gives { Replies S.held S.misses S.faults shelf.old shelf.new result (SameAfter (setting_value (F.degree field.now) (F.product field.now) setting.now) words.now netlist) }
{
    match read_netlist(alloc, shelf, setting, words.other) {
        Ok(second) => unrolled(alloc, field, setting, words, netlist, second),
        Err(stop) => Err(stop),
    }
}

// The answer over both netlists; the cycles of the first are unrolled here.
fn unrolled<F: Field>(
    alloc: Global,
    field: &F,
    setting: &Setting,
    words: &SimplifyPairWords,
    netlist: BoundNetlist,
    second: BoundNetlist,
) -> Result<Output, Stop>
    requires ready { IsReady (F.degree field.now) (F.product field.now) setting.now }
    requires first { IsTakenFor (F.degree field.now) setting.now netlist }
    requires second { IsTakenFor (F.degree field.now) setting.now second }
    ensures { RepliesAlone result (SameAfterBoth (setting_value (F.degree field.now) (F.product field.now) setting.now) words.now netlist second) }
{
    match unroll_simpler(alloc, words.net, netlist, words.cycles, words.simplify) {
        Ok(circuit) => second_unrolled(alloc, field, setting, words, &circuit, second),
        Err(stop) => Err(stop),
    }
}

// The answer beside the first circuit; the cycles of the second netlist are unrolled here.
fn second_unrolled<F: Field>(
    alloc: Global,
    field: &F,
    setting: &Setting,
    words: &SimplifyPairWords,
    circuit: &Combinational,
    second: BoundNetlist,
) -> Result<Output, Stop>
    requires ready { IsReady (F.degree field.now) (F.product field.now) setting.now }
    requires first { IsTakenFor (F.degree field.now) setting.now circuit.now }
    requires second { IsTakenFor (F.degree field.now) setting.now second }
    ensures { RepliesAlone result (SameAfterFirst (setting_value (F.degree field.now) (F.product field.now) setting.now) words.now circuit.now second) }
{
    match unroll_simpler(alloc, words.other, second, words.cycles, words.simplify) {
        Ok(more) => reply(alloc, field, setting, circuit, &more, words.terms),
        Err(stop) => Err(stop),
    }
}

// The reply over two circuits, or the first cut of more than `bound` terms.
fn reply<F: Field>(
    alloc: Global,
    field: &F,
    setting: &Setting,
    circuit: &Combinational,
    other: &Combinational,
    bound: u32,
) -> Result<Output, Stop>
    requires ready { IsReady (F.degree field.now) (F.product field.now) setting.now }
    requires first { IsTakenFor (F.degree field.now) setting.now circuit.now }
    requires second { IsTakenFor (F.degree field.now) setting.now other.now }
    ensures { RepliesAlone result (SameReply (setting_value (F.degree field.now) (F.product field.now) setting.now) circuit.now other.now bound) }
{
    let labels = labels(alloc, field, setting)?;
    match verdict(alloc, field, setting, &labels, circuit, other, bound) {
        Ok(verdict) => output(alloc, &labels, &verdict),
        Err(stop) => Err(stop),
    }
}

// The verdict on the outputs of two circuits, or the first cut of more than `bound` terms.
fn verdict<F: Field>(
    alloc: Global,
    field: &F,
    setting: &Setting,
    labels: &Labels,
    circuit: &Combinational,
    other: &Combinational,
    bound: u32,
) -> Result<Verdict, Stop>
    requires ready { IsReady (F.degree field.now) (F.product field.now) setting.now }
    requires first { IsTakenFor (F.degree field.now) setting.now circuit.now }
    requires second { IsTakenFor (F.degree field.now) setting.now other.now }
    requires labels { labels.now ≡ labels_of (F.degree field.now) setting.now.signature.words }
    ensures { ComparesAlone labels.now result (Within Stage (SameOf (setting_value (F.degree field.now) (F.product field.now) setting.now) circuit.now other.now bound)) }
{
    let left = match last_cut(alloc, field, setting, circuit, bound, &mut NoSteps) {
        Ok(left) => left,
        Err(fault) => return Err(stage_stop(alloc, labels, fault, bound)),
    };
    let right = match last_cut(alloc, field, setting, other, bound, &mut NoSteps) {
        Ok(right) => right,
        Err(fault) => return Err(second_stage_stop(alloc, labels, fault, bound)),
    };
    let verdict = compare(
        alloc,
        field,
        circuit,
        setting.bases.as_slice(),
        &left,
        &right,
    )?;
    Ok(verdict)
}

// What is written of a verdict.
fn output(alloc: Global, labels: &Labels, verdict: &Verdict) -> Result<Output, Stop>
    ensures { RepliesAlone result (Exactly (same_reply labels.now (comparison_of (length labels.now.words) verdict.now))) }
{
    match verdict {
        Verdict::Same => {
            let text = Vec::from_slice(alloc, b"same\n")?;
            Ok(Output { status: 0, text })
        }
        Verdict::Differ { input, left, right } => {
            let text = differ_text(alloc, labels, input, *left, *right)?;
            Ok(Output { status: 1, text })
        }
    }
}

// The text where two functions are told apart.
fn differ_text(
    alloc: Global,
    labels: &Labels,
    input: &[u64; 8],
    left: u64,
    right: u64,
) -> Result<Vec<u8>, AllocError>
    ensures { IfOk result (λ text. text.items ≡ differ_lines labels.now (difference_at labels.now input.now left right)) }
{
    let mut text = Vec::from_slice(alloc, b"differ\n")?;
    add_difference(
        alloc, &mut text, labels, input, "first", left, "second", right,
    )?;
    Ok(text)
}
