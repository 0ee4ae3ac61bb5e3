//! The command `check`: whether a netlist computes its specification, or the input at which it does not.
ghost use Rattle.std.specs.Prelude.{◌≡◌, ◌≤◌, length, IfOk};
ghost use Rattle.outcome.specs.Outcome.{Exactly};
ghost use Rattle.circuit_model.specs.WellFormed.{IsWellFormed};
ghost use Rattle.stage_model.specs.OutputInBits.{IsOutputInBits};
ghost use Rattle.spec_expand.specs.Specification.{IsOverWords};
ghost use Rattle.job_words.specs.Stop.{GivesBy};
ghost use Rattle.job_input.specs.Labelling.{labels_of};
ghost use Rattle.job_input.specs.Setting.{setting_value as value_of, IsReady, IsTakenFor};
ghost use Rattle.spec_compare.specs.Verdict.{comparison_of};
ghost use Rattle.answer_core.specs.DifferingLines.{difference_at};
ghost use Rattle.answer_core.specs.Replies.{Replies, RepliesAlone};
ghost use Rattle.answer_core.specs.Abstraction.{taken_circuit};
ghost use Rattle.answer_polynomials.specs.Check.{WordsLine, CheckBeside, CheckReply, CheckAfterBoth, CheckAfter, CheckAnswerTo, check_reply, rejected_lines};

use answer_core::{
    Output, add_difference, in_words, labels, last_cut, polynomial_line, stage_stop,
    unroll_simpler, verdict,
};
use gf_field::Field;
use job_input::{BoundNetlist, Setting, read_netlist, read_specification};
use job_io::Shelf;
use job_words::{SimplifyPairWords, Stop};
use net_words::Combinational;
use poly_mixed::{Labels, NoSteps, Poly};
use spec_compare::Verdict;
use spec_expand::Spec;
use std::alloc::{AllocError, Global};

// The polynomial of a circuit's output in bits, and the line of that in words.
#[derive(Drop)]
struct Printed {
    bits: Poly,
    line: Vec<u8>,
}

/// What the command answers over a setting and the files of its netlist and its specification.
pub fn answer<F: Field, S: Shelf>(
    alloc: Global,
    field: &F,
    setting: &Setting,
    words: &SimplifyPairWords,
    shelf: &mut S,
) -> Result<Output, Stop>
    requires { IsReady (F.degree field.now) (F.product field.now) setting.now }
    ensures held { S.held shelf.new ≡ S.held shelf.old }
    ensures never_fall { (S.faults shelf.old ≤ S.faults shelf.new) × (S.misses shelf.old ≤ S.misses shelf.new) }
    ensures gives { Replies S.held S.misses S.faults shelf.old shelf.new result (CheckAnswerTo (value_of (F.degree field.now) (F.product field.now) setting.now) words.now) }
{
    match read_netlist(alloc, shelf, setting, words.net) {
        Ok(netlist) => over(alloc, field, setting, words, netlist, shelf),
        Err(stop) => Err(stop),
    }
}

// The answer over the netlist; the specification's file is read here.
fn over<F: Field, S: Shelf>(
    alloc: Global,
    field: &F,
    setting: &Setting,
    words: &SimplifyPairWords,
    netlist: BoundNetlist,
    shelf: &mut S,
) -> Result<Output, Stop>
    requires ready { IsReady (F.degree field.now) (F.product field.now) setting.now }
    requires taken { IsTakenFor (F.degree field.now) setting.now netlist }
    ensures held { S.held shelf.new ≡ S.held shelf.old }
    ensures never_fall { (S.faults shelf.old ≤ S.faults shelf.new) × (S.misses shelf.old ≤ S.misses shelf.new) }
    ensures gives { Replies S.held S.misses S.faults shelf.old shelf.new result (CheckAfter (value_of (F.degree field.now) (F.product field.now) setting.now) words.now netlist) }
{
    let labels = labels(alloc, field, setting)?;
    match read_specification(alloc, field, shelf, &labels, words.other) {
        Ok(spec) => unrolled(alloc, field, setting, &labels, words, netlist, &spec),
        Err(stop) => Err(stop),
    }
}

// The answer over the netlist and the specification; the cycles are unrolled here.
fn unrolled<F: Field>(
    alloc: Global,
    field: &F,
    setting: &Setting,
    labels: &Labels,
    words: &SimplifyPairWords,
    netlist: BoundNetlist,
    spec: &Spec,
) -> Result<Output, Stop>
    requires ready { IsReady (F.degree field.now) (F.product field.now) setting.now }
    requires taken { IsTakenFor (F.degree field.now) setting.now netlist }
    requires labels { labels.now ≡ labels_of (F.degree field.now) setting.now.signature.words }
    requires spec { IsOverWords (F.degree field.now) (length labels.now.words) spec.now }
    ensures { RepliesAlone result (CheckAfterBoth (value_of (F.degree field.now) (F.product field.now) setting.now) words.now netlist spec.now) }
{
    match unroll_simpler(alloc, words.net, netlist, words.cycles, words.simplify) {
        Ok(circuit) => reply(alloc, field, setting, labels, &circuit, spec, words.terms),
        Err(stop) => Err(stop),
    }
}

// The reply over a circuit and a specification, or the first stage of more than `bound` terms.
fn reply<F: Field>(
    alloc: Global,
    field: &F,
    setting: &Setting,
    labels: &Labels,
    circuit: &Combinational,
    spec: &Spec,
    bound: u32,
) -> Result<Output, Stop>
    requires ready { IsReady (F.degree field.now) (F.product field.now) setting.now }
    requires taken { IsTakenFor (F.degree field.now) setting.now circuit.now }
    requires labels { labels.now ≡ labels_of (F.degree field.now) setting.now.signature.words }
    requires spec { IsOverWords (F.degree field.now) (length labels.now.words) spec.now }
    ensures { RepliesAlone result (CheckReply (value_of (F.degree field.now) (F.product field.now) setting.now) circuit.now spec.now bound) }
{
    match print_words(alloc, field, setting, labels, circuit, bound) {
        Ok(printed) => beside(
            alloc, field, setting, labels, circuit, spec, &printed, bound,
        ),
        Err(stop) => Err(stop),
    }
}

// The polynomials of a circuit's output, or the first stage of cuts and words of more than `bound` terms.
fn print_words<F: Field>(
    alloc: Global,
    field: &F,
    setting: &Setting,
    labels: &Labels,
    circuit: &Combinational,
    bound: u32,
) -> Result<Printed, Stop>
    requires ready { IsReady (F.degree field.now) (F.product field.now) setting.now }
    requires taken { IsTakenFor (F.degree field.now) setting.now circuit.now }
    requires labels { labels.now ≡ labels_of (F.degree field.now) setting.now.signature.words }
    ensures gives { GivesBy (λ printed. printed.line.items) result (WordsLine (value_of (F.degree field.now) (F.product field.now) setting.now) circuit.now bound) ⊥ ⊥ }
    ensures well { IfOk result (λ printed. IsWellFormed (taken_circuit (value_of (F.degree field.now) (F.product field.now) setting.now) circuit.now)) }
    ensures output { IfOk result (λ printed. IsOutputInBits (taken_circuit (value_of (F.degree field.now) (F.product field.now) setting.now) circuit.now) printed.bits.terms) }
{
    let bits = match last_cut(alloc, field, setting, circuit, bound, &mut NoSteps) {
        Ok(bits) => bits,
        Err(fault) => return Err(stage_stop(alloc, labels, fault, bound)),
    };
    let list = bits.terms(alloc)?;
    let poly = match in_words(alloc, field, setting, circuit, list, bound, &mut NoSteps) {
        Ok(poly) => poly,
        Err(fault) => return Err(stage_stop(alloc, labels, fault, bound)),
    };
    let line = polynomial_line(alloc, &poly, labels)?;
    Ok(Printed { bits, line })
}

// The reply beside the polynomials of the output, or the first stage of the specification of more than `bound` terms.
fn beside<F: Field>(
    alloc: Global,
    field: &F,
    setting: &Setting,
    labels: &Labels,
    circuit: &Combinational,
    spec: &Spec,
    printed: &Printed,
    bound: u32,
) -> Result<Output, Stop>
    requires ready { IsReady (F.degree field.now) (F.product field.now) setting.now }
    requires taken { IsTakenFor (F.degree field.now) setting.now circuit.now }
    requires labels { labels.now ≡ labels_of (F.degree field.now) setting.now.signature.words }
    requires spec { IsOverWords (F.degree field.now) (length labels.now.words) spec.now }
    requires well { IsWellFormed (taken_circuit (value_of (F.degree field.now) (F.product field.now) setting.now) circuit.now) }
    requires output { IsOutputInBits (taken_circuit (value_of (F.degree field.now) (F.product field.now) setting.now) circuit.now) printed.now.bits.terms }
    ensures { RepliesAlone result (CheckBeside (value_of (F.degree field.now) (F.product field.now) setting.now) circuit.now spec.now bound printed.now.line.items) }
{
    match verdict(
        alloc,
        field,
        setting,
        labels,
        circuit,
        spec,
        &printed.bits,
        bound,
    ) {
        Ok(verdict) => output(alloc, labels, &printed.line, &verdict),
        Err(stop) => Err(stop),
    }
}

// What is written of a verdict beside the line of the polynomial.
fn output(alloc: Global, labels: &Labels, line: &[u8], verdict: &Verdict) -> Result<Output, Stop>
    ensures { RepliesAlone result (Exactly (check_reply labels.now line.now (comparison_of (length labels.now.words) verdict.now))) }
{
    match verdict {
        Verdict::Same => {
            let mut text = Vec::from_slice(alloc, b"accepted\n")?;
            text.extend_from_slice(line)?;
            Ok(Output { status: 0, text })
        }
        Verdict::Differ { input, left, right } => {
            let text = rejected_text(alloc, labels, line, input, *left, *right)?;
            Ok(Output { status: 1, text })
        }
    }
}

// The text where the output and the specification are told apart.
fn rejected_text(
    alloc: Global,
    labels: &Labels,
    line: &[u8],
    input: &[u64; 8],
    left: u64,
    right: u64,
) -> Result<Vec<u8>, AllocError>
    ensures { IfOk result (λ text. text.items ≡ rejected_lines labels.now line.now (difference_at labels.now input.now left right)) }
{
    let mut text = Vec::from_slice(alloc, b"rejected\n")?;
    text.extend_from_slice(line)?;
    add_difference(
        alloc,
        &mut text,
        labels,
        input,
        "netlist",
        left,
        "specification",
        right,
    )?;
    Ok(text)
}
