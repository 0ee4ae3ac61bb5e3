//! The command `trial`: the input at which a multiplier with one bit of one table turned over is told apart from the product.
ghost use Rattle.std.specs.Prelude.{◌≡◌, ◌++◌, length, IfOk, OnOk};
ghost use Rattle.std.specs.Fmt.{decimal};
ghost use Rattle.gf_field.specs.Ring2k.{degree_of, modulus_of};
ghost use Rattle.irreducible.specs.Proved.{ring_of};
ghost use Rattle.circuit_model.specs.WellFormed.{IsWellFormed};
ghost use Rattle.stage_model.specs.OutputInBits.{IsOutputInBits};
ghost use Rattle.spec_expand.specs.Specification.{IsOverWords};
ghost use Rattle.job_words.specs.Stop.{GivesBy};
ghost use Rattle.job_input.specs.Labelling.{labels_of};
ghost use Rattle.job_input.specs.Setting.{IsReady, IsTakenFor, setting_value};
ghost use Rattle.answer_core.specs.Abstraction.{taken_circuit};
ghost use Rattle.answer_core.specs.Replies.{RepliesAlone};
ghost use Rattle.answer_makers.specs.Trial.{MissesSpecification, TermsOf, TrialAnswer, TrialBesideTo, TrialOver, TrialReplyTo, trial_head_over as head_of_trial};

use answer_core::{Output, add_difference, in_words, labels, last_cut, stage_stop, verdict};
use gf_field::{Field, Ring2k};
use irreducible::Proved;
use job_input::{Setting, field_of_modulus};
use job_words::{Stop, TrialWords};
use make_trial::{product_spec, trial_circuit, trial_index, trial_place, trial_setting};
use net_words::Combinational;
use poly_mixed::{Labels, NoSteps, Poly};
use spec_compare::Verdict;
use spec_expand::Spec;
use std::alloc::{AllocError, Global};
use text_core::push_hex;

// The polynomial of a circuit's output in bits, and the number of terms of that in words.
#[derive(Drop)]
struct Counted {
    bits: Poly,
    terms: usize,
}

/// What the command answers.
pub fn answer(alloc: Global, words: &TrialWords) -> Result<Output, Stop>
    ensures { RepliesAlone result (TrialAnswer words.now.number words.now.modulus words.now.terms) }
{
    match field_of_modulus(words.modulus) {
        Ok(ring) => over(alloc, &ring, words),
        Err(stop) => Err(stop),
    }
}

// The answer over the field of the modulus: the multiplier with its bit turned, beside the product.
fn over(alloc: Global, ring: &Proved<Ring2k>, words: &TrialWords) -> Result<Output, Stop>
    ensures { RepliesAlone result (TrialOver (degree_of (ring_of ring.now)) (modulus_of (ring_of ring.now)) words.now.number words.now.terms) }
{
    let setting = trial_setting(alloc, ring)?;
    let circuit = trial_circuit(alloc, ring, &setting, words.number)?;
    let labels = labels(alloc, ring, &setting)?;
    let spec = product_spec(alloc, ring, &labels)?;
    reply(alloc, ring, &setting, &labels, &circuit, &spec, words)
}

// The reply over a circuit and a specification that it does not meet, or the first stage of too many terms.
fn reply<F: Field>(
    alloc: Global,
    field: &F,
    setting: &Setting,
    labels: &Labels,
    circuit: &Combinational,
    spec: &Spec,
    words: &TrialWords,
) -> Result<Output, Stop>
    requires ready { IsReady (F.degree field.now) (F.product field.now) setting.now }
    requires taken { IsTakenFor (F.degree field.now) setting.now circuit.now }
    requires labels { labels.now ≡ labels_of (F.degree field.now) setting.now.signature.words }
    requires spec { IsOverWords (F.degree field.now) (length labels.now.words) spec.now }
    requires apart { MissesSpecification (setting_value (F.degree field.now) (F.product field.now) setting.now) circuit.now spec.now }
    ensures { RepliesAlone result (TrialReplyTo (setting_value (F.degree field.now) (F.product field.now) setting.now) circuit.now spec.now words.now) }
{
    match count_words(alloc, field, setting, labels, circuit, words.terms) {
        Ok(counted) => beside(
            alloc, field, setting, labels, circuit, spec, &counted, words,
        ),
        Err(stop) => Err(stop),
    }
}

// The polynomial of a circuit's output in bits with the number of terms of that in words, or the first stage of cuts and words
// of more than `bound` terms.
fn count_words<F: Field>(
    alloc: Global,
    field: &F,
    setting: &Setting,
    labels: &Labels,
    circuit: &Combinational,
    bound: u32,
) -> Result<Counted, Stop>
    requires ready { IsReady (F.degree field.now) (F.product field.now) setting.now }
    requires taken { IsTakenFor (F.degree field.now) setting.now circuit.now }
    requires labels { labels.now ≡ labels_of (F.degree field.now) setting.now.signature.words }
    ensures gives { GivesBy (λ counted. counted.terms) result (TermsOf (setting_value (F.degree field.now) (F.product field.now) setting.now) circuit.now bound) ⊥ ⊥ }
    ensures well { IfOk result (λ counted. IsWellFormed (taken_circuit (setting_value (F.degree field.now) (F.product field.now) setting.now) circuit.now)) }
    ensures output { IfOk result (λ counted. IsOutputInBits (taken_circuit (setting_value (F.degree field.now) (F.product field.now) setting.now) circuit.now) counted.bits.terms) }
{
    let bits = match last_cut(alloc, field, setting, circuit, bound, &mut NoSteps) {
        Ok(bits) => bits,
        Err(fault) => return Err(stage_stop(alloc, labels, fault, bound)),
    };
    let list = bits.terms(alloc)?;
    let poly = match in_words(alloc, field, setting, circuit, list, bound, &mut NoSteps) {
        Ok(poly) => poly,
        Err(fault) => return Err(stage_stop(alloc, labels, fault, bound)),
    };
    let terms = poly.len();
    Ok(Counted { bits, terms })
}

// The reply beside the polynomial of the output, or the first stage of the specification of too many terms.
fn beside<F: Field>(
    alloc: Global,
    field: &F,
    setting: &Setting,
    labels: &Labels,
    circuit: &Combinational,
    spec: &Spec,
    counted: &Counted,
    words: &TrialWords,
) -> Result<Output, Stop>
    requires ready { IsReady (F.degree field.now) (F.product field.now) setting.now }
    requires taken { IsTakenFor (F.degree field.now) setting.now circuit.now }
    requires labels { labels.now ≡ labels_of (F.degree field.now) setting.now.signature.words }
    requires spec { IsOverWords (F.degree field.now) (length labels.now.words) spec.now }
    requires well { IsWellFormed (taken_circuit (setting_value (F.degree field.now) (F.product field.now) setting.now) circuit.now) }
    requires output { IsOutputInBits (taken_circuit (setting_value (F.degree field.now) (F.product field.now) setting.now) circuit.now) counted.now.bits.terms }
    requires apart { MissesSpecification (setting_value (F.degree field.now) (F.product field.now) setting.now) circuit.now spec.now }
    ensures { RepliesAlone result (TrialBesideTo (setting_value (F.degree field.now) (F.product field.now) setting.now) circuit.now spec.now words.now counted.now.terms) }
{
    let bits = &counted.bits;
    match verdict(
        alloc,
        field,
        setting,
        labels,
        circuit,
        spec,
        bits,
        words.terms,
    ) {
        Ok(Verdict::Differ { input, left, right }) => {
            let mut text = head(alloc, field, setting, circuit, words.number, counted.terms)?;
            add_difference(
                alloc, &mut text, labels, &input, "netlist", left, "product", right,
            )?;
            Ok(Output { status: 0, text })
        }
        Ok(Verdict::Same) => unreachable!(),
        Err(stop) => Err(stop),
    }
}

// The lines before those of the input.
fn head<F: Field>(
    alloc: Global,
    field: &F,
    setting: &Setting,
    circuit: &Combinational,
    number: u64,
    terms: usize,
) -> Result<Vec<u8>, AllocError>
    ensures { IfOk result (λ text. text.items ≡ head_of_trial (F.degree field.now) setting.now.signature.modulus circuit.now number terms) }
{
    let k = field.k();
    let gates = circuit.net().gates().len();
    let mut text = Vec::new(alloc);
    text.extend_from_slice(b"modulus ")?;
    push_hex(&mut text, setting.signature.modulus())?;
    add_number(alloc, &mut text, "\ngates ", gates)?;
    add_number(
        alloc,
        &mut text,
        "\nchanged ",
        trial_place(k, number) as usize,
    )?;
    add_number(alloc, &mut text, " index ", trial_index(k, number) as usize)?;
    add_number(alloc, &mut text, "\nterms ", terms)?;
    text.push(b'\n')?;
    Ok(text)
}

// Appends a number behind what it is called.
fn add_number(
    alloc: Global,
    text: &mut Vec<u8>,
    name: &str,
    number: usize,
) -> Result<(), AllocError>
    ensures { OnOk result (text.new.items ≡ text.old.items ++ (name.now ++ decimal number)) }
{
    let line = format!(in alloc; "{name}{number}")?;
    text.extend_from_slice(line.as_bytes())
}
