//! The command `certify`: the output word's polynomial in the input words, with the steps that lead to it.
ghost use Rattle.std.specs.Prelude.{◌≡◌, ◌≤◌};
ghost use Rattle.job_words.specs.Stop.{GivesBy};
ghost use Rattle.job_input.specs.Setting.{setting_value, IsReady, IsTakenFor};
ghost use Rattle.answer_core.specs.Reply.{reply_of};
ghost use Rattle.answer_certificates.specs.Certify.{CertifyReply, CertifyAnswerTo};
ghost use Rattle.answer_core.specs.Replies.{Replies};

use crate::certificates::certificate_labels;
use answer_core::{Output, in_words, last_terms, stage_stop};
use cert_make::Certificate;
use gf_field::Field;
use job_input::{Setting, read_circuit};
use job_io::Shelf;
use job_words::{NetWords, Stop};
use net_words::Combinational;
use std::alloc::Global;

/// What the command answers over a setting and its netlist's file.
pub fn answer<F: Field, S: Shelf>(
    alloc: Global,
    field: &F,
    setting: &Setting,
    words: &NetWords,
    shelf: &mut S,
) -> Result<Output, Stop>
    requires { IsReady (F.degree field.now) (F.product field.now) setting.now }
    ensures held { S.held shelf.new ≡ S.held shelf.old }
    ensures never_fall { (S.faults shelf.old ≤ S.faults shelf.new) × (S.misses shelf.old ≤ S.misses shelf.new) }
    ensures gives { Replies S.held S.misses S.faults shelf.old shelf.new result (CertifyAnswerTo (setting_value (F.degree field.now) (F.product field.now) setting.now) words.now) }
{
    match read_circuit(alloc, shelf, setting, words.net, words.cycles) {
        Ok(circuit) => reply(alloc, field, setting, &circuit, words.terms),
        Err(stop) => Err(stop),
    }
}

// The certificate of a circuit, or the first stage of more than `bound` terms.
fn reply<F: Field>(
    alloc: Global,
    field: &F,
    setting: &Setting,
    circuit: &Combinational,
    bound: u32,
) -> Result<Output, Stop>
    requires ready { IsReady (F.degree field.now) (F.product field.now) setting.now }
    requires taken { IsTakenFor (F.degree field.now) setting.now circuit.now }
    ensures { GivesBy reply_of result (CertifyReply (setting_value (F.degree field.now) (F.product field.now) setting.now) circuit.now bound) ⊥ ⊥ }
{
    let labels = certificate_labels(alloc, field, setting, circuit)?;
    let mut certificate = Certificate::new(alloc);
    let bits = match last_terms(alloc, field, setting, circuit, bound, &mut certificate) {
        Ok(bits) => bits,
        Err(fault) => return Err(stage_stop(alloc, &labels, fault, bound)),
    };
    let claim = match in_words(
        alloc,
        field,
        setting,
        circuit,
        bits,
        bound,
        &mut certificate,
    ) {
        Ok(claim) => claim,
        Err(fault) => return Err(stage_stop(alloc, &labels, fault, bound)),
    };
    let text = certificate.write(alloc, &claim, &labels)?;
    Ok(Output { status: 0, text })
}
