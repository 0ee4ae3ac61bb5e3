//! The command `verify`: whether a certificate proves its claim.
ghost use Rattle.std.specs.Prelude.{◌≡◌, ◌≤◌, ◌++◌, length, codes, decimal, IfOk};
ghost use Rattle.poly_mixed.specs.Text.{HasNames, HasWordNames};
ghost use Rattle.outcome.specs.Outcome.{Exactly};
ghost use Rattle.cert_check.specs.Verdict.{verdict_of};
ghost use Rattle.job_words.specs.Stop.{GivesBy};
ghost use Rattle.job_input.specs.Labelling.{labels_of};
ghost use Rattle.job_input.specs.Setting.{setting_value, IsReady, IsTakenFor};
ghost use Rattle.answer_core.specs.Reply.{line_with, reply_of};
ghost use Rattle.answer_certificates.specs.Verify.{VerdictOf, VerifyReply, VerifyAnswerTo, verify_reply};
ghost use Rattle.answer_certificates.specs.private.CertificateStop.{certified_of, IsNamedVerdict};
ghost use Rattle.answer_core.specs.Replies.{Replies, RepliesAlone};

use crate::certificates::{Certified, certificate_labels, read_certified, sum_stop};
use answer_core::{Output, labels, polynomial_line};
use cert_check::{CertVerdict, check};
use gf_field::Field;
use job_input::Setting;
use job_io::Shelf;
use job_words::{PairWords, Stop};
use net_words::Combinational;
use poly_mixed::{Labels, Poly};
use std::alloc::{AllocError, Global};

/// What the command answers over a setting and the files of its netlist and its certificate.
pub fn answer<F: Field, S: Shelf>(
    alloc: Global,
    field: &F,
    setting: &Setting,
    words: &PairWords,
    shelf: &mut S,
) -> Result<Output, Stop>
    requires { IsReady (F.degree field.now) (F.product field.now) setting.now }
    ensures held { S.held shelf.new ≡ S.held shelf.old }
    ensures never_fall { (S.faults shelf.old ≤ S.faults shelf.new) × (S.misses shelf.old ≤ S.misses shelf.new) }
    ensures gives { Replies S.held S.misses S.faults shelf.old shelf.new result (VerifyAnswerTo (setting_value (F.degree field.now) (F.product field.now) setting.now) words.now) }
{
    match read_certified(alloc, shelf, setting, words.net, words.other, words.cycles) {
        Ok(certified) => reply(alloc, field, setting, &certified, words.terms),
        Err(stop) => Err(stop),
    }
}

// The reply over a circuit and the bytes of a certificate, or the fault of the first line that shows one.
fn reply<F: Field>(
    alloc: Global,
    field: &F,
    setting: &Setting,
    certified: &Certified,
    bound: u32,
) -> Result<Output, Stop>
    requires ready { IsReady (F.degree field.now) (F.product field.now) setting.now }
    requires taken { IsTakenFor (F.degree field.now) setting.now certified.now.circuit }
    requires short { length certified.now.text.items ≤ 67108864 }
    ensures { GivesBy reply_of result (VerifyReply (setting_value (F.degree field.now) (F.product field.now) setting.now) bound (certified_of certified.now)) ⊥ ⊥ }
{
    match verdict(
        alloc,
        field,
        setting,
        &certified.circuit,
        &certified.text,
        bound,
    ) {
        Ok(verdict) => {
            let labels = labels(alloc, field, setting)?;
            output(alloc, &labels, &verdict)
        }
        Err(stop) => Err(stop),
    }
}

// The verdict on the bytes of a certificate, or the fault of the first line that shows one.
fn verdict<F: Field>(
    alloc: Global,
    field: &F,
    setting: &Setting,
    circuit: &Combinational,
    bytes: &[u8],
    bound: u32,
) -> Result<CertVerdict, Stop>
    requires ready { IsReady (F.degree field.now) (F.product field.now) setting.now }
    requires taken { IsTakenFor (F.degree field.now) setting.now circuit.now }
    requires short { length bytes.now ≤ 67108864 }
    ensures gives { GivesBy verdict_of result (VerdictOf (setting_value (F.degree field.now) (F.product field.now) setting.now) circuit.now bound bytes.now) ⊥ ⊥ }
    ensures named { IfOk result (λ verdict. IsNamedVerdict (labels_of (F.degree field.now) setting.now.signature.words) (verdict_of verdict)) }
{
    let labels = certificate_labels(alloc, field, setting, circuit)?;
    let bases = setting.bases.as_slice();
    match check(alloc, field, circuit, bases, &labels, bytes, bound) {
        Ok(verdict) => Ok(verdict),
        Err(fault) => Err(sum_stop(alloc, fault, bound)),
    }
}

// What is written of a verdict.
fn output(alloc: Global, labels: &Labels, verdict: &CertVerdict) -> Result<Output, Stop>
    requires { IsNamedVerdict labels.now (verdict_of verdict.now) }
    ensures { RepliesAlone result (Exactly (verify_reply labels.now (verdict_of verdict.now))) }
{
    match verdict {
        CertVerdict::Valid(claim) => {
            let text = valid_text(alloc, claim, labels)?;
            Ok(Output { status: 0, text })
        }
        CertVerdict::Invalid { remaining } => {
            let text = invalid_text(alloc, *remaining)?;
            Ok(Output { status: 1, text })
        }
    }
}

// `valid` and the line of the claim.
fn valid_text(alloc: Global, claim: &Poly, labels: &Labels) -> Result<Vec<u8>, AllocError>
    requires named { HasNames labels.now claim.now.terms }
    requires words_named { HasWordNames labels.now claim.now.terms }
    ensures { IfOk result (λ text. text.items ≡ codes "valid\n" ++ line_with labels.now claim.now.terms) }
{
    let line = polynomial_line(alloc, claim, labels)?;
    let mut text = Vec::from_slice(alloc, b"valid\n")?;
    text.extend_from_slice(&line)?;
    Ok(text)
}

// `invalid` and how many terms are left.
fn invalid_text(alloc: Global, remaining: u64) -> Result<Vec<u8>, AllocError>
    ensures { IfOk result (λ text. text.items ≡ codes "invalid\nremaining " ++ (decimal remaining ++ codes " terms\n")) }
{
    let text = format!(in alloc; "invalid\nremaining {remaining} terms\n")?;
    Ok(text.into_bytes())
}
