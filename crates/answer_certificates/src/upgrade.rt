//! The command `upgrade`: a certificate in the newest version.
ghost use Rattle.std.specs.Prelude.{◌≡◌, ◌≤◌, length};
ghost use Rattle.job_words.specs.Stop.{GivesBy};
ghost use Rattle.job_input.specs.Setting.{setting_value, IsReady, IsTakenFor};
ghost use Rattle.answer_core.specs.Reply.{reply_of};
ghost use Rattle.answer_certificates.specs.Upgrade.{UpgradeReply, UpgradeAnswerTo};
ghost use Rattle.answer_certificates.specs.private.CertificateStop.{certified_of};
ghost use Rattle.answer_core.specs.Replies.{Replies};

use crate::certificates::{Certified, certificate_labels, read_certified, text_stop};
use answer_core::Output;
use cert_make::upgrade;
use gf_field::Field;
use job_input::Setting;
use job_io::Shelf;
use job_words::{CyclePairWords, Stop};
use std::alloc::Global;

/// What the command answers over a setting and the files of its netlist and its certificate.
pub fn answer<F: Field, S: Shelf>(
    alloc: Global,
    field: &F,
    setting: &Setting,
    words: &CyclePairWords,
    shelf: &mut S,
) -> Result<Output, Stop>
    requires { IsReady (F.degree field.now) (F.product field.now) setting.now }
    ensures held { S.held shelf.new ≡ S.held shelf.old }
    ensures never_fall { (S.faults shelf.old ≤ S.faults shelf.new) × (S.misses shelf.old ≤ S.misses shelf.new) }
    ensures gives { Replies S.held S.misses S.faults shelf.old shelf.new result (UpgradeAnswerTo (setting_value (F.degree field.now) (F.product field.now) setting.now) words.now) }
{
    match read_certified(alloc, shelf, setting, words.net, words.other, words.cycles) {
        Ok(certified) => reply(alloc, field, setting, &certified),
        Err(stop) => Err(stop),
    }
}

// The reply over a circuit and the bytes of a certificate, or the fault of the first line that has one.
fn reply<F: Field>(
    alloc: Global,
    field: &F,
    setting: &Setting,
    certified: &Certified,
) -> Result<Output, Stop>
    requires ready { IsReady (F.degree field.now) (F.product field.now) setting.now }
    requires taken { IsTakenFor (F.degree field.now) setting.now certified.now.circuit }
    requires short { length certified.now.text.items ≤ 67108864 }
    ensures { GivesBy reply_of result (UpgradeReply (setting_value (F.degree field.now) (F.product field.now) setting.now) (certified_of certified.now)) ⊥ ⊥ }
{
    let circuit = &certified.circuit;
    let labels = certificate_labels(alloc, field, setting, circuit)?;
    match upgrade(alloc, field.k(), circuit, &labels, &certified.text) {
        Ok(text) => Ok(Output { status: 0, text }),
        Err(fault) => Err(text_stop(fault)),
    }
}
