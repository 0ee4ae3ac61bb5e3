//! The answer to the words, and its text written whole.
ghost use Rattle.std.specs.Prelude.{◌≡◌, ◌⊎◌, ◌≤◌, map, string_bytes, IfErr, IfOk};
ghost use Rattle.std.specs.Io.KnownBytes.{Keeps};
ghost use Rattle.job_io.specs.Counts.{Rose};
ghost use Rattle.job_words.specs.Fault.{fault_line, fault_status};
ghost use Rattle.job_input.specs.Setting.{field_value, setting_value, AreSaid, IsNamedBy, IsReady};
ghost use Rattle.gf_abs.specs.Answer.{Answer, CommandAnswer, SignedTask, TaskAnswer, TaskOver, signed_with};
ghost use Rattle.answer_core.specs.Replies.{Replies};
ghost use Rattle.gf_abs.specs.Written.{IsText, OutsideFailed, WritesWhole};

use answer_certificates::{certify, upgrade, verify};
use answer_composition::compose;
use answer_core::Output;
use answer_makers::{make, trial};
use answer_polynomials::{abstracting, bits, check, eval, same};
use answer_tables::{iso, lift, table};
use gf_field::Field;
use gf_tower::AnyField;
use job_input::{NamedSetting, Setting, Signed, read_signed, setting_over};
use job_io::{Shelf, Sink, put_all};
use job_words::{Command, Fault, Stop, Task, read_words, status_of, write_fault};
use net_signature::Signature;
use std::alloc::Global;

// The output of the words.
fn answer<S: Shelf>(alloc: Global, words: &[String], shelf: &mut S) -> Result<Output, Stop>
    ensures held { S.held shelf.new ≡ S.held shelf.old }
    ensures never_fall { (S.faults shelf.old ≤ S.faults shelf.new) × (S.misses shelf.old ≤ S.misses shelf.new) }
    ensures gives { Replies S.held S.misses S.faults shelf.old shelf.new result (Answer (map string_bytes words.now)) }
{
    match read_words(words) {
        Some(command) => job_answer(alloc, &command, shelf),
        None => Err(Stop::Refused(Fault::Words)),
    }
}

// The output of a command.
fn job_answer<S: Shelf>(alloc: Global, command: &Command, shelf: &mut S) -> Result<Output, Stop>
    ensures held { S.held shelf.new ≡ S.held shelf.old }
    ensures never_fall { (S.faults shelf.old ≤ S.faults shelf.new) × (S.misses shelf.old ≤ S.misses shelf.new) }
    ensures gives { Replies S.held S.misses S.faults shelf.old shelf.new result (CommandAnswer command.now) }
{
    match command {
        Command::Over { signature, task } => over_signature(alloc, signature, task, shelf),
        Command::Trial(words) => trial::answer(alloc, words),
    }
}

// The output of a task over the signature of a file, whose field is matched here and nowhere else.
fn over_signature<S: Shelf>(
    alloc: Global,
    file: &str,
    task: &Task,
    shelf: &mut S,
) -> Result<Output, Stop>
    ensures held { S.held shelf.new ≡ S.held shelf.old }
    ensures never_fall { (S.faults shelf.old ≤ S.faults shelf.new) × (S.misses shelf.old ≤ S.misses shelf.new) }
    ensures gives { Replies S.held S.misses S.faults shelf.old shelf.new result (TaskOver file.now task.now) }
{
    let Signed { signature, field } = match read_signed(alloc, shelf, file) {
        Ok(signed) => signed,
        Err(stop) => return Err(stop),
    };
    match &field {
        AnyField::Base(base) => signed_answer(alloc, base, &field, signature, task, shelf),
        AnyField::Tower(tower) => signed_answer(alloc, tower, &field, signature, task, shelf),
        AnyField::Upper(upper) => signed_answer(alloc, upper, &field, signature, task, shelf),
    }
}

// The output of a command over its field, which is that one of any.
fn signed_answer<F: Field, S: Shelf>(
    alloc: Global,
    field: &F,
    any: &AnyField,
    signature: Signature,
    task: &Task,
    shelf: &mut S,
) -> Result<Output, Stop>
    requires said { AreSaid signature }
    requires named { IsNamedBy signature any.now }
    requires same { field_value any.now ≡ record { k = F.degree field.now; product = F.product field.now } }
    ensures held { S.held shelf.new ≡ S.held shelf.old }
    ensures never_fall { (S.faults shelf.old ≤ S.faults shelf.new) × (S.misses shelf.old ≤ S.misses shelf.new) }
    ensures gives { Replies S.held S.misses S.faults shelf.old shelf.new result (SignedTask (signed_with (F.degree field.now) (F.product field.now) signature) task.now) }
{
    match setting_over(alloc, field, signature) {
        Ok(setting) => task_answer(alloc, field, any, &setting, task, shelf),
        Err(stop) => Err(stop),
    }
}

// The output of each command over a setting and its field, which is that one of any.
fn task_answer<F: Field, S: Shelf>(
    alloc: Global,
    field: &F,
    any: &AnyField,
    setting: &Setting,
    task: &Task,
    shelf: &mut S,
) -> Result<Output, Stop>
    requires ready { IsReady (F.degree field.now) (F.product field.now) setting.now }
    requires named { IsNamedBy setting.now.signature any.now }
    requires same { field_value any.now ≡ record { k = F.degree field.now; product = F.product field.now } }
    ensures held { S.held shelf.new ≡ S.held shelf.old }
    ensures never_fall { (S.faults shelf.old ≤ S.faults shelf.new) × (S.misses shelf.old ≤ S.misses shelf.new) }
    ensures gives { Replies S.held S.misses S.faults shelf.old shelf.new result (TaskAnswer (setting_value (F.degree field.now) (F.product field.now) setting.now) task.now) }
{
    let named = NamedSetting {
        setting,
        field: any,
    };
    match task {
        Task::Bits(words) => { bits::answer(alloc, field, setting, words, shelf) }
        Task::Abstract(words) => { abstracting::answer(alloc, field, setting, words, shelf) }
        Task::Check(words) => { check::answer(alloc, field, setting, words, shelf) }
        Task::Same(words) => { same::answer(alloc, field, setting, words, shelf) }
        Task::Eval(words) => { eval::answer(alloc, field, setting, words, shelf) }
        Task::Iso(file) => { iso::answer(alloc, &named, file, shelf) }
        Task::Lift(file) => { lift::answer(alloc, field, setting, file, shelf) }
        Task::Table(words) => { table::answer(alloc, field, setting, words, shelf) }
        Task::Certify(words) => { certify::answer(alloc, field, setting, words, shelf) }
        Task::Verify(words) => { verify::answer(alloc, field, setting, words, shelf) }
        Task::Upgrade(words) => { upgrade::answer(alloc, field, setting, words, shelf) }
        Task::Make(kind) => make::answer(alloc, &named, *kind),
        Task::Compose(words) => { compose::answer(alloc, field, setting, words, shelf) }
    }
}

// The line of a refusal with its status, or the status of a stop of which nothing is written: 4 where the outside failed, else 5.
fn refusal(alloc: Global, stop: &Stop) -> Result<Output, u8>
    ensures text { IfOk result (λ r. (fault : _) × (stop.now ≡ Stop.Refused fault)
        × (r.text.items ≡ fault_line fault) × (r.status ≡ fault_status fault)) }
    ensures status { IfErr result (λ s. ((s ≡ 4) × (stop.now ≡ Stop.Outside)) ⊎ (s ≡ 5)) }
{
    match stop {
        Stop::Refused(fault) => match write_fault(alloc, fault) {
            Ok(text) => Ok(Output {
                status: status_of(fault),
                text,
            }),
            Err(_) => Err(5),
        },
        Stop::Outside => Err(4),
        Stop::OutOfMemory => Err(5),
    }
}

// The status and the text that is to be written, or the status with which nothing is.
fn status_and_text<S: Shelf>(alloc: Global, words: &[String], shelf: &mut S) -> Result<Output, u8>
    ensures held { S.held shelf.new ≡ S.held shelf.old }
    ensures never_fall { (S.faults shelf.old ≤ S.faults shelf.new) × (S.misses shelf.old ≤ S.misses shelf.new) }
    ensures text { IfOk result (λ r. IsText (Answer (map string_bytes words.now) (S.held shelf.old))
        (Rose (S.misses shelf.old) (S.misses shelf.new)) r.status r.text.items) }
    ensures stops { IfErr result (λ s. ((s ≡ 4) × Rose (S.faults shelf.old) (S.faults shelf.new)) ⊎ (s ≡ 5)) }
{
    match answer(alloc, words, shelf) {
        Ok(output) => Ok(output),
        Err(stop) => {
            let refused = refusal(alloc, &stop);
            drop(stop);
            refused
        }
    }
}

// The answer is written whole, with its status, unless the outside or memory fails.
pub fn write_answer<S: Shelf, K: Sink>(
    alloc: Global,
    words: &[String],
    shelf: &mut S,
    sink: &mut K,
) -> u8
    ensures answers { (result ≡ 4) ⊎ (result ≡ 5) ⊎ WritesWhole (map string_bytes words.now) S.held S.misses shelf.old shelf.new result K.written sink.old sink.new }
    ensures failed { result ≡ 4 → OutsideFailed (map string_bytes words.now) S.held S.misses S.faults shelf.old shelf.new K.faults K.written sink.old sink.new }
    ensures no_memory { result ≡ 5 → Keeps (K.written sink.old) (K.written sink.new) }
    ensures held { S.held shelf.new ≡ S.held shelf.old }
    ensures shelf_counts { (S.faults shelf.old ≤ S.faults shelf.new) × (S.misses shelf.old ≤ S.misses shelf.new) }
    ensures sink_counts { K.faults sink.old ≤ K.faults sink.new }
{
    match status_and_text(alloc, words, shelf) {
        Ok(output) => match put_all(sink, &output.text) {
            Ok(()) => output.status,
            Err(_) => 4,
        },
        Err(status) => status,
    }
}
