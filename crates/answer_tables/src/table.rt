//! The command `table`: the output word's element at every input.
ghost use Rattle.answer_core.specs.Replies.{Replies};
ghost use Rattle.std.specs.Prelude.{◌≡◌, ◌≤◌, length};
ghost use Rattle.lift_table.specs.Small.{IsSmall};
ghost use Rattle.job_words.specs.Stop.{GivesBy};
ghost use Rattle.job_input.specs.Labelling.{labels_of};
ghost use Rattle.job_input.specs.Setting.{setting_value, IsReady, IsTakenFor};
ghost use Rattle.answer_core.specs.Reply.{reply_of};
ghost use Rattle.answer_tables.specs.Table.{TableReply, TableOverTo, TableAnswerTo};

use crate::small_setting::is_small_setting;
use answer_core::{Output, labels};
use gf_field::Field;
use job_input::{Setting, read_circuit};
use job_io::Shelf;
use job_words::{CycleWords, Fault, Stop};
use lift_table::{table, write_table};
use net_words::Combinational;
use std::alloc::Global;

/// What the command answers over a setting and its netlist's file.
pub fn answer<F: Field, S: Shelf>(
    alloc: Global,
    field: &F,
    setting: &Setting,
    words: &CycleWords,
    shelf: &mut S,
) -> Result<Output, Stop>
    requires { IsReady (F.degree field.now) (F.product field.now) setting.now }
    ensures held { S.held shelf.new ≡ S.held shelf.old }
    ensures never_fall { (S.faults shelf.old ≤ S.faults shelf.new) × (S.misses shelf.old ≤ S.misses shelf.new) }
    ensures gives { Replies S.held S.misses S.faults shelf.old shelf.new result (TableAnswerTo (setting_value (F.degree field.now) (F.product field.now) setting.now) words.now) }
{
    let labels = labels(alloc, field, setting)?;
    if !is_small_setting(field, &labels) {
        return Err(Stop::Refused(Fault::NotSmall));
    }
    over(alloc, field, setting, words, shelf)
}

// The answer over a small signature; the netlist's file is read here.
fn over<F: Field, S: Shelf>(
    alloc: Global,
    field: &F,
    setting: &Setting,
    words: &CycleWords,
    shelf: &mut S,
) -> Result<Output, Stop>
    requires ready { IsReady (F.degree field.now) (F.product field.now) setting.now }
    requires small { IsSmall (F.degree field.now) (length (labels_of (F.degree field.now) setting.now.signature.words).words) }
    ensures held { S.held shelf.new ≡ S.held shelf.old }
    ensures never_fall { (S.faults shelf.old ≤ S.faults shelf.new) × (S.misses shelf.old ≤ S.misses shelf.new) }
    ensures gives { Replies S.held S.misses S.faults shelf.old shelf.new result (TableOverTo (setting_value (F.degree field.now) (F.product field.now) setting.now) words.now) }
{
    match read_circuit(alloc, shelf, setting, words.net, words.cycles) {
        Ok(circuit) => reply(alloc, field, setting, &circuit),
        Err(stop) => Err(stop),
    }
}

// The text of the table of a circuit.
fn reply<F: Field>(
    alloc: Global,
    field: &F,
    setting: &Setting,
    circuit: &Combinational,
) -> Result<Output, Stop>
    requires ready { IsReady (F.degree field.now) (F.product field.now) setting.now }
    requires taken { IsTakenFor (F.degree field.now) setting.now circuit.now }
    requires small { IsSmall (F.degree field.now) (length (labels_of (F.degree field.now) setting.now.signature.words).words) }
    ensures { GivesBy reply_of result (TableReply (setting_value (F.degree field.now) (F.product field.now) setting.now) circuit.now) ⊥ ⊥ }
{
    let values = table(alloc, field, circuit, setting.bases.as_slice())?;
    let text = write_table(alloc, &values)?;
    Ok(Output { status: 0, text })
}
