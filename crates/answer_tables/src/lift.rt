//! The command `lift`: the polynomial of a table.
ghost use Rattle.answer_core.specs.Replies.{Replies};
ghost use Rattle.std.specs.Prelude.{◌≡◌, ◌≤◌, ◌*◌, ◌^◌, length};
ghost use Rattle.gf_field.specs.Element.{AreElements};
ghost use Rattle.lift_table.specs.Small.{IsSmall};
ghost use Rattle.job_words.specs.Stop.{GivesBy};
ghost use Rattle.job_input.specs.Labelling.{labels_of};
ghost use Rattle.job_input.specs.Setting.{setting_value, IsReady};
ghost use Rattle.answer_core.specs.Reply.{reply_of};
ghost use Rattle.answer_tables.specs.Lift.{LiftReply, LiftOverTo, LiftAnswerTo};

use crate::small_setting::is_small_setting;
use answer_core::{Output, labels, polynomial_line};
use gf_field::Field;
use job_input::{Setting, read_table_file};
use job_io::Shelf;
use job_words::{Fault, Stop};
use lift_table::lift;
use poly_mixed::Labels;
use std::alloc::Global;

/// What the command answers over a setting and the file of its table.
pub fn answer<F: Field, S: Shelf>(
    alloc: Global,
    field: &F,
    setting: &Setting,
    file: &str,
    shelf: &mut S,
) -> Result<Output, Stop>
    requires { IsReady (F.degree field.now) (F.product field.now) setting.now }
    ensures held { S.held shelf.new ≡ S.held shelf.old }
    ensures never_fall { (S.faults shelf.old ≤ S.faults shelf.new) × (S.misses shelf.old ≤ S.misses shelf.new) }
    ensures gives { Replies S.held S.misses S.faults shelf.old shelf.new result (LiftAnswerTo (setting_value (F.degree field.now) (F.product field.now) setting.now) file.now) }
{
    let labels = labels(alloc, field, setting)?;
    if !is_small_setting(field, &labels) {
        return Err(Stop::Refused(Fault::NotSmall));
    }
    over(alloc, field, setting, &labels, file, shelf)
}

// The answer over a small signature; the table's file is read here.
fn over<F: Field, S: Shelf>(
    alloc: Global,
    field: &F,
    setting: &Setting,
    labels: &Labels,
    file: &str,
    shelf: &mut S,
) -> Result<Output, Stop>
    requires ready { IsReady (F.degree field.now) (F.product field.now) setting.now }
    requires labels { labels.now ≡ labels_of (F.degree field.now) setting.now.signature.words }
    requires small { IsSmall (F.degree field.now) (length labels.now.words) }
    ensures held { S.held shelf.new ≡ S.held shelf.old }
    ensures never_fall { (S.faults shelf.old ≤ S.faults shelf.new) × (S.misses shelf.old ≤ S.misses shelf.new) }
    ensures gives { Replies S.held S.misses S.faults shelf.old shelf.new result (LiftOverTo (setting_value (F.degree field.now) (F.product field.now) setting.now) file.now) }
{
    match read_table_file(alloc, shelf, field.k(), labels.words(), file) {
        Ok(table) => reply(alloc, field, setting, labels, &table),
        Err(stop) => Err(stop),
    }
}

// The line of the polynomial of a table.
fn reply<F: Field>(
    alloc: Global,
    field: &F,
    _setting: &Setting,
    labels: &Labels,
    table: &[u64],
) -> Result<Output, Stop>
    requires ready { IsReady (F.degree field.now) (F.product field.now) _setting.now }
    requires labels { labels.now ≡ labels_of (F.degree field.now) _setting.now.signature.words }
    requires small { IsSmall (F.degree field.now) (length labels.now.words) }
    requires long { length table.now ≡ 2 ^ (F.degree field.now * length labels.now.words) }
    requires elements { AreElements (F.degree field.now) table.now }
    ensures { GivesBy reply_of result (LiftReply (setting_value (F.degree field.now) (F.product field.now) _setting.now) table.now) ⊥ ⊥ }
{
    let poly = lift(alloc, field, labels.words(), table)?;
    let text = polynomial_line(alloc, &poly, labels)?;
    Ok(Output { status: 0, text })
}
