//! The command `eval`: the output word's element where the words have given elements.
ghost use Rattle.std.specs.Prelude.{◌≡◌, ◌≤◌, ◌<◌, ◌^◌, ℕ, length};
ghost use Rattle.lists.specs.Lists.{Has};
ghost use Rattle.job_input.specs.Labelling.{labels_of};
ghost use Rattle.job_input.specs.Setting.{setting_value, IsReady, IsTakenFor};
ghost use Rattle.answer_core.specs.Replies.{Replies, RepliesAlone};
ghost use Rattle.answer_polynomials.specs.Eval.{EvalReply, EvalAt, EvalAfter, EvalAnswerTo};

use crate::values::read_values;
use answer_core::{Output, add_word, labels};
use gf_field::Field;
use job_input::{BoundNetlist, Setting, read_netlist, unroll_netlist};
use job_io::Shelf;
use job_words::{EvalWords, Stop};
use lift_table::output_at;
use net_words::Combinational;
use poly_mixed::Labels;
use std::alloc::Global;

/// What the command answers over a setting and its netlist's file.
pub fn answer<F: Field, S: Shelf>(
    alloc: Global,
    field: &F,
    setting: &Setting,
    words: &EvalWords,
    shelf: &mut S,
) -> Result<Output, Stop>
    requires { IsReady (F.degree field.now) (F.product field.now) setting.now }
    ensures held { S.held shelf.new ≡ S.held shelf.old }
    ensures never_fall { (S.faults shelf.old ≤ S.faults shelf.new) × (S.misses shelf.old ≤ S.misses shelf.new) }
    ensures gives { Replies S.held S.misses S.faults shelf.old shelf.new result (EvalAnswerTo (setting_value (F.degree field.now) (F.product field.now) setting.now) words.now) }
{
    match read_netlist(alloc, shelf, setting, words.net) {
        Ok(netlist) => over(alloc, field, setting, words, netlist),
        Err(stop) => Err(stop),
    }
}

// The answer over the netlist; the values are taken here.
fn over<F: Field>(
    alloc: Global,
    field: &F,
    setting: &Setting,
    words: &EvalWords,
    netlist: BoundNetlist,
) -> Result<Output, Stop>
    requires ready { IsReady (F.degree field.now) (F.product field.now) setting.now }
    requires taken { IsTakenFor (F.degree field.now) setting.now netlist }
    ensures { RepliesAlone result (EvalAfter (setting_value (F.degree field.now) (F.product field.now) setting.now) words.now netlist) }
{
    let labels = labels(alloc, field, setting)?;
    match read_values(alloc, field, labels.words(), words.values) {
        Ok(xs) => at(alloc, field, setting, &labels, words, netlist, &xs),
        Err(stop) => Err(stop),
    }
}

// The answer at an input; the cycles are unrolled here.
fn at<F: Field>(
    alloc: Global,
    field: &F,
    setting: &Setting,
    labels: &Labels,
    words: &EvalWords,
    netlist: BoundNetlist,
    xs: &[u64],
) -> Result<Output, Stop>
    requires ready { IsReady (F.degree field.now) (F.product field.now) setting.now }
    requires taken { IsTakenFor (F.degree field.now) setting.now netlist }
    requires labels { labels.now ≡ labels_of (F.degree field.now) setting.now.signature.words }
    requires long { length xs.now ≡ length labels.now.words }
    requires elements { (x : ℕ) → Has xs.now x → x < 2 ^ F.degree field.now }
    ensures { RepliesAlone result (EvalAt (setting_value (F.degree field.now) (F.product field.now) setting.now) words.now.net.now netlist xs.now words.now.cycles) }
{
    match unroll_netlist(alloc, words.net, netlist, words.cycles) {
        Ok(circuit) => reply(alloc, field, setting, labels, &circuit, xs),
        Err(stop) => Err(stop),
    }
}

// The line of the output at an input, which is computed gate by gate.
fn reply<F: Field>(
    alloc: Global,
    field: &F,
    setting: &Setting,
    labels: &Labels,
    circuit: &Combinational,
    xs: &[u64],
) -> Result<Output, Stop>
    requires ready { IsReady (F.degree field.now) (F.product field.now) setting.now }
    requires taken { IsTakenFor (F.degree field.now) setting.now circuit.now }
    requires labels { labels.now ≡ labels_of (F.degree field.now) setting.now.signature.words }
    requires long { length xs.now ≡ length labels.now.words }
    requires elements { (x : ℕ) → Has xs.now x → x < 2 ^ F.degree field.now }
    ensures { RepliesAlone result (EvalReply (setting_value (F.degree field.now) (F.product field.now) setting.now) circuit.now xs.now) }
{
    let bases = setting.bases.as_slice();
    let element = output_at(alloc, field, circuit, bases, xs)?;
    let mut text = Vec::new(alloc);
    add_word(alloc, &mut text, labels.output(), element)?;
    Ok(Output { status: 0, text })
}
