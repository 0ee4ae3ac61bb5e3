//! The command `abstract`: the output word's polynomial in the input words.
ghost use Rattle.std.specs.Prelude.{◌≡◌, ◌≤◌};
ghost use Rattle.job_input.specs.Setting.{setting_value, IsReady, IsTakenFor};
ghost use Rattle.answer_core.specs.Replies.{Replies, RepliesAlone};
ghost use Rattle.answer_polynomials.specs.Abstract.{AbstractReply, AbstractAnswerTo};

use answer_core::{
    Output, in_words, labels, last_terms, polynomial_line, read_simpler, stage_stop,
};
use gf_field::Field;
use job_input::Setting;
use job_io::Shelf;
use job_words::{SimplifyWords, Stop};
use net_words::Combinational;
use poly_mixed::NoSteps;
use std::alloc::Global;

/// What the command answers over a setting and its netlist's file.
pub fn answer<F: Field, S: Shelf>(
    alloc: Global,
    field: &F,
    setting: &Setting,
    words: &SimplifyWords,
    shelf: &mut S,
) -> Result<Output, Stop>
    requires { IsReady (F.degree field.now) (F.product field.now) setting.now }
    ensures held { S.held shelf.new ≡ S.held shelf.old }
    ensures never_fall { (S.faults shelf.old ≤ S.faults shelf.new) × (S.misses shelf.old ≤ S.misses shelf.new) }
    ensures gives { Replies S.held S.misses S.faults shelf.old shelf.new result (AbstractAnswerTo (setting_value (F.degree field.now) (F.product field.now) setting.now) words.now) }
{
    match read_simpler(
        alloc,
        shelf,
        setting,
        words.net,
        words.cycles,
        words.simplify,
    ) {
        Ok(circuit) => reply(alloc, field, setting, &circuit, words.terms),
        Err(stop) => Err(stop),
    }
}

// The line of the polynomial of a circuit, or the first stage of more than `bound` terms.
fn reply<F: Field>(
    alloc: Global,
    field: &F,
    setting: &Setting,
    circuit: &Combinational,
    bound: u32,
) -> Result<Output, Stop>
    requires ready { IsReady (F.degree field.now) (F.product field.now) setting.now }
    requires taken { IsTakenFor (F.degree field.now) setting.now circuit.now }
    ensures { RepliesAlone result (AbstractReply (setting_value (F.degree field.now) (F.product field.now) setting.now) circuit.now bound) }
{
    let labels = labels(alloc, field, setting)?;
    let bits = match last_terms(alloc, field, setting, circuit, bound, &mut NoSteps) {
        Ok(bits) => bits,
        Err(fault) => return Err(stage_stop(alloc, &labels, fault, bound)),
    };
    let poly = match in_words(alloc, field, setting, circuit, bits, bound, &mut NoSteps) {
        Ok(poly) => poly,
        Err(fault) => return Err(stage_stop(alloc, &labels, fault, bound)),
    };
    let text = polynomial_line(alloc, &poly, &labels)?;
    Ok(Output { status: 0, text })
}
