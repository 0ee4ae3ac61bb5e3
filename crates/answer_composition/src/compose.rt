//! The command `compose`: the output word's polynomial in the input words, from the polynomials of blocks.
ghost use Rattle.std.specs.Prelude.{◌≡◌, ◌≤◌, map, Ok};
ghost use Rattle.gf_basis.specs.BasisParts.{elements_of};
ghost use Rattle.job_input.specs.HierarchyIn.{TopBinds};
ghost use Rattle.job_input.specs.Setting.{IsReady, setting_value};
ghost use Rattle.answer_composition.specs.Compose.{ComposeAnswerTo, ComposeOver, ComposeReply};
ghost use Rattle.answer_composition.specs.private.Composing.{AreListsOf};
ghost use Rattle.answer_core.specs.Replies.{Replies, RepliesAlone};

use crate::block_bases::all_bases;
use crate::composition::composition_stop;
use answer_core::{Output, labels, polynomial_line};
use block_compose::{BlockBases, compose};
use gf_field::Field;
use job_input::{Setting, read_hierarchy};
use job_io::Shelf;
use job_words::{ComposeWords, Stop};
use net_blif::Design;
use std::alloc::Global;

/// What the command answers over a setting and its netlist's file.
pub fn answer<F: Field, S: Shelf>(
    alloc: Global,
    field: &F,
    setting: &Setting,
    words: &ComposeWords,
    shelf: &mut S,
) -> Result<Output, Stop>
    requires { IsReady (F.degree field.now) (F.product field.now) setting.now }
    ensures held { S.held shelf.new ≡ S.held shelf.old }
    ensures never_fall { (S.faults shelf.old ≤ S.faults shelf.new) × (S.misses shelf.old ≤ S.misses shelf.new) }
    ensures gives { Replies S.held S.misses S.faults shelf.old shelf.new result (ComposeAnswerTo (setting_value (F.degree field.now) (F.product field.now) setting.now) words.now) }
{
    match read_hierarchy(alloc, shelf, setting, words.net) {
        Ok(design) => over(alloc, field, setting, &design, words.terms),
        Err(stop) => Err(stop),
    }
}

// What it answers over the models of the netlist.
fn over<F: Field>(
    alloc: Global,
    field: &F,
    setting: &Setting,
    design: &Design,
    bound: u32,
) -> Result<Output, Stop>
    requires ready { IsReady (F.degree field.now) (F.product field.now) setting.now }
    requires top { TopBinds setting.now.signature design.now (Ok tt) }
    ensures { RepliesAlone result (ComposeOver (setting_value (F.degree field.now) (F.product field.now) setting.now) design.now bound) }
{
    match all_bases(alloc, field, &setting.signature) {
        Ok(bases) => reply(alloc, field, setting, design, &bases, bound),
        Err(stop) => Err(stop),
    }
}

// The line of the polynomial of a top, or the first refusal or stage of more than `bound` terms.
fn reply<F: Field>(
    alloc: Global,
    field: &F,
    setting: &Setting,
    design: &Design,
    bases: &BlockBases,
    bound: u32,
) -> Result<Output, Stop>
    requires ready { IsReady (F.degree field.now) (F.product field.now) setting.now }
    requires top { TopBinds setting.now.signature design.now (Ok tt) }
    requires bases { AreListsOf (F.degree field.now) (F.product field.now) setting.now.signature.words setting.now.signature.blocks bases.now }
    ensures { RepliesAlone result (ComposeReply (setting_value (F.degree field.now) (F.product field.now) setting.now) design.now (map (map elements_of) bases.now) bound) }
{
    let labels = labels(alloc, field, setting)?;
    match compose(alloc, field, design, &setting.signature, bases, bound) {
        Ok(poly) => {
            let text = polynomial_line(alloc, &poly, &labels)?;
            Ok(Output { status: 0, text })
        }
        Err(fault) => Err(composition_stop(alloc, field, setting, &labels, design, fault, bound)),
    }
}
