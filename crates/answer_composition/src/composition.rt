//! Why no output comes where a composition is refused.
ghost use Rattle.std.specs.Prelude.{◌≡◌, ◌<◌, Some, length, slice_get, IfOk};
ghost use Rattle.net_blif.specs.Top.{instances_of, model_in};
ghost use Rattle.net_blif.specs.declared.item.Item.{Item};
ghost use Rattle.net_words.specs.Binding.{AreWords};
ghost use Rattle.net_signature.specs.WordNames.{HaveNames};
ghost use Rattle.job_words.specs.StageFault.{block_stage_text, HasItsWord};
ghost use Rattle.job_words.specs.declared.composition_fault.CompositionFault.TheVariants.{NotWords as OfWords};
ghost use Rattle.job_words.specs.declared.fault.Fault.TheVariants.{Composition as OfComposition};
ghost use Rattle.job_input.specs.Labelling.{labels_of, word_labels};
ghost use Rattle.job_input.specs.NetlistOf.{word_name as name_of_word};
ghost use Rattle.job_input.specs.Setting.{IsReady, setting_value};
ghost use Rattle.answer_composition.specs.Compose.{compose_fault, instance_model as model_of_instance, stage_called, words_in as words_of_model};
ghost use Rattle.answer_composition.specs.private.Composing.{HasNamedStage};
ghost use Rattle.answer_core.specs.StageStop.{stage_fault, IsRefusalOf, IsStopOf};

use answer_core::stage_stop;
use block_compose::ComposeFault;
use gf_field::Field;
use job_input::{Setting, labels_for};
use job_words::{CompositionFault, Fault, StageFault, Stop, write_block_stage};
use net_blif::Design;
use net_core::Name;
use net_signature::Block;
use net_words::WordText;
use poly_mixed::{Labels, ReduceFault, Stage};
use std::alloc::{AllocError, Global};

/// Why no output comes of a top over a setting. The word of a stage is one of the top, or of the block that the fault names.
pub(crate) fn composition_stop<F: Field>(
    alloc: Global,
    field: &F,
    setting: &Setting,
    labels: &Labels,
    design: &Design,
    fault: ComposeFault,
    bound: u32,
) -> Stop
    requires ready { IsReady (F.degree field.now) (F.product field.now) setting.now }
    requires labels { labels.now ≡ labels_of (F.degree field.now) setting.now.signature.words }
    requires named { HasNamedStage (F.degree field.now) setting.now.signature.words setting.now.signature.blocks fault }
    ensures { IsStopOf (compose_fault (setting_value (F.degree field.now) (F.product field.now) setting.now) design.now bound fault) result }
{
    let blocks = setting.signature.blocks();
    match fault {
        ComposeFault::FedInTop => refused(CompositionFault::FedInTop),
        ComposeFault::GateInTop { line } => refused(CompositionFault::GateInTop { line }),
        ComposeFault::NoBlock { model } => refused(CompositionFault::NoBlock { model }),
        ComposeFault::BlockNet { model } => refused(CompositionFault::BlockNet { model }),
        ComposeFault::BlockLatch { model } => refused(CompositionFault::BlockLatch { model }),
        ComposeFault::BlockBind { model } => refused(CompositionFault::BlockBind { model }),
        ComposeFault::NotWords { instance, word } => {
            not_words(alloc, design, blocks, instance, word)
        }
        ComposeFault::OutputNotWords => refused(CompositionFault::OutputNotWords),
        ComposeFault::InstanceLoop { instance } => {
            refused(CompositionFault::InstanceLoop { instance })
        }
        ComposeFault::TooManyTerms {
            block,
            stage,
            terms,
        } => stage_over(alloc, field, setting, labels, block, stage, terms, bound),
        ComposeFault::OutOfMemory => Stop::OutOfMemory,
    }
}

// The refusal of a stage of the block of this model, or, where none is given, of an instance.
fn stage_over<F: Field>(
    alloc: Global,
    field: &F,
    setting: &Setting,
    labels: &Labels,
    block: Option<Name>,
    stage: Stage,
    terms: u64,
    bound: u32,
) -> Stop
    requires ready { IsReady (F.degree field.now) (F.product field.now) setting.now }
    requires labels { labels.now ≡ labels_of (F.degree field.now) setting.now.signature.words }
    requires named { HasNamedStage (F.degree field.now) setting.now.signature.words setting.now.signature.blocks (ComposeFault.TooManyTerms block stage terms) }
    ensures { IsRefusalOf (stage_fault (stage_called (setting_value (F.degree field.now) (F.product field.now) setting.now) block stage) terms bound) result }
{
    let blocks = setting.signature.blocks();
    match block {
        Some(model) => {
            let model = model.as_str();
            block_over(alloc, field.k(), blocks, model, stage, terms, bound)
        }
        None => {
            let fault = ReduceFault::TooManyTerms { stage, terms };
            stage_stop(alloc, labels, fault, bound)
        }
    }
}

// The refusal of a composition.
fn refused(fault: CompositionFault) -> Stop
    ensures { IsRefusalOf (OfComposition fault) result }
{
    Stop::Refused(Fault::Composition(fault))
}

// The refusal of a word of an instance.
fn not_words(alloc: Global, design: &Design, blocks: &[Block], instance: u32, word: u32) -> Stop
    ensures { IsRefusalOf (OfComposition (OfWords instance (name_of_word (words_of_model blocks.now (model_of_instance design.now instance)) word))) result }
{
    let words = words_in(blocks, instance_model(design, instance));
    match Name::new(alloc, word_name(words, word)) {
        Ok(word) => refused(CompositionFault::NotWords { instance, word }),
        Err(_) => Stop::OutOfMemory,
    }
}

// The name of the model of an instance, which counts from 1.
fn instance_model(design: &Design, instance: u32) -> &str
    ensures { result.now ≡ model_of_instance design.now instance }
{
    let place = instance.saturating_sub(1);
    if place < design.instances() {
        model_name(design, place)
    } else {
        ""
    }
}

// The name of the model of an instance that there is, which counts from 0.
fn model_name(design: &Design, place: u32) -> &str
    requires { place < length (instances_of design.now) }
    ensures { (item : Item) → slice_get (instances_of design.now) place ≡ Some item → result.now ≡ model_in item }
{
    design.name(design.instance_model(place))
}

// The words of the block of this model; none where no block is of it.
fn words_in<'a>(blocks: &'a [Block], model: &str) -> &'a [WordText]
    ensures { result.now ≡ words_of_model blocks.now model.now }
{
    for block in blocks {
        if model == block.model() {
            return block.words();
        }
    }
    &[]
}

// The name of a word by its number.
fn word_name(words: &[WordText], word: u32) -> &str
    ensures { result.now ≡ name_of_word words.now word }
{
    match words.get(word as usize) {
        Some(word) => word.name.as_str(),
        None => "",
    }
}

// The refusal of a stage of the block of this model.
fn block_over(
    alloc: Global,
    k: u32,
    blocks: &[Block],
    model: &str,
    stage: Stage,
    terms: u64,
    bound: u32,
) -> Stop
    requires words { AreWords k (words_of_model blocks.now model.now) }
    requires names { HaveNames (words_of_model blocks.now model.now) }
    requires named { HasItsWord (length (word_labels k (words_of_model blocks.now model.now))) stage }
    ensures { IsRefusalOf (stage_fault (block_stage_text model.now (labels_of k (words_of_model blocks.now model.now)) stage) terms bound) result }
{
    match block_stage(alloc, k, words_in(blocks, model), model, stage) {
        Ok(stage) => Stop::Refused(Fault::Stage(StageFault {
            stage,
            terms,
            bound,
        })),
        Err(_) => Stop::OutOfMemory,
    }
}

// What a stage of the block of this model with these words is called.
fn block_stage(
    alloc: Global,
    k: u32,
    words: &[WordText],
    model: &str,
    stage: Stage,
) -> Result<Name, AllocError>
    requires words { AreWords k words.now }
    requires names { HaveNames words.now }
    requires named { HasItsWord (length (word_labels k words.now)) stage }
    ensures { IfOk result (λ name. name ≡ block_stage_text model.now (labels_of k words.now) stage) }
{
    let labels = labels_for(alloc, words, k)?;
    let text = write_block_stage(alloc, model, &labels, stage)?;
    let name = Name::new(alloc, text.as_str())?;
    Ok(name)
}
