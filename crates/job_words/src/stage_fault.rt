//! The stage that has more terms than the bound, and what stages are called.
ghost use Rattle.std.specs.Prelude.{◌≡◌, ◌++◌, IfOk, codes, length, string_bytes};
ghost use Rattle.std.specs.Fmt.{decimal};
ghost use Rattle.job_words.specs.StageFault.{block_stage_text, stage_text, stage_fault_text as text_of, HasItsWord};

use crate::texts::{named_number, numbered, two_numbers};
use net_core::Name;
use poly_mixed::{Labels, Stage};
use std::alloc::{AllocError, Global};

/// A stage has more terms than the bound.
#[derive(Drop)]
pub struct StageFault {
    /// What the stage is called.
    pub stage: Name,
    /// How many terms it has.
    pub terms: u64,
    /// The most terms that it might have.
    pub bound: u32,
}

/// The number and the text of the fault of a stage.
pub(crate) fn stage_fault_text(alloc: Global, fault: &StageFault) -> Result<String, AllocError>
    ensures { IfOk result (λ text. string_bytes text ≡ text_of fault.now) }
{
    bound_text(alloc, fault.stage.as_str(), fault.terms, fault.bound)
}

// The number and the text of the fault of a stage that is called this, with its terms and the bound.
fn bound_text(alloc: Global, stage: &str, terms: u64, bound: u32) -> Result<String, AllocError>
    ensures { IfOk result (λ text. string_bytes text ≡ codes "03: " ++ (stage.now ++ (codes " has " ++ (decimal terms ++ (codes " terms, bound " ++ decimal bound))))) }
{
    format!(in alloc; "03: {stage} has {terms} terms, bound {bound}")
}

/// What a stage is called, where these are the labels of the words. A stage of a word is one of a word with a label.
pub fn write_stage(alloc: Global, labels: &Labels, stage: Stage) -> Result<String, AllocError>
    requires { HasItsWord (length labels.now.words) stage }
    ensures { IfOk result (λ text. string_bytes text ≡ stage_text labels.now stage) }
{
    match stage {
        Stage::Cut(cut) => numbered(alloc, "cut ", cut),
        Stage::WordProduct { word, term, bit } => bit_text(alloc, labels.name(word), term, bit),
        Stage::WordSum { word, term } => {
            named_number(alloc, "word ", labels.name(word), " sum ", term)
        }
        Stage::SpecProduct { term, factor } => {
            two_numbers(alloc, "specification term ", term, " factor ", factor)
        }
        Stage::SpecSum { term } => numbered(alloc, "specification sum ", term),
        Stage::InstanceProduct {
            instance,
            term,
            factor,
        } => factor_text(alloc, instance, term, factor),
        Stage::InstanceSum { instance, term } => {
            two_numbers(alloc, "instance ", instance, " sum ", term)
        }
    }
}

// What a stage of a word's term is called, with so many of its first bits replaced.
fn bit_text(alloc: Global, word: &str, term: u32, bit: u32) -> Result<String, AllocError>
    ensures { IfOk result (λ text. string_bytes text ≡ codes "word " ++ (word.now ++ (codes " term " ++ (decimal term ++ (codes " bit " ++ decimal bit))))) }
{
    format!(in alloc; "word {word} term {term} bit {bit}")
}

// What a stage of so many of the first factors of a term of an instance's block is called.
fn factor_text(alloc: Global, instance: u32, term: u32, factor: u32) -> Result<String, AllocError>
    ensures { IfOk result (λ text. string_bytes text ≡ codes "instance " ++ (decimal instance ++ (codes " term " ++ (decimal term ++ (codes " factor " ++ decimal factor))))) }
{
    format!(in alloc; "instance {instance} term {term} factor {factor}")
}

/// What a stage of the block of this model is called, where these are the labels of the block's words. A stage of a word is one of a
/// word with a label.
pub fn write_block_stage(
    alloc: Global,
    model: &str,
    labels: &Labels,
    stage: Stage,
) -> Result<String, AllocError>
    requires { HasItsWord (length labels.now.words) stage }
    ensures { IfOk result (λ text. string_bytes text ≡ block_stage_text model.now labels.now stage) }
{
    let stage = write_stage(alloc, labels, stage)?;
    block_text(alloc, model, stage.as_str())
}

// What a stage is called that is called this in the block of a model.
fn block_text(alloc: Global, model: &str, stage: &str) -> Result<String, AllocError>
    ensures { IfOk result (λ text. string_bytes text ≡ codes "block " ++ (model.now ++ (codes " " ++ stage.now))) }
{
    format!(in alloc; "block {model} {stage}")
}
