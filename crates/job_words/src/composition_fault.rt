//! Why a design can't be composed of its blocks.
ghost use Rattle.std.specs.Prelude.{◌≡◌, ◌++◌, IfOk, codes, string_bytes};
ghost use Rattle.std.specs.Fmt.{decimal};
ghost use Rattle.job_words.specs.CompositionFault.{composition_text as text_of};

use crate::texts::{about, numbered};
use net_core::Name;
use std::alloc::{AllocError, Global};

/// Why a design can't be composed of its blocks. Lines and instances count from 1.
#[derive(Drop)]
pub enum CompositionFault {
    /// The signature's top has a fed word or a feed.
    FedInTop,
    /// The top of the netlist has a gate or a latch.
    GateInTop { line: u32 },
    /// The signature has no block of this model.
    NoBlock { model: Name },
    /// The model of a block, flattened alone, is no net.
    BlockNet { model: Name },
    /// The model of a block has a latch.
    BlockLatch { model: Name },
    /// The words of a block can't be bound to its model.
    BlockBind { model: Name },
    /// No word feeds this word of the instance's block, or its bits are no formals of their own.
    NotWords { instance: u32, word: Name },
    /// No word feeds the top's output word.
    OutputNotWords,
    /// Instances feed each other in a cycle.
    InstanceLoop { instance: u32 },
}

/// The number and the text of a composition's fault.
pub(crate) fn composition_text(
    alloc: Global,
    fault: &CompositionFault,
) -> Result<String, AllocError>
    ensures { IfOk result (λ text. string_bytes text ≡ text_of fault.now) }
{
    match fault {
        CompositionFault::FedInTop => String::from_str(alloc, "44: the signature has a feed"),
        CompositionFault::GateInTop { line } => {
            format!(in alloc; "44: gate or latch at line {line} of the top")
        }
        CompositionFault::NoBlock { model } => about(alloc, "44: no block ", model, ""),
        CompositionFault::BlockNet { model } => about(alloc, "44: block ", model, " is no net"),
        CompositionFault::BlockLatch { model } => {
            about(alloc, "44: block ", model, " has a latch")
        }
        CompositionFault::BlockBind { model } => {
            about(alloc, "44: block ", model, " does not bind")
        }
        CompositionFault::NotWords { instance, word } => {
            word_text(alloc, *instance, word.as_str())
        }
        CompositionFault::OutputNotWords => String::from_str(alloc, "44: output word"),
        CompositionFault::InstanceLoop { instance } => {
            numbered(alloc, "44: loop through instance ", *instance)
        }
    }
}

// The text of a word of an instance.
fn word_text(alloc: Global, instance: u32, word: &str) -> Result<String, AllocError>
    ensures { IfOk result (λ text. string_bytes text ≡ codes "44: instance " ++ (decimal instance ++ (codes " word " ++ word.now))) }
{
    format!(in alloc; "44: instance {instance} word {word}")
}
