//! Faults of compositions.
use net_core::Name;
use poly_mixed::Stage;
use thiserror::Error;

/// Why a top has no polynomial by words. Instances count from 1, in the order of the lines.
#[derive(Debug, Drop, Error)]
pub enum ComposeFault {
    /// A word of the top is fed, or a line feeds a net.
    #[error("a feed in the top")]
    FedInTop,
    /// The line of the top's first gate or latch.
    #[error("a gate or latch at line {line} of the top")]
    GateInTop {
        line: u32,
    },
    /// No block is of the model of an instance.
    #[error("a model without a block")]
    NoBlock {
        model: Name,
    },
    /// The model of a block, flattened alone, is no net.
    #[error("a block that is no net")]
    BlockNet {
        model: Name,
    },
    /// The net of a block has a latch.
    #[error("a block with a latch")]
    BlockLatch {
        model: Name,
    },
    /// The words of a block do not bind to its net.
    #[error("a block that does not bind")]
    BlockBind {
        model: Name,
    },
    /// The first word of an instance that no feed fits, or whose bits are not the instance's to drive. Words count from 0, in
    /// the order of the block's lines, the output word among them.
    #[error("no feed fits word {word} of instance {instance}")]
    NotWords {
        instance: u32,
        word: u32,
    },
    /// No feed fits the output word of the top.
    #[error("no feed fits the output word")]
    OutputNotWords,
    /// Instances feed each other in a cycle, of which a walk meets this one first.
    #[error("a loop through instance {instance}")]
    InstanceLoop {
        instance: u32,
    },
    /// The first stage above the bound, with its size: of the block of this model, or, where none is named, of an instance.
    #[error("a stage has {terms} terms")]
    TooManyTerms {
        block: Option<Name>,
        stage: Stage,
        terms: u64,
    },
    /// Out of memory, in whichever step.
    #[error("out of memory")]
    OutOfMemory,
}
