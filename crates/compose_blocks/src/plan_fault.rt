//! Faults of tops of instances.
use net_core::Name;
use thiserror::Error;

/// Why a top can't be taken as instances of blocks.
#[derive(Debug, Drop, Error)]
pub enum PlanFault {
    /// A word of the top is fed, or a line feeds a net.
    #[error("a feed in the top")]
    FedInTop,
    /// The line of the top's first gate or latch.
    #[error("a gate or latch at line {line} of the top")]
    GateInTop { line: u32 },
    /// No block is of the model of an instance.
    #[error("a model without a block")]
    NoBlock { model: Name },
    /// The model of a block, flattened alone, is no net.
    #[error("a block that is no net")]
    BlockNet { model: Name },
    /// The net of a block has a latch.
    #[error("a block with a latch")]
    BlockLatch { model: Name },
    /// The words of a block do not bind to its net.
    #[error("a block that does not bind")]
    BlockBind { model: Name },
    /// Out of memory.
    #[error("out of memory")]
    OutOfMemory,
}
