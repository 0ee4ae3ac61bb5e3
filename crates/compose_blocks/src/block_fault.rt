//! Faults of blocks.
ghost use Rattle.std.specs.Prelude.{◌≡◌};
ghost use Rattle.compose_blocks.specs.private.Refusals.{bind_refusal_of, flat_refusal_of};

use net_flat::FlatFault;
use net_words::BindFault;
use thiserror::Error;

/// Why a block has no circuit.
#[derive(Clone, Copy, Debug, Error)]
pub enum BlockFault {
    /// Its model, flattened alone, is no net.
    #[error("the block is no net")]
    NoNet,
    /// Its net has a latch.
    #[error("the block has a latch")]
    HasLatch,
    /// Its words do not bind to its net.
    #[error("the block does not bind")]
    NotBound,
    /// Out of memory.
    #[error("out of memory")]
    OutOfMemory,
}

// What a fault of flattening is for a block.
pub(crate) fn flat_refusal(fault: FlatFault) -> BlockFault
    ensures { result ≡ flat_refusal_of fault }
{
    match fault {
        FlatFault::Net(_) | FlatFault::TooManyInstances => BlockFault::NoNet,
        FlatFault::OutOfMemory => BlockFault::OutOfMemory,
    }
}

// What a fault of binding is for a block.
pub(crate) fn bind_refusal(fault: BindFault) -> BlockFault
    ensures { result ≡ bind_refusal_of fault }
{
    match fault {
        BindFault::OutOfMemory => BlockFault::OutOfMemory,
        _ => BlockFault::NotBound,
    }
}
