//! What a walk in depth finds in place of an order.
ghost use Rattle.std.specs.Prelude.{◌≡◌};
ghost use Rattle.graph_core.specs.declared.fault.CycleFault.TheVariants.{OutOfMemory};

use std::alloc::{AllocError, AllocFailed};
use thiserror::Error;

/// A cycle, whose points stand in the order of the walk, or out of memory.
#[derive(Debug, Drop, Error)]
pub enum CycleFault {
    #[error("points lead to each other in a cycle")]
    Cycle { points: Vec<u32> },
    #[error("out of memory")]
    OutOfMemory,
}

impl From<AllocError> for CycleFault {
    ghost from_gives = { λ _ e. e ≡ OutOfMemory };

    fn from(_error: AllocError) -> CycleFault {
        CycleFault::OutOfMemory
    }
}

impl<T: Drop> From<AllocFailed<T>> for CycleFault {
    ghost from_gives = { λ _ e. e ≡ OutOfMemory };

    fn from(_error: AllocFailed<T>) -> CycleFault {
        CycleFault::OutOfMemory
    }
}
