//! Faults of wirings.
ghost use Rattle.std.specs.Prelude.{◌≡◌};
ghost use Rattle.compose_wiring.specs.declared.fault.WiringFault.TheVariants.{OutOfMemory};

use std::alloc::{AllocError, AllocFailed};
use thiserror::Error;

/// Why a top is not wired.
#[derive(Clone, Copy, Debug, PartialEq, Eq, Error)]
pub enum WiringFault {
    /// The first word of an instance that no feed fits, or whose bits are not the instance's to drive. Instances count from 1,
    /// in the order of the lines; words count from 0, in the order of the block's lines, the output word among them.
    #[error("no feed fits word {word} of instance {instance}")]
    NotWords { instance: u32, word: u32 },
    /// No feed fits the output word of the top.
    #[error("no feed fits the output word")]
    OutputNotWords,
    /// Out of memory.
    #[error("out of memory")]
    OutOfMemory,
}

impl From<AllocError> for WiringFault {
    ghost from_gives = { λ _ e. e ≡ OutOfMemory };

    fn from(_error: AllocError) -> WiringFault {
        WiringFault::OutOfMemory
    }
}

impl<T: Drop> From<AllocFailed<T>> for WiringFault {
    ghost from_gives = { λ _ e. e ≡ OutOfMemory };

    fn from(_error: AllocFailed<T>) -> WiringFault {
        WiringFault::OutOfMemory
    }
}
