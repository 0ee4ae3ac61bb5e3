//! Why a net is not unrolled.
ghost use Rattle.std.specs.Prelude.{◌≡◌};
ghost use Rattle.unroll.specs.declared.fault.UnrollFault.TheVariants.{OutOfMemory};

use std::alloc::{AllocError, AllocFailed};
use thiserror::Error;

/// Why a net is not unrolled.
#[derive(Clone, Copy, Debug, PartialEq, Eq, Error)]
pub enum UnrollFault {
    /// The unrolled net would have more than 1,048,576 nets.
    #[error("too many nets after unrolling")]
    TooManyNets,
    /// It would have more than 1,048,576 gates.
    #[error("too many gates after unrolling")]
    TooManyGates,
    /// Out of memory.
    #[error("out of memory")]
    OutOfMemory,
}

impl From<AllocError> for UnrollFault {
    ghost from_gives = { λ _ e. e ≡ OutOfMemory };

    fn from(_error: AllocError) -> UnrollFault {
        UnrollFault::OutOfMemory
    }
}

impl<T: Drop> From<AllocFailed<T>> for UnrollFault {
    ghost from_gives = { λ _ e. e ≡ OutOfMemory };

    fn from(_error: AllocFailed<T>) -> UnrollFault {
        UnrollFault::OutOfMemory
    }
}
