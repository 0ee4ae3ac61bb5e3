//! Why a net can't be made.
ghost use Rattle.std.specs.Prelude.{◌≡◌};
ghost use Rattle.mult_gen.specs.declared.fault.MakeFault.TheVariants.{OutOfMemory};

use std::alloc::{AllocError, AllocFailed};
use thiserror::Error;

/// Why a net can't be made.
#[derive(Debug, Drop, Error)]
pub enum MakeFault {
    /// The signature has not the form that the kind asks for.
    #[error("the signature does not fit")]
    Unfit,
    /// Out of memory.
    #[error("out of memory")]
    OutOfMemory,
}

impl From<AllocError> for MakeFault {
    ghost from_gives = { λ _ e. e ≡ OutOfMemory };

    fn from(_error: AllocError) -> MakeFault {
        MakeFault::OutOfMemory
    }
}

impl<T: Drop> From<AllocFailed<T>> for MakeFault {
    ghost from_gives = { λ _ e. e ≡ OutOfMemory };

    fn from(_error: AllocFailed<T>) -> MakeFault {
        MakeFault::OutOfMemory
    }
}
