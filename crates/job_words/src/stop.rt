//! Why no output comes.
ghost use Rattle.std.specs.Prelude.{◌≡◌};
ghost use Rattle.job_words.specs.declared.stop.Stop.TheVariants.{OutOfMemory};

use crate::fault::Fault;
use std::alloc::{AllocError, AllocFailed};

/// Why no output comes.
#[derive(Drop)]
pub enum Stop {
    /// An input is refused.
    Refused(Fault),
    /// The shelf failed.
    Outside,
    /// Out of memory.
    OutOfMemory,
}

impl From<AllocError> for Stop {
    ghost from_gives = { λ _ e. e ≡ OutOfMemory };

    fn from(_error: AllocError) -> Stop {
        Stop::OutOfMemory
    }
}

impl<T: Drop> From<AllocFailed<T>> for Stop {
    ghost from_gives = { λ _ e. e ≡ OutOfMemory };

    fn from(_error: AllocFailed<T>) -> Stop {
        Stop::OutOfMemory
    }
}
