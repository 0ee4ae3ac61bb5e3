//! Why an elimination in buckets ends early.
ghost use Rattle.std.specs.Prelude.{◌≡◌};
ghost use Rattle.rato_reduce.specs.declared.stop.Stop.TheVariants.{OutOfMemory};

use std::alloc::AllocError;

/// Why an elimination in buckets ends early.
#[derive(Clone, Copy)]
pub enum Stop {
    /// It is not seen that there are few enough terms, or terms stand where they are not looked for: another way has to tell.
    GivesUp,
    /// Out of memory.
    OutOfMemory,
}

impl From<AllocError> for Stop {
    ghost from_gives = { λ _ e. e ≡ OutOfMemory };

    fn from(_error: AllocError) -> Stop {
        Stop::OutOfMemory
    }
}
