//! Why the text of a specification is refused.
ghost use Rattle.std.specs.Prelude.{◌≡◌};
ghost use Rattle.spec_text.specs.declared.fault.SpecFault.TheVariants.{OutOfMemory};

use std::alloc::{AllocError, AllocFailed};
use thiserror::Error;

/// The fault of the first token that has one, with its place in bytes from 0; or out of memory.
#[derive(Clone, Copy, Debug, Error)]
pub enum SpecFault {
    /// A token with which no specification goes on, bytes that are no token, or the end of a text that is none.
    #[error("syntax at byte {place}")]
    Syntax { place: u32 },
    /// A name on the left that is not the output word's, or one on the right of no input, state or fed word.
    #[error("unknown word at byte {place}")]
    UnknownWord { place: u32 },
    /// A number out of its range.
    #[error("number at byte {place}")]
    BadNumber { place: u32 },
    /// Out of memory.
    #[error("out of memory")]
    OutOfMemory,
}

impl From<AllocError> for SpecFault {
    ghost from_gives = { λ _ e. e ≡ OutOfMemory };

    fn from(_error: AllocError) -> SpecFault {
        SpecFault::OutOfMemory
    }
}

impl<T: Drop> From<AllocFailed<T>> for SpecFault {
    ghost from_gives = { λ _ e. e ≡ OutOfMemory };

    fn from(_error: AllocFailed<T>) -> SpecFault {
        SpecFault::OutOfMemory
    }
}
