//! Why the text of a polynomial is refused.
ghost use Rattle.std.specs.Prelude.{◌≡◌};
ghost use Rattle.poly_mixed.specs.declared.fault.PolyFault.TheVariants.{OutOfMemory};

use std::alloc::{AllocError, AllocFailed};
use thiserror::Error;

/// The fault of the first token that shows one, or out of memory.
#[derive(Clone, Copy, Debug, PartialEq, Eq, Error)]
pub enum PolyFault {
    /// A token that does not fit, or a text that ends too early.
    #[error("no polynomial")]
    Syntax,
    /// `@n` for a net that is not written so.
    #[error("no such net")]
    NoSuchNet,
    /// `W[i]` with no such word, or a place that the word has not.
    #[error("no such bit")]
    NoSuchBit,
    /// Out of memory.
    #[error("out of memory")]
    OutOfMemory,
}

impl From<AllocError> for PolyFault {
    ghost from_gives = { λ _ e. e ≡ OutOfMemory };

    fn from(_error: AllocError) -> PolyFault {
        PolyFault::OutOfMemory
    }
}

impl<T: Drop> From<AllocFailed<T>> for PolyFault {
    ghost from_gives = { λ _ e. e ≡ OutOfMemory };

    fn from(_error: AllocFailed<T>) -> PolyFault {
        PolyFault::OutOfMemory
    }
}
