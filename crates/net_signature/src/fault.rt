//! Why a text is no signature.
ghost use Rattle.std.specs.Prelude.{◌≡◌};
ghost use Rattle.net_signature.specs.declared.fault.SigFault.TheVariants.{OutOfMemory};

use net_core::Name;
use std::alloc::{AllocError, AllocFailed};
use thiserror::Error;

/// Why a text is no signature.
#[derive(Debug, Drop, Error)]
pub enum SigFault {
    /// The line, from 1, is no line of its place.
    #[error("syntax at line {line}")]
    Syntax { line: u32 },
    /// The line has a word whose name another word of the same top or block has, or a block whose model another block has.
    #[error("name twice at line {line}")]
    NameTwice { line: u32 },
    /// The line has a feed from a word that is no fed word of the top.
    #[error("no fed word at line {line}")]
    NoFedWord { line: u32 },
    /// The line has a feed of a net and a cycle that an earlier feed has.
    #[error("feed twice at line {line}")]
    FeedTwice { line: u32 },
    /// The line has a second output word of the same top or block.
    #[error("second output word at line {line}")]
    TwoOutputs { line: u32 },
    /// The line has the ninth input, state or fed word of the same top or block.
    #[error("ninth word at line {line}")]
    TooManyWords { line: u32 },
    /// There is no output word in the block of this model, or, without a model, in the top.
    #[error("no output word")]
    NoOutput { block: Option<Name> },
    /// Out of memory.
    #[error("out of memory")]
    OutOfMemory,
}

impl From<AllocError> for SigFault {
    ghost from_gives = { λ _ e. e ≡ OutOfMemory };

    fn from(_error: AllocError) -> SigFault {
        SigFault::OutOfMemory
    }
}

impl<T: Drop> From<AllocFailed<T>> for SigFault {
    ghost from_gives = { λ _ e. e ≡ OutOfMemory };

    fn from(_error: AllocFailed<T>) -> SigFault {
        SigFault::OutOfMemory
    }
}
