//! Faults of the text of a table.
ghost use Rattle.std.specs.Prelude.{◌≡◌};
ghost use Rattle.lift_table.specs.declared.fault.TableFault.TheVariants.{OutOfMemory};

use std::alloc::{AllocError, AllocFailed};
use thiserror::Error;

/// Why the text of a table is refused, or out of memory. Lines count from 1.
#[derive(Clone, Copy, Debug, Error)]
pub enum TableFault {
    /// The line has another form than the head or one number, is missing, or is one too many.
    #[error("no line of a table at line {line}")]
    Syntax { line: u32 },
    /// The value of the line is not below `2^k`.
    #[error("value too large at line {line}")]
    TooLarge { line: u32 },
    /// Out of memory.
    #[error("out of memory")]
    OutOfMemory,
}

impl From<AllocError> for TableFault {
    ghost from_gives = { λ _ e. e ≡ OutOfMemory };

    fn from(_error: AllocError) -> TableFault {
        TableFault::OutOfMemory
    }
}

impl<T: Drop> From<AllocFailed<T>> for TableFault {
    ghost from_gives = { λ _ e. e ≡ OutOfMemory };

    fn from(_error: AllocFailed<T>) -> TableFault {
        TableFault::OutOfMemory
    }
}
