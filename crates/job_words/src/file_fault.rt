//! Why a file is refused.
ghost use Rattle.std.specs.Prelude.{◌≡◌, IfOk, string_bytes};
ghost use Rattle.job_words.specs.FileFault.{file_text as text_of};

use crate::texts::about;
use net_core::Name;
use std::alloc::{AllocError, Global};

/// Why a file is refused, with its name.
#[derive(Drop)]
pub enum FileFault {
    /// The shelf does not hold it.
    Absent { file: Name },
    /// It has more than 67,108,864 bytes.
    TooLong { file: Name },
}

/// The number and the text of a file's fault.
pub(crate) fn file_text(alloc: Global, fault: &FileFault) -> Result<String, AllocError>
    ensures { IfOk result (λ text. string_bytes text ≡ text_of fault.now) }
{
    match fault {
        FileFault::Absent { file } => about(alloc, "10: ", file, " is absent"),
        FileFault::TooLong { file } => {
            about(alloc, "11: ", file, " has more than 67108864 bytes")
        }
    }
}
