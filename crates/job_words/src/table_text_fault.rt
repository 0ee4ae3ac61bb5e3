//! Why a table is refused.
ghost use Rattle.std.specs.Prelude.{◌≡◌, IfOk, string_bytes};
ghost use Rattle.job_words.specs.TableTextFault.{table_text as text_of};

use crate::texts::numbered;
use std::alloc::{AllocError, Global};

/// Why the text of a table is refused: its first line with a fault. Lines count from 1.
#[derive(Drop)]
pub enum TableTextFault {
    /// The line is no line of its place, is missing, or is one too many.
    Syntax { line: u32 },
    /// The value of the line is no element of the field.
    TooLarge { line: u32 },
}

/// The number and the text of a table's fault.
pub(crate) fn table_text(alloc: Global, fault: &TableTextFault) -> Result<String, AllocError>
    ensures { IfOk result (λ text. string_bytes text ≡ text_of fault.now) }
{
    match fault {
        TableTextFault::Syntax { line } => numbered(alloc, "56: table line ", *line),
        TableTextFault::TooLarge { line } => {
            numbered(alloc, "57: value too large at line ", *line)
        }
    }
}
