//! Why a specification is refused.
ghost use Rattle.std.specs.Prelude.{◌≡◌, IfOk, string_bytes};
ghost use Rattle.job_words.specs.SpecificationFault.{specification_text as text_of};

use crate::texts::numbered;
use std::alloc::{AllocError, Global};

/// Why the text of a specification is refused: its first token with a fault. Places are bytes from 0.
#[derive(Drop)]
pub enum SpecificationFault {
    /// No specification goes on with what stands there.
    Syntax { place: u32 },
    /// The name there is none of a word that may stand there.
    UnknownWord { place: u32 },
    /// The number there is out of its range.
    BadNumber { place: u32 },
}

/// The number and the text of a specification's fault.
pub(crate) fn specification_text(
    alloc: Global,
    fault: &SpecificationFault,
) -> Result<String, AllocError>
    ensures { IfOk result (λ text. string_bytes text ≡ text_of fault.now) }
{
    match fault {
        SpecificationFault::Syntax { place } => numbered(alloc, "40: syntax at byte ", *place),
        SpecificationFault::UnknownWord { place } => {
            numbered(alloc, "41: unknown word at byte ", *place)
        }
        SpecificationFault::BadNumber { place } => {
            numbered(alloc, "42: number at byte ", *place)
        }
    }
}
