//! Names of the stages of an expansion, and the refusal of a stage that is too large.
ghost use Rattle.std.specs.Prelude.{◌≡◌, ◌<◌, ◌≤◌, IfErr, OnOk};
ghost use Rattle.term_expand.specs.declared.stage.SumFault.TheVariants.{OutOfMemory};

use std::alloc::{AllocError, AllocFailed};
use thiserror::Error;

/// A stage of the expansion of a sum. Terms and factors are numbered from 1. What it is called beside the stages of others
/// is said by whoever lists it.
#[derive(Clone, Copy, Debug)]
pub enum SumStage {
    /// The first `factor` factors of a term.
    TermProduct { term: u32, factor: u32 },
    /// The sum of the first `term` terms.
    TermSum { term: u32 },
}

/// Why a sum is not expanded.
#[derive(Clone, Copy, Debug, Error)]
pub enum SumFault {
    /// The first stage whose size is above the bound, with that size.
    #[error("a stage has {terms} terms")]
    TooManyTerms { stage: SumStage, terms: u64 },
    /// Out of memory.
    #[error("out of memory")]
    OutOfMemory,
}

impl From<AllocError> for SumFault {
    ghost from_gives = { λ _ e. e ≡ OutOfMemory };

    fn from(_error: AllocError) -> SumFault {
        SumFault::OutOfMemory
    }
}

impl<T: Drop> From<AllocFailed<T>> for SumFault {
    ghost from_gives = { λ _ e. e ≡ OutOfMemory };

    fn from(_error: AllocFailed<T>) -> SumFault {
        SumFault::OutOfMemory
    }
}

/// Refuses a stage of more terms than the bound.
pub(crate) fn check_stage(terms: usize, bound: u32, stage: SumStage) -> Result<(), SumFault>
    ensures within { OnOk result (terms ≤ bound) }
    ensures over { IfErr result (λ fault. (fault ≡ SumFault.TooManyTerms stage terms) × (bound < terms)) }
{
    let terms = terms as u64;
    if terms > u64::from(bound) {
        return Err(SumFault::TooManyTerms { stage, terms });
    }
    Ok(())
}
