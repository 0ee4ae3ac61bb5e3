//! Names of the stages of an engine, and the refusal of a stage that is too large.
ghost use Rattle.std.specs.Prelude.{◌≡◌};
ghost use Rattle.poly_mixed.specs.declared.stage.ReduceFault.TheVariants.{OutOfMemory};

use std::alloc::{AllocError, AllocFailed};
use thiserror::Error;

/// A stage. Words are numbered from 0; terms, bits, factors and instances from 1.
#[derive(Clone, Copy, Debug, PartialEq, Eq)]
pub enum Stage {
    /// After the outputs of so many gates were eliminated.
    Cut(u32),
    /// A word's term with its first `bit` bits of the word replaced.
    WordProduct {
        word: u32,
        term: u32,
        bit: u32,
    },
    /// The sum of a word's first `term` terms, replaced.
    WordSum {
        word: u32,
        term: u32,
    },
    /// The first `factor` factors of a term of a specification.
    SpecProduct {
        term: u32,
        factor: u32,
    },
    /// The sum of the first `term` terms of a specification.
    SpecSum {
        term: u32,
    },
    /// The first `factor` factors of a term of an instance's block.
    InstanceProduct {
        instance: u32,
        term: u32,
        factor: u32,
    },
    /// The sum of the first `term` terms of an instance's block.
    InstanceSum {
        instance: u32,
        term: u32,
    },
}

/// Why an engine refuses.
#[derive(Clone, Copy, Debug, PartialEq, Eq, Error)]
pub enum ReduceFault {
    /// The first stage whose size is above the bound, with that size.
    #[error("a stage has {terms} terms")]
    TooManyTerms { stage: Stage, terms: u64 },
    /// Out of memory.
    #[error("out of memory")]
    OutOfMemory,
}

impl From<AllocError> for ReduceFault {
    ghost from_gives = { λ _ e. e ≡ OutOfMemory };

    fn from(_error: AllocError) -> ReduceFault {
        ReduceFault::OutOfMemory
    }
}

impl<T: Drop> From<AllocFailed<T>> for ReduceFault {
    ghost from_gives = { λ _ e. e ≡ OutOfMemory };

    fn from(_error: AllocFailed<T>) -> ReduceFault {
        ReduceFault::OutOfMemory
    }
}
