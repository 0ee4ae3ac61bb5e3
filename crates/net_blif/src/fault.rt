//! Faults of texts.
ghost use Rattle.std.specs.Prelude.{◌≡◌};
ghost use Rattle.net_blif.specs.declared.fault.BlifFault.TheVariants.{OutOfMemory};

use net_core::Name;
use std::alloc::{AllocError, AllocFailed};
use thiserror::Error;

/// Why a text in BLIF is refused. A line is that of the first physical line of the joined one, from 1.
#[derive(Debug, Drop, Error)]
pub enum BlifFault {
    /// There is no statement, or the first is not `.model`.
    #[error("no model")]
    NoModel,
    /// The line has a wrong byte or form, or stands where it may not.
    #[error("syntax at line {line}")]
    Syntax { line: u32 },
    /// The line begins with a word that begins with `.` and is not read.
    #[error("a word is left out at line {line}")]
    LeftOut { line: u32, word: Name },
    /// A `.names` has more than 6 inputs.
    #[error("{inputs} inputs at line {line}")]
    TooWide { line: u32, inputs: u32 },
    /// An earlier model has the name of the one that begins here.
    #[error("model twice at line {line}")]
    ModelTwice { line: u32 },
    /// No model has the name of which the line makes an instance.
    #[error("no such model at line {line}")]
    NoSuchModel { line: u32 },
    /// A connection names a formal that is neither an input nor an output of the instance's model.
    #[error("no such formal at line {line}")]
    NoSuchFormal { line: u32 },
    /// A connection names a formal that an earlier connection of the line has.
    #[error("formal twice at line {line}")]
    FormalTwice { line: u32 },
    /// An input of the instance's model is not connected.
    #[error("formal missing at line {line}")]
    FormalMissing { line: u32 },
    /// A walk from the top through instances, in order of lines and depth first, meets a model that is on its own path;
    /// this is the first one that it meets.
    #[error("a model contains itself")]
    Recursive { model: Name },
    /// A chain of instances from the top has more than 64 models, the top included.
    #[error("more than 64 models deep")]
    TooDeep,
    /// There was no memory for what was read.
    #[error("out of memory")]
    OutOfMemory,
}

impl From<AllocError> for BlifFault {
    ghost from_gives = { λ _ e. e ≡ OutOfMemory };

    fn from(_error: AllocError) -> BlifFault {
        BlifFault::OutOfMemory
    }
}

impl<T: Drop> From<AllocFailed<T>> for BlifFault {
    ghost from_gives = { λ _ e. e ≡ OutOfMemory };

    fn from(_error: AllocFailed<T>) -> BlifFault {
        BlifFault::OutOfMemory
    }
}
