//! Faults of texts.
ghost use Rattle.std.specs.Prelude.{◌≡◌};
ghost use Rattle.net_aiger.specs.declared.fault.AigerFault.TheVariants.{OutOfMemory};

use net_core::{Name, NetFault};
use std::alloc::{AllocError, AllocFailed};
use thiserror::Error;

/// Why a text in ASCII AIGER is refused. Lines count from 1.
#[derive(Debug, Drop, Error)]
pub enum AigerFault {
    /// The line has a wrong form, is missing, names no port, or names one again.
    #[error("syntax at line {line}")]
    Syntax { line: u32 },
    /// The header is that of the binary format, or counts what is not read: the word is `aig`, or the count.
    #[error("a word is left out at line {line}")]
    LeftOut { line: u32, word: Name },
    /// A literal is above those of the header, or one that is defined is 0, 1 or odd.
    #[error("literal at line {line}")]
    Literal { line: u32 },
    /// An earlier line defines the literal.
    #[error("defined twice at line {line}")]
    DefinedTwice { line: u32 },
    /// The line uses a variable that no line defines.
    #[error("undefined at line {line}")]
    Undefined { line: u32 },
    /// An earlier input, latch or output has the name of the one of this line.
    #[error("name twice at line {line}")]
    NameTwice { line: u32 },
    /// The net passes a limit, or it is not sound.
    #[error("the net has a fault")]
    Net(NetFault),
    /// There was no memory for what was read.
    #[error("out of memory")]
    OutOfMemory,
}

impl From<AllocError> for AigerFault {
    ghost from_gives = { λ _ e. e ≡ OutOfMemory };

    fn from(_error: AllocError) -> AigerFault {
        AigerFault::OutOfMemory
    }
}

impl<T: Drop> From<AllocFailed<T>> for AigerFault {
    ghost from_gives = { λ _ e. e ≡ OutOfMemory };

    fn from(_error: AllocFailed<T>) -> AigerFault {
        AigerFault::OutOfMemory
    }
}
