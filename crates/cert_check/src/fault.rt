//! Why a certificate is refused.
ghost use Rattle.std.specs.Prelude.{◌≡◌};
ghost use Rattle.cert_check.specs.Fault.{fault_at};

use poly_mixed::PolyFault;
use std::alloc::{AllocError, AllocFailed};
use thiserror::Error;

/// What is wrong with a line, or out of memory.
#[derive(Clone, Copy)]
pub enum LineFault {
    /// It is no line of its place.
    Syntax,
    /// It names a net that there is not, or in a polynomial one that is not written by its number.
    NoSuchNet,
    /// It names a bit of no input, state or fed word, or a place that the word has not.
    NoSuchBit,
    /// It names a net that no gate drives.
    NotDriven,
    /// It has the number of a shared multiplier that does not stand before it.
    NoSuchLet,
    /// Out of memory.
    OutOfMemory,
}

/// The fault of the first line that shows one, or out of memory. Lines are counted from 1.
#[derive(Clone, Copy, Debug, Error)]
pub enum CertFault {
    /// The line is no line of its place.
    #[error("syntax at line {line}")]
    Syntax { line: u32 },
    /// The line names a net that there is not, or in a polynomial one that is not written by its number.
    #[error("no such net at line {line}")]
    NoSuchNet { line: u32 },
    /// The line names a bit of no input, state or fed word, or a place that the word has not.
    #[error("no such bit at line {line}")]
    NoSuchBit { line: u32 },
    /// The line names a net that no gate drives.
    #[error("no gate at line {line}")]
    NotDriven { line: u32 },
    /// The line has the number of a shared multiplier that does not stand before it.
    #[error("no such let at line {line}")]
    NoSuchLet { line: u32 },
    /// After the line the running sum has more terms than the bound: that many.
    #[error("{terms} terms at line {line}")]
    TooManyTerms { line: u32, terms: u64 },
    /// The text ends without `end`.
    #[error("no end line")]
    NoEnd,
    /// Out of memory.
    #[error("out of memory")]
    OutOfMemory,
}

// The fault of the line with this number.
pub(crate) fn at_line(line: u32, fault: LineFault) -> CertFault
    ensures { result ≡ fault_at line fault }
{
    match fault {
        LineFault::Syntax => CertFault::Syntax { line },
        LineFault::NoSuchNet => CertFault::NoSuchNet { line },
        LineFault::NoSuchBit => CertFault::NoSuchBit { line },
        LineFault::NotDriven => CertFault::NotDriven { line },
        LineFault::NoSuchLet => CertFault::NoSuchLet { line },
        LineFault::OutOfMemory => CertFault::OutOfMemory,
    }
}

impl From<AllocError> for CertFault {
    ghost use Rattle.cert_check.specs.declared.fault.CertFault.TheVariants.{OutOfMemory};

    ghost from_gives = { λ _ e. e ≡ OutOfMemory };

    fn from(_error: AllocError) -> CertFault {
        CertFault::OutOfMemory
    }
}

impl<T: Drop> From<AllocFailed<T>> for CertFault {
    ghost use Rattle.cert_check.specs.declared.fault.CertFault.TheVariants.{OutOfMemory};

    ghost from_gives = { λ _ e. e ≡ OutOfMemory };

    fn from(_error: AllocFailed<T>) -> CertFault {
        CertFault::OutOfMemory
    }
}
