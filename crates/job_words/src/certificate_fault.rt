//! Why a certificate is refused.
ghost use Rattle.std.specs.Prelude.{◌≡◌, IfOk, string_bytes};
ghost use Rattle.job_words.specs.CertificateFault.{certificate_text as text_of};

use crate::texts::numbered;
use std::alloc::{AllocError, Global};

/// Why the text of a certificate is refused: its first line with a fault. Lines count from 1.
#[derive(Drop)]
pub enum CertificateFault {
    /// The line is no line of its place.
    Syntax { line: u32 },
    /// The line names a net that the circuit has not.
    NoSuchNet { line: u32 },
    /// The line names a bit that no word has.
    NoSuchBit { line: u32 },
    /// The line names a net that no gate drives.
    NotDriven { line: u32 },
    /// The text ends without the line `end`.
    NoEnd,
    /// The line names a shared multiplier that no earlier line gives.
    NoSuchLet { line: u32 },
}

/// The number and the text of a certificate's fault.
pub(crate) fn certificate_text(
    alloc: Global,
    fault: &CertificateFault,
) -> Result<String, AllocError>
    ensures { IfOk result (λ text. string_bytes text ≡ text_of fault.now) }
{
    match fault {
        CertificateFault::Syntax { line } => numbered(alloc, "50: certificate line ", *line),
        CertificateFault::NoSuchNet { line } => numbered(alloc, "51: no such net at line ", *line),
        CertificateFault::NoSuchBit { line } => numbered(alloc, "52: no such bit at line ", *line),
        CertificateFault::NotDriven { line } => numbered(alloc, "53: no gate at line ", *line),
        CertificateFault::NoEnd => String::from_str(alloc, "54: no end line"),
        CertificateFault::NoSuchLet { line } => numbered(alloc, "55: no such let at line ", *line),
    }
}
