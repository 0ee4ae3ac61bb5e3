//! The first two lines of a certificate.
ghost use Rattle.std.specs.Prelude.{◌≡◌, ◌⊎◌, ◌<◌, ◌≤◌, length, drop, IfErr, IfOk};
ghost use Rattle.std.specs.Str.Lines.{lines};
ghost use Rattle.outcome.specs.Outcome.{Fits, Returns};
ghost use Rattle.poly_mixed.specs.Polynomial.{IsReduced};
ghost use Rattle.cert_check.specs.Fault.{refusal};
ghost use Rattle.cert_check.specs.Frame.{version_of as version_in};
ghost use Rattle.cert_check.specs.Certificate.{FirstLine, ClaimOf, HeadOf};
ghost use Rattle.cert_check.specs.private.Reading.{head_of};

use crate::fault::{CertFault, at_line};
use crate::frame::version_of;
use crate::line::read_claim;
use poly_mixed::{Labels, Poly};
use std::alloc::Global;
use text_core::next_line;

/// The version, the claim, and the text after the first two lines.
#[derive(Drop)]
pub(crate) struct Head<'a> {
    pub(crate) version: u32,
    pub(crate) claim: Poly,
    pub(crate) rest: &'a [u8],
}

// The version in the first line, and the text after it. It takes no memory.
fn first_line(bytes: &[u8]) -> Result<(u32, &[u8]), CertFault>
    ensures value { Fits refusal (λ found. found.0) result (FirstLine 1 (λ line. Returns (version_in line)) (lines bytes.now)) }
    ensures rest { IfOk result (λ found. lines found.1.now ≡ drop 1 (lines bytes.now)) }
    ensures shorter { IfOk result (λ found. length found.1.now < length bytes.now) }
    ensures fault { IfErr result (λ fault. (fault ≡ CertFault.NoEnd) ⊎ (fault ≡ CertFault.Syntax 1)) }
{
    if bytes.is_empty() {
        return Err(CertFault::NoEnd);
    }
    let (line, rest) = next_line(bytes);
    match version_of(line) {
        Ok(version) => Ok((version, rest)),
        Err(fault) => Err(at_line(1, fault)),
    }
}

// The claim in the second line and the text after it, with the version.
fn second_line<'a>(
    alloc: Global,
    k: u32,
    labels: &Labels,
    version: u32,
    bytes: &'a [u8],
) -> Result<Head<'a>, CertFault>
    requires { (1 ≤ k) × (k ≤ 64) }
    ensures value { Fits refusal (λ head. head.claim.terms) result (FirstLine 2 (ClaimOf k labels.now) (lines bytes.now)) }
    ensures version { IfOk result (λ head. head.version ≡ version) }
    ensures reduced { IfOk result (λ head. IsReduced k head.claim.terms) }
    ensures rest { IfOk result (λ head. lines head.rest.now ≡ drop 1 (lines bytes.now)) }
    ensures shorter { IfOk result (λ head. length head.rest.now < length bytes.now) }
{
    if bytes.is_empty() {
        return Err(CertFault::NoEnd);
    }
    let (line, rest) = next_line(bytes);
    match read_claim(alloc, k, labels, line) {
        Ok(claim) => Ok(Head {
            version,
            claim,
            rest,
        }),
        Err(fault) => Err(at_line(2, fault)),
    }
}

/// What the first two lines say.
pub(crate) fn read_head<'a>(
    alloc: Global,
    k: u32,
    labels: &Labels,
    bytes: &'a [u8],
) -> Result<Head<'a>, CertFault>
    requires { (1 ≤ k) × (k ≤ 64) }
    ensures value { Fits refusal head_of result (HeadOf k labels.now (lines bytes.now)) }
    ensures reduced { IfOk result (λ head. IsReduced k head.claim.terms) }
    ensures rest { IfOk result (λ head. lines head.rest.now ≡ drop 2 (lines bytes.now)) }
    ensures shorter { IfOk result (λ head. length head.rest.now ≤ length bytes.now) }
{
    let (version, rest) = match first_line(bytes) {
        Ok(found) => found,
        Err(fault) => return Err(fault),
    };
    second_line(alloc, k, labels, version, rest)
}
