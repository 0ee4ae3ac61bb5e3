//! The pairs of a certificate from its text.
ghost use Rattle.std.specs.Prelude.{◌<◌, ◌≤◌, ◌+◌, length, IsOkUnless};
ghost use Rattle.std.specs.Str.Lines.{lines};
ghost use Rattle.outcome.specs.Outcome.{Fits};
ghost use Rattle.cert_check.specs.Fault.{refusal};
ghost use Rattle.cert_check.specs.Certificate.{begun, NoLine, AsksNothing, LinesOf, CertificateOf};
ghost use Rattle.cert_check.specs.private.Reading.{AreDrivers};

use crate::cert_pairs::CertPairs;
use crate::drivers::drivers;
use crate::fault::{CertFault, at_line};
use crate::head::read_head;
use crate::line::read_line;
use net_core::Net;
use net_words::Combinational;
use poly_mixed::{Labels, Poly};
use std::alloc::Global;
use text_core::next_line;

// The pairs, where nothing follows; the next line would have this number. It takes no memory.
fn ended(pairs: CertPairs, number: u32, rest: &[u8]) -> Result<CertPairs, CertFault>
    ensures value { Fits refusal (λ c. c) result (NoLine number (lines rest.now) pairs) }
    ensures fault { IsOkUnless result (CertFault.Syntax number) }
{
    if rest.is_empty() {
        Ok(pairs)
    } else {
        Err(CertFault::Syntax { line: number })
    }
}

// The pairs of the lines after the claim.
fn pairs_from(
    alloc: Global,
    k: u32,
    net: &Net,
    drivers: &[Option<u32>],
    labels: &Labels,
    version: u32,
    claim: Poly,
    bytes: &[u8],
) -> Result<CertPairs, CertFault>
    requires k { (1 ≤ k) × (k ≤ 64) }
    requires drivers { AreDrivers net.now drivers.now }
    requires size { length bytes.now ≤ 67108864 }
    ensures { Fits refusal (λ c. c) result (LinesOf k net.now labels.now (AsksNothing k net.now labels.now) version (lines bytes.now) 3 (begun claim.terms)) }
{
    let mut pairs = CertPairs::begun(alloc, claim);
    let mut rest = bytes;
    let mut number: u32 = 3;
    while !rest.is_empty() {
        let (text, more) = next_line(rest);
        let count = pairs.shares() as u32;
        let said = match read_line(alloc, k, net, drivers, labels, version, count, text) {
            Ok(said) => said,
            Err(fault) => return Err(at_line(number, fault)),
        };
        let line = match said {
            Some(line) => line,
            None => return ended(pairs, number + 1, more),
        };
        pairs.add(line)?;
        rest = more;
        number += 1;
    }
    Err(CertFault::NoEnd)
}

// The pairs of a text, where these gates drive the nets.
fn pairs_of(
    alloc: Global,
    k: u32,
    circuit: &Combinational,
    drivers: &[Option<u32>],
    labels: &Labels,
    bytes: &[u8],
) -> Result<CertPairs, CertFault>
    requires k { (1 ≤ k) × (k ≤ 64) }
    requires drivers { AreDrivers circuit.now.net drivers.now }
    requires size { length bytes.now ≤ 67108864 }
    ensures { Fits refusal (λ c. c) result (CertificateOf k circuit.now.net labels.now bytes.now) }
{
    let net = circuit.net();
    match read_head(alloc, k, labels, bytes) {
        Ok(head) => pairs_from(
            alloc,
            k,
            net,
            drivers,
            labels,
            head.version,
            head.claim,
            head.rest,
        ),
        Err(fault) => Err(fault),
    }
}

/// The claim and the pairs that the text of a certificate says, in version 1 or 2, or the first fault of the text.
///
/// Each word has k bits, k from 1 to 64; the labels are the circuit's; the text has at most 67,108,864 bytes. It never
/// answers `TooManyTerms`.
pub fn pairs(
    alloc: Global,
    k: u32,
    circuit: &Combinational,
    labels: &Labels,
    bytes: &[u8],
) -> Result<CertPairs, CertFault>
    requires k { (1 ≤ k) × (k ≤ 64) }
    requires size { length bytes.now ≤ 67108864 }
    ensures { Fits refusal (λ c. c) result (CertificateOf k circuit.now.net labels.now bytes.now) }
{
    let drivers = drivers(alloc, circuit)?;
    pairs_of(alloc, k, circuit, drivers.as_slice(), labels, bytes)
}
