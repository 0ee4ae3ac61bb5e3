//! A certificate's text in version 2 from its text in either version.
ghost use Rattle.std.specs.Prelude.{◌≡◌, ◌≤◌, length, IfOk};
ghost use Rattle.outcome.specs.Outcome.{Fits};
ghost use Rattle.cert_check.specs.Fault.{refusal};
ghost use Rattle.cert_make.specs.Upgrade.{UpgradeOf};
ghost use Rattle.cert_make.specs.Writable.{HaveNumbers};

use crate::certificate::Certificate;
use cert_check::{CertFault, CertPairs, pairs};
use net_words::Combinational;
use poly_mixed::{Labels, Steps};
use std::alloc::{AllocError, Global};

// The pairs as recorded ones.
fn recorded(alloc: Global, pairs: &CertPairs) -> Result<Certificate, AllocError>
    ensures { IfOk result (λ c. c ≡ pairs.now.pairs) }
{
    let mut certificate = Certificate::new(alloc);
    for n in 0..pairs.len() {
        certificate.step(pairs.generator(n), pairs.multiplier(n))?;
    }
    Ok(certificate)
}

/// The text in version 2 of the claim and the pairs that the text of a certificate says, in version 1 or 2, or the first
/// fault of the text. It never answers `TooManyTerms`.
///
/// Each word has k bits, k from 1 to 64; the labels are the circuit's; the text has at most 67,108,864 bytes.
pub fn upgrade(
    alloc: Global,
    k: u32,
    circuit: &Combinational,
    labels: &Labels,
    bytes: &[u8],
) -> Result<Vec<u8>, CertFault>
    requires numbers { HaveNumbers k circuit.now.net labels.now }
    requires size { length bytes.now ≤ 67108864 }
    ensures { Fits refusal (λ v. v.items) result (UpgradeOf k circuit.now.net labels.now bytes.now) }
{
    let pairs = match pairs(alloc, k, circuit, labels, bytes) {
        Ok(pairs) => pairs,
        Err(fault) => return Err(fault),
    };
    let certificate = recorded(alloc, &pairs)?;
    let text = certificate.write(alloc, pairs.claim(), labels)?;
    Ok(text)
}
