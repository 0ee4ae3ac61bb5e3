//! The verdict on the text of a certificate.
ghost use Rattle.std.specs.Prelude.{◌≡◌, ◌≤◌, length, IfErr, OnOk};
ghost use Rattle.outcome.specs.Outcome.{Fits};
ghost use Rattle.circuit_model.specs.Bases.{AreBases};
ghost use Rattle.cert_check.specs.Fault.{refusal};
ghost use Rattle.cert_check.specs.Labels.{NameWords};
ghost use Rattle.cert_check.specs.Verdict.{Check, verdict_of};
ghost use Rattle.cert_check.specs.private.Reading.{AreDrivers};
ghost use Rattle.cert_check.specs.private.Kept.{IsOver};

use crate::checking::{CertVerdict, verdict_from};
use crate::drivers::drivers;
use crate::fault::CertFault;
use crate::head::read_head;
use crate::running::first_sum;
use crate::term_map::TermMap;
use gf_basis::Basis;
use gf_field::Field;
use net_words::Combinational;
use poly_mixed::Labels;
use std::alloc::Global;

// Refuses a sum of more terms than the bound after the line of this number.
fn check_size(sum: &TermMap, line: u32, bound: u32) -> Result<(), CertFault>
    ensures within { OnOk result (length sum.now.terms ≤ bound) }
    ensures over { IfErr result (IsOver line bound (length sum.now.terms)) }
{
    let terms = sum.len() as u64;
    if terms > u64::from(bound) {
        return Err(CertFault::TooManyTerms { line, terms });
    }
    Ok(())
}

// The verdict on a text, where these gates drive the nets.
fn verdict_on<F: Field>(
    alloc: Global,
    field: &F,
    circuit: &Combinational,
    bases: &[Basis],
    drivers: &[Option<u32>],
    labels: &Labels,
    bytes: &[u8],
    bound: u32,
) -> Result<CertVerdict, CertFault>
    requires k { circuit.now.binding.k ≡ F.degree field.now }
    requires bases { AreBases (F.degree field.now) (F.product field.now) circuit.now bases.now }
    requires labels { NameWords circuit.now.binding labels.now }
    requires few { length labels.now.words ≤ 8 }
    requires drivers { AreDrivers circuit.now.net drivers.now }
    requires size { length bytes.now ≤ 67108864 }
    ensures { Fits refusal verdict_of result (Check (F.degree field.now) (F.product field.now) circuit.now bases.now labels.now bound bytes.now) }
{
    let k = field.k();
    let head = match read_head(alloc, k, labels, bytes) {
        Ok(head) => head,
        Err(fault) => return Err(fault),
    };
    let sum = first_sum(alloc, field, circuit, bases, &head.claim)?;
    match check_size(&sum, 2, bound) {
        Ok(()) => verdict_from(
            alloc,
            field,
            circuit,
            bases,
            drivers,
            labels,
            bound,
            head.version,
            head.claim,
            sum,
            head.rest,
        ),
        Err(fault) => Err(fault),
    }
}

/// The verdict on a certificate in version 1 or 2, or the fault of the first line that shows one; at one line the text
/// comes before the size.
///
/// The running sum begins as the sum of the output word, that is of its basis elements each times its bit, and the claim;
/// each pair adds the product of its generator and its multiplier, as the reduced polynomial in which all variables are
/// free. `TooManyTerms` comes where the sum after a line has more than `bound` terms; the claim's line is such a line
/// too. Each word has k bits, there is one basis of this field for each word of the binding, the labels name the input,
/// state and fed words of the circuit, and the text has at most 67,108,864 bytes.
pub fn check<F: Field>(
    alloc: Global,
    field: &F,
    circuit: &Combinational,
    bases: &[Basis],
    labels: &Labels,
    bytes: &[u8],
    bound: u32,
) -> Result<CertVerdict, CertFault>
    requires k { circuit.now.binding.k ≡ F.degree field.now }
    requires bases { AreBases (F.degree field.now) (F.product field.now) circuit.now bases.now }
    requires labels { NameWords circuit.now.binding labels.now }
    requires size { length bytes.now ≤ 67108864 }
    ensures { Fits refusal verdict_of result (Check (F.degree field.now) (F.product field.now) circuit.now bases.now labels.now bound bytes.now) }
{
    let drivers = drivers(alloc, circuit)?;
    verdict_on(
        alloc,
        field,
        circuit,
        bases,
        drivers.as_slice(),
        labels,
        bytes,
        bound,
    )
}
