//! What the commands over certificates share: their labels, their files, and faults of texts.
ghost use Rattle.std.specs.Prelude.{◌≡◌, ◌≤◌, ℕ, length, IfOk};
ghost use Rattle.net_core.specs.Sound.{IsSound};
ghost use Rattle.net_words.specs.OneCycle.{IsOneCycle};
ghost use Rattle.job_words.specs.Stop.{GivesBy};
ghost use Rattle.job_input.specs.Labelling.{circuit_labels};
ghost use Rattle.job_input.specs.Setting.{IsReady, IsTakenFor};
ghost use Rattle.job_input.specs.declared.setting.Setting.{Setting as SettingOfJob};
ghost use Rattle.answer_certificates.specs.Certificates.{CertifiedBy, CertifiedIn, CertifiedOver, sum_fault, sum_name as name_of_sum, certificate_fault_of};
ghost use Rattle.answer_certificates.specs.private.CertificateStop.{certified_of};
ghost use Rattle.answer_core.specs.StageStop.{IsStopOf};
ghost use Rattle.job_input.specs.Reads.{GivesOver};

use cert_check::CertFault;
use gf_field::Field;
use job_input::{
    BoundNetlist, Setting, circuit_labels_for, read_file, read_netlist, unroll_netlist,
};
use job_io::Shelf;
use job_words::{CertificateFault, Fault, StageFault, Stop};
use net_core::Name;
use net_words::Combinational;
use poly_mixed::Labels;
use std::alloc::{AllocError, Global};

/// The circuit of a netlist's cycles, and the bytes of a certificate.
#[derive(Drop)]
pub(crate) struct Certified {
    /// The circuit.
    pub(crate) circuit: Combinational,
    /// The bytes, at most 67,108,864.
    pub(crate) text: Vec<u8>,
}

/// The labels of a circuit's certificates, and what the circuit keeps.
pub(crate) fn certificate_labels<F: Field>(
    alloc: Global,
    field: &F,
    setting: &Setting,
    circuit: &Combinational,
) -> Result<Labels, AllocError>
    requires ready { IsReady (F.degree field.now) (F.product field.now) setting.now }
    requires taken { IsTakenFor (F.degree field.now) setting.now circuit.now }
    ensures labels { IfOk result (λ labels. labels ≡ circuit_labels (F.degree field.now) setting.now.signature.words circuit.now) }
    ensures sound { IsSound circuit.now.net }
    ensures is_bound { IsOneCycle circuit.now.net circuit.now.binding }
{
    circuit_labels_for(alloc, setting.signature.words(), field.k(), circuit)
}

/// The circuit of a netlist's file over at most 4,096 cycles after the first, and the bytes of a certificate's file, or the
/// first fault: that of the netlist, of the certificate's file, or of unrolling the netlist.
pub(crate) fn read_certified<S: Shelf>(
    alloc: Global,
    shelf: &mut S,
    setting: &Setting,
    net: &str,
    file: &str,
    cycles: u32,
) -> Result<Certified, Stop>
    requires ready { (k : ℕ) × (product : ℕ → ℕ → ℕ) × IsReady k product setting.now }
    requires cycles { cycles ≤ 4096 }
    ensures held { S.held shelf.new ≡ S.held shelf.old }
    ensures never_fall { (S.faults shelf.old ≤ S.faults shelf.new) × (S.misses shelf.old ≤ S.misses shelf.new) }
    ensures gives { GivesOver S.held S.misses S.faults shelf.old shelf.new certified_of result (λ held. CertifiedIn held setting.now.signature net.now file.now cycles) }
    ensures taken { IfOk result (λ certified. (k : ℕ) (product : ℕ → ℕ → ℕ) → IsReady k product setting.now → IsTakenFor k setting.now certified.circuit) }
    ensures short { IfOk result (λ certified. length certified.text.items ≤ 67108864) }
{
    match read_netlist(alloc, shelf, setting, net) {
        Ok(netlist) => certified_over(alloc, shelf, net, netlist, file, cycles),
        Err(stop) => Err(stop),
    }
}

// The circuit of a netlist that was read, and the bytes of the certificate's file, which is read here.
fn certified_over<S: Shelf>(
    alloc: Global,
    shelf: &mut S,
    net: &str,
    netlist: BoundNetlist,
    file: &str,
    cycles: u32,
) -> Result<Certified, Stop>
    requires { cycles ≤ 4096 }
    ensures held { S.held shelf.new ≡ S.held shelf.old }
    ensures never_fall { (S.faults shelf.old ≤ S.faults shelf.new) × (S.misses shelf.old ≤ S.misses shelf.new) }
    ensures gives { GivesOver S.held S.misses S.faults shelf.old shelf.new certified_of result (λ held. CertifiedOver held net.now netlist file.now cycles) }
    ensures taken { IfOk result (λ certified. (k : ℕ) (setting : SettingOfJob) → IsTakenFor k setting netlist → IsTakenFor k setting certified.circuit) }
    ensures short { IfOk result (λ certified. length certified.text.items ≤ 67108864) }
{
    match read_file(alloc, shelf, file) {
        Ok(text) => certified_by(alloc, net, netlist, text, cycles),
        Err(stop) => Err(stop),
    }
}

// The circuit of a netlist, whose cycles are unrolled here, beside the bytes of a certificate.
fn certified_by(
    alloc: Global,
    net: &str,
    netlist: BoundNetlist,
    text: Vec<u8>,
    cycles: u32,
) -> Result<Certified, Stop>
    requires few { cycles ≤ 4096 }
    requires short { length text.items ≤ 67108864 }
    ensures gives { GivesBy certified_of result (CertifiedBy net.now netlist cycles text.items) ⊥ ⊥ }
    ensures taken { IfOk result (λ certified. (k : ℕ) (setting : SettingOfJob) → IsTakenFor k setting netlist → IsTakenFor k setting certified.circuit) }
    ensures short { IfOk result (λ certified. length certified.text.items ≤ 67108864) }
{
    match unroll_netlist(alloc, net, netlist, cycles) {
        Ok(circuit) => Ok(Certified { circuit, text }),
        Err(stop) => Err(stop),
    }
}

/// Why no output comes of a fault of a certificate's text.
pub(crate) fn text_stop(fault: CertFault) -> Stop
    ensures { IsStopOf (certificate_fault_of fault) result }
{
    match fault {
        CertFault::Syntax { line } => refused(CertificateFault::Syntax { line }),
        CertFault::NoSuchNet { line } => refused(CertificateFault::NoSuchNet { line }),
        CertFault::NoSuchBit { line } => refused(CertificateFault::NoSuchBit { line }),
        CertFault::NotDriven { line } => refused(CertificateFault::NotDriven { line }),
        CertFault::NoSuchLet { line } => refused(CertificateFault::NoSuchLet { line }),
        CertFault::NoEnd => refused(CertificateFault::NoEnd),
        CertFault::TooManyTerms { .. } | CertFault::OutOfMemory => Stop::OutOfMemory,
    }
}

/// Why no output comes of such a fault, or of a running sum of more than `bound` terms.
pub(crate) fn sum_stop(alloc: Global, fault: CertFault, bound: u32) -> Stop
    ensures { IsStopOf (sum_fault bound fault) result }
{
    match fault {
        CertFault::TooManyTerms { line, terms } => match sum_name(alloc, line) {
            Ok(stage) => Stop::Refused(Fault::Stage(StageFault {
                stage,
                terms,
                bound,
            })),
            Err(_) => Stop::OutOfMemory,
        },
        fault => text_stop(fault),
    }
}

// The refusal of a certificate.
fn refused(fault: CertificateFault) -> Stop
    ensures { result ≡ Stop.Refused (Fault.Certificate fault) }
{
    Stop::Refused(Fault::Certificate(fault))
}

// What the running sum after a line is called.
fn sum_name(alloc: Global, line: u32) -> Result<Name, AllocError>
    ensures { IfOk result (λ name. name ≡ name_of_sum line) }
{
    let text = format!(in alloc; "certificate line {line}")?;
    Name::new(alloc, text.as_str())
}
