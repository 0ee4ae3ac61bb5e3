//! A signature, and the field that it names.
ghost use Rattle.std.specs.Prelude.{◌≡◌, ◌≤◌, length, IfOk};
ghost use Rattle.outcome.specs.Outcome.{Within};
ghost use Rattle.job_words.specs.Stop.{GivesBy};
ghost use Rattle.job_words.specs.declared.fault.Fault.TheVariants.{Signature};
ghost use Rattle.job_words.specs.declared.stop.Stop.TheVariants.{Refused};
ghost use Rattle.job_input.specs.FieldOf.{field_fault as fault_of_field};
ghost use Rattle.job_input.specs.Reads.{GivesOver};
ghost use Rattle.job_input.specs.SettingOf.{SignedOf};
ghost use Rattle.job_input.specs.SignedIn.{SignedIn};
ghost use Rattle.job_input.specs.Setting.{signed_value, text_stop as stop_of_text, AreSaid, IsNamedBy};

use crate::files::read_file;
use gf_tower::{AnyField, FieldFault};
use job_io::Shelf;
use job_words::{Fault, SignatureFault, Stop};
use net_signature::{SigFault, read_signature};
use std::alloc::Global;

/// A signature, and the field that it names.
#[derive(Drop)]
pub struct Signed {
    /// What the signature's text says.
    pub signature: net_signature::Signature,
    /// The field that it names.
    pub field: AnyField,
}

/// The signature of a file with its field, or the first fault: that of the file, of a line of its text, or of the field.
pub fn read_signed<S: Shelf>(alloc: Global, shelf: &mut S, file: &str) -> Result<Signed, Stop>
    ensures held { S.held shelf.new ≡ S.held shelf.old }
    ensures never_fall { (S.faults shelf.old ≤ S.faults shelf.new) × (S.misses shelf.old ≤ S.misses shelf.new) }
    ensures gives { GivesOver S.held S.misses S.faults shelf.old shelf.new signed_value result (λ held. SignedIn held file.now) }
    ensures said { IfOk result (λ signed. AreSaid signed.signature) }
    ensures named { IfOk result (λ signed. IsNamedBy signed.signature signed.field) }
{
    let text = match read_file(alloc, shelf, file) {
        Ok(text) => text,
        Err(stop) => return Err(stop),
    };
    signed_of(alloc, &text)
}

// The signature of a text with its field, or the text's first fault.
fn signed_of(alloc: Global, text: &[u8]) -> Result<Signed, Stop>
    requires { length text.now ≤ 67108864 }
    ensures gives { GivesBy signed_value result (Within Signature (SignedOf text.now)) ⊥ ⊥ }
    ensures said { IfOk result (λ signed. AreSaid signed.signature) }
    ensures named { IfOk result (λ signed. IsNamedBy signed.signature signed.field) }
{
    let signature = match read_signature(alloc, text) {
        Ok(signature) => signature,
        Err(fault) => return Err(text_stop(fault)),
    };
    match AnyField::new(signature.modulus(), signature.tower(), signature.upper()) {
        Ok(field) => Ok(Signed { signature, field }),
        Err(fault) => Err(refused(field_fault(fault))),
    }
}

// What a fault of a signature's text ends with.
fn text_stop(fault: SigFault) -> Stop
    ensures { result ≡ stop_of_text fault }
{
    match fault {
        SigFault::Syntax { line } => refused(SignatureFault::Syntax { line }),
        SigFault::NameTwice { line } => refused(SignatureFault::NameTwice { line }),
        SigFault::NoFedWord { line } => refused(SignatureFault::NoFedWord { line }),
        SigFault::FeedTwice { line } => refused(SignatureFault::FeedTwice { line }),
        SigFault::TwoOutputs { line } => refused(SignatureFault::TwoOutputs { line }),
        SigFault::TooManyWords { line } => refused(SignatureFault::TooManyWords { line }),
        SigFault::NoOutput { block: None } => refused(SignatureFault::NoOutput),
        SigFault::NoOutput { block: Some(model) } => {
            refused(SignatureFault::NoOutputInBlock { model })
        }
        SigFault::OutOfMemory => Stop::OutOfMemory,
    }
}

/// The refusal of a signature.
pub(crate) fn refused(fault: SignatureFault) -> Stop
    ensures { result ≡ Refused (Signature fault) }
{
    Stop::Refused(Fault::Signature(fault))
}

/// The fault of a signature's field.
pub(crate) fn field_fault(fault: FieldFault) -> SignatureFault
    ensures { result ≡ fault_of_field fault }
{
    match fault {
        FieldFault::BadDegree => SignatureFault::Degree,
        FieldFault::NotIrreducible => SignatureFault::Modulus,
        FieldFault::BadLength => SignatureFault::Tower,
        FieldFault::BadCoefficient { .. } => SignatureFault::Tower,
        FieldFault::TowerNotIrreducible => SignatureFault::TowerPolynomial,
        FieldFault::UpperBadLength => SignatureFault::Tower,
        FieldFault::UpperBadCoefficient { .. } => SignatureFault::Tower,
        FieldFault::UpperNotIrreducible => SignatureFault::TowerPolynomial,
    }
}
