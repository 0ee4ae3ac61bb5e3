//! Why an input is refused: the faults of all parts, each under its owner, and their lines.
ghost use Rattle.std.specs.Prelude.{◌≡◌, ◌++◌, ℕ, List, IfOk, codes, string_bytes};
ghost use Rattle.job_words.specs.Fault.{fault_line, fault_status};
ghost use Rattle.job_words.specs.Kind.{kind_name as name_of};

use crate::certificate_fault::{CertificateFault, certificate_text};
use crate::composition_fault::{CompositionFault, composition_text};
use crate::file_fault::{FileFault, file_text};
use crate::kind::{Kind, kind_name};
use crate::netlist_fault::{NetlistFault, netlist_text};
use crate::signature_fault::{SignatureFault, second_signature_text, signature_text};
use crate::specification_fault::{SpecificationFault, specification_text};
use crate::stage_fault::{StageFault, stage_fault_text};
use crate::table_text_fault::{TableTextFault, table_text};
use crate::value_fault::{ValueFault, value_text};
use net_core::Name;
use std::alloc::{AllocError, Global};

/// Why an input is refused.
#[derive(Drop)]
pub enum Fault {
    /// The words fit no shape of a command.
    Words,
    /// A file is absent or too long.
    File(FileFault),
    /// The signature or its field is refused.
    Signature(SignatureFault),
    /// The netlist of this file, or its binding to the signature, is refused.
    Netlist { file: Name, fault: NetlistFault },
    /// The specification is refused.
    Specification(SpecificationFault),
    /// The values at which a netlist is to be evaluated are refused.
    Value(ValueFault),
    /// The second of two signatures, or its field, is refused.
    SecondSignature(SignatureFault),
    /// The fields of two signatures do not fit.
    Fields,
    /// The signature has too many inputs for a table.
    NotSmall,
    /// The table is refused.
    Table(TableTextFault),
    /// The certificate is refused.
    Certificate(CertificateFault),
    /// The signature has not the form of this kind of netlists.
    Form(Kind),
    /// The design can't be composed of its blocks.
    Composition(CompositionFault),
    /// A stage has more terms than the bound.
    Stage(StageFault),
}

/// The status that a fault ends with: 3 where a stage passes the bound, else 2.
pub fn status_of(fault: &Fault) -> u8
    ensures { result ≡ fault_status fault.now }
{
    match fault {
        Fault::Words
        | Fault::File(_)
        | Fault::Signature(_)
        | Fault::Netlist { .. }
        | Fault::Specification(_)
        | Fault::Value(_)
        | Fault::SecondSignature(_)
        | Fault::Fields
        | Fault::NotSmall
        | Fault::Table(_)
        | Fault::Certificate(_)
        | Fault::Form(_)
        | Fault::Composition(_) => 2,
        Fault::Stage(_) => 3,
    }
}

/// The line of a fault, with its LF.
pub fn write_fault(alloc: Global, fault: &Fault) -> Result<Vec<u8>, AllocError>
    ensures { IfOk result (λ line. line.items ≡ fault_line fault.now) }
{
    match fault {
        Fault::Words => line_of(alloc, "01: words"),
        Fault::File(fault) => line_with(alloc, file_text(alloc, fault)),
        Fault::Signature(fault) => line_with(alloc, signature_text(alloc, fault)),
        Fault::Netlist { file, fault } => {
            line_in(alloc, netlist_text(alloc, fault)?.as_str(), file.as_str())
        }
        Fault::Specification(fault) => line_with(alloc, specification_text(alloc, fault)),
        Fault::Value(fault) => line_with(alloc, value_text(alloc, fault)),
        Fault::SecondSignature(fault) => line_with(alloc, second_signature_text(alloc, fault)),
        Fault::Fields => line_of(alloc, "45: the fields do not fit"),
        Fault::NotSmall => line_of(alloc, "47: the signature is not small"),
        Fault::Table(fault) => line_with(alloc, table_text(alloc, fault)),
        Fault::Certificate(fault) => line_with(alloc, certificate_text(alloc, fault)),
        Fault::Form(kind) => line_with(alloc, form_text(alloc, *kind)),
        Fault::Composition(fault) => line_with(alloc, composition_text(alloc, fault)),
        Fault::Stage(fault) => line_with(alloc, stage_fault_text(alloc, fault)),
    }
}

// The number and the text of a form that does not fit.
fn form_text(alloc: Global, kind: Kind) -> Result<String, AllocError>
    ensures { IfOk result (λ text. string_bytes text ≡ codes "43: the signature does not fit " ++ name_of kind) }
{
    let name = kind_name(kind);
    format!(in alloc; "43: the signature does not fit {name}")
}

// The line of a number and a text.
fn line_of(alloc: Global, text: &str) -> Result<Vec<u8>, AllocError>
    ensures { IfOk result (λ line. line.items ≡ codes "fault " ++ (text.now ++ codes "\n")) }
{
    let line = format!(in alloc; "fault {text}\n")?;
    Ok(line.into_bytes())
}

// The line of a number and a text, where there was memory for them.
fn line_with(alloc: Global, text: Result<String, AllocError>) -> Result<Vec<u8>, AllocError>
    ensures { (bytes : List ℕ) → IfOk text (λ t. string_bytes t ≡ bytes) → IfOk result (λ line. line.items ≡ codes "fault " ++ (bytes ++ codes "\n")) }
{
    let text = text?;
    line_of(alloc, text.as_str())
}

// The line of a number and a text, and of the file that they speak of.
fn line_in(alloc: Global, text: &str, file: &str) -> Result<Vec<u8>, AllocError>
    ensures { IfOk result (λ line. line.items ≡ codes "fault " ++ (text.now ++ (codes " in " ++ (file.now ++ codes "\n")))) }
{
    let line = format!(in alloc; "fault {text} in {file}\n")?;
    Ok(line.into_bytes())
}
