//! Why a signature is refused.
ghost use Rattle.std.specs.Prelude.{◌≡◌, ◌++◌, IfOk, codes, string_bytes};
ghost use Rattle.job_words.specs.SignatureFault.{signature_number as number_of, signature_words as words_of, second_word as second_of, signature_text as text_of, second_signature_text as second_text_of};

use crate::texts::numbered;
use net_core::Name;
use std::alloc::{AllocError, Global};

/// Why a signature is refused. Lines count from 1.
#[derive(Drop)]
pub enum SignatureFault {
    /// A feed is from a word that is no fed word of the top.
    NoFedWord { line: u32 },
    /// An earlier feed has the same net and cycle.
    FeedTwice { line: u32 },
    /// The line is no line of its place.
    Syntax { line: u32 },
    /// The modulus has not degree 1 to 64.
    Degree,
    /// The modulus is not irreducible.
    Modulus,
    /// The polynomial of the tower is not irreducible.
    TowerPolynomial,
    /// The elements of a basis are dependent.
    Dependent { line: u32 },
    /// A basis has not k elements, or an element is none of the field.
    Basis { line: u32 },
    /// The tower's polynomial has not at least two coefficients of the field that fit into 64 bits.
    Tower,
    /// A word that is not fed has not as many nets as the field's elements have bits, or a feed is from a place that is no
    /// place of such a word.
    Bits { line: u32 },
    /// Another word of the same top or block has the name, or another block is of the model.
    NameTwice { line: u32 },
    /// The top has no output word.
    NoOutput,
    /// The block of this model has no output word.
    NoOutputInBlock { model: Name },
    /// A second output word of the same top or block.
    TwoOutputs { line: u32 },
    /// The ninth input, state or fed word of the same top or block.
    TooManyWords { line: u32 },
}

/// The number and the text of a signature's fault.
pub(crate) fn signature_text(alloc: Global, fault: &SignatureFault) -> Result<String, AllocError>
    ensures { IfOk result (λ text. string_bytes text ≡ text_of fault.now) }
{
    let words = signature_words(alloc, fault)?;
    joined(alloc, number(fault), "", words.as_str())
}

/// The number and the text of a fault of the second of two signatures.
pub(crate) fn second_signature_text(
    alloc: Global,
    fault: &SignatureFault,
) -> Result<String, AllocError>
    ensures { IfOk result (λ text. string_bytes text ≡ second_text_of fault.now) }
{
    let words = signature_words(alloc, fault)?;
    joined(alloc, number(fault), second(fault), words.as_str())
}

// A number and a text.
fn joined(alloc: Global, number: &str, before: &str, words: &str) -> Result<String, AllocError>
    ensures { IfOk result (λ text. string_bytes text ≡ number.now ++ (codes ": " ++ (before.now ++ words.now))) }
{
    format!(in alloc; "{number}: {before}{words}")
}

// The number of a signature's fault.
fn number(fault: &SignatureFault) -> &'static str
    ensures { result.now ≡ number_of fault.now }
{
    match fault {
        SignatureFault::NoFedWord { .. } | SignatureFault::FeedTwice { .. } => "12",
        SignatureFault::Syntax { .. } => "20",
        SignatureFault::Degree => "21",
        SignatureFault::Modulus | SignatureFault::TowerPolynomial => "22",
        SignatureFault::Dependent { .. } => "23",
        SignatureFault::Basis { .. } => "24",
        SignatureFault::Tower => "25",
        SignatureFault::Bits { .. } => "26",
        SignatureFault::NameTwice { .. } => "27",
        SignatureFault::NoOutput
        | SignatureFault::NoOutputInBlock { .. }
        | SignatureFault::TwoOutputs { .. } => "28",
        SignatureFault::TooManyWords { .. } => "29",
    }
}

// The word before those of a fault of the second of two signatures.
fn second(fault: &SignatureFault) -> &'static str
    ensures { result.now ≡ second_of fault.now }
{
    match fault {
        SignatureFault::NoFedWord { .. } | SignatureFault::FeedTwice { .. } => "",
        _ => "second ",
    }
}

// The words of a signature's fault.
fn signature_words(alloc: Global, fault: &SignatureFault) -> Result<String, AllocError>
    ensures { IfOk result (λ text. string_bytes text ≡ words_of fault.now) }
{
    match fault {
        SignatureFault::NoFedWord { line } => numbered(alloc, "no fed word at line ", *line),
        SignatureFault::FeedTwice { line } => numbered(alloc, "feed twice at line ", *line),
        SignatureFault::Syntax { line } => numbered(alloc, "signature line ", *line),
        SignatureFault::Degree => String::from_str(alloc, "modulus degree"),
        SignatureFault::Modulus => String::from_str(alloc, "the modulus is not irreducible"),
        SignatureFault::TowerPolynomial => {
            String::from_str(alloc, "the tower polynomial is not irreducible")
        }
        SignatureFault::Dependent { line } => numbered(alloc, "dependent basis at line ", *line),
        SignatureFault::Basis { line } => numbered(alloc, "basis at line ", *line),
        SignatureFault::Tower => String::from_str(alloc, "tower"),
        SignatureFault::Bits { line } => numbered(alloc, "bits at line ", *line),
        SignatureFault::NameTwice { line } => numbered(alloc, "name twice at line ", *line),
        SignatureFault::NoOutput => String::from_str(alloc, "no output word"),
        SignatureFault::NoOutputInBlock { model } => {
            format!(in alloc; "no output word in block {}", model.as_str())
        }
        SignatureFault::TwoOutputs { line } => {
            numbered(alloc, "second output word at line ", *line)
        }
        SignatureFault::TooManyWords { line } => numbered(alloc, "ninth word at line ", *line),
    }
}
