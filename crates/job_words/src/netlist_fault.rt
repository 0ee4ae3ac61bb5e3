//! Why a netlist or its binding to a signature is refused.
ghost use Rattle.std.specs.Prelude.{◌≡◌, ◌++◌, IfOk, codes, string_bytes};
ghost use Rattle.std.specs.Fmt.{decimal};
ghost use Rattle.job_words.specs.NetlistFault.{netlist_text as text_of, binding_text as text_of_binding, place_text};

use crate::texts::{about, named_number, numbered, two_numbers};
use net_core::Name;
use std::alloc::{AllocError, Global};

/// Why a netlist or its binding is refused. Lines count from 1.
#[derive(Drop)]
pub enum NetlistFault {
    /// The line has a wrong byte or form, or stands where it may not.
    Syntax { line: u32 },
    /// The line begins with a word that is not read.
    LeftOut { line: u32, word: Name },
    /// There is no statement, or the first is not `.model`.
    NoModel,
    /// An earlier model has the name.
    ModelTwice { line: u32 },
    /// No model has the name of which the line makes an instance.
    NoSuchModel { line: u32 },
    /// A connection names a formal that the instance's model does not have.
    NoSuchFormal { line: u32 },
    /// A connection names a formal that an earlier connection of the line has.
    FormalTwice { line: u32 },
    /// An input of the instance's model is not connected.
    FormalMissing { line: u32 },
    /// A model contains an instance of itself, perhaps through others.
    Recursive { model: Name },
    /// A chain of instances from the top has more than 64 models.
    TooDeep,
    /// A name is not declared before.
    Undeclared { line: u32 },
    /// A vector without an index, a scalar with one, or an index outside the range.
    OutOfRange { line: u32 },
    /// A name is declared again with another range or a second direction, or another name makes a net of the same name.
    Redeclared { line: u32 },
    /// A net has two drivers.
    DrivenTwice { label: Name },
    /// A net has no driver.
    Undriven { label: Name },
    /// So many gates drive each other in a cycle; the net is the first of them.
    Loop { count: u64, label: Name },
    /// A cover has more than 6 inputs, or a gate has a number of inputs that it may not have.
    TooWide { line: u32, inputs: u32 },
    /// There would be 1,048,577 nets, or more after unrolling.
    TooManyNets,
    /// There would be 1,048,577 gates and latches, or more gates after unrolling.
    TooManyGates,
    /// There would be 1,048,577 instances.
    TooManyInstances,
    /// A literal is above those of the header, or one that is defined is 0, 1 or odd.
    Literal { line: u32 },
    /// An earlier line defines the literal.
    DefinedTwice { line: u32 },
    /// The line uses a variable that no line defines.
    Undefined { line: u32 },
    /// An earlier input, latch or output has the name.
    NameTwice { line: u32 },
    /// The words can't be bound.
    Binding(BindingFault),
}

/// Why the words of a signature can't be bound to a netlist. Places count from 0.
#[derive(Drop)]
pub enum BindingFault {
    /// No net has the name of this place of a word.
    NoSuchNet { word: Name, place: u32 },
    /// The net of this place of an input word is no primary input.
    NotInput { word: Name, place: u32 },
    /// The net of this place of a state word is no output of a latch.
    NotLatch { word: Name, place: u32 },
    /// The net stands twice in input and state words.
    NetTwice { label: Name },
    /// The net of a feed's line is no named net, or no primary input, or stands in an input word.
    FeedNotFree { line: u32 },
    /// A primary input is in no word and not fed, and something depends on it.
    Uncovered { label: Name },
    /// A latch with an unknown start is in no state word.
    UnknownStart { label: Name },
}

/// The number and the text of a netlist's fault, without its file.
pub(crate) fn netlist_text(alloc: Global, fault: &NetlistFault) -> Result<String, AllocError>
    ensures { IfOk result (λ text. string_bytes text ≡ text_of fault.now) }
{
    match fault {
        NetlistFault::Syntax { line } => numbered(alloc, "30: netlist line ", *line),
        NetlistFault::LeftOut { line, word } => {
            named_number(alloc, "31: ", word.as_str(), " at line ", *line)
        }
        NetlistFault::NoModel => String::from_str(alloc, "32: no model"),
        NetlistFault::ModelTwice { line } => numbered(alloc, "32: model twice at line ", *line),
        NetlistFault::NoSuchModel { line } => numbered(alloc, "32: no such model at line ", *line),
        NetlistFault::NoSuchFormal { line } => {
            numbered(alloc, "32: no such formal at line ", *line)
        }
        NetlistFault::FormalTwice { line } => numbered(alloc, "32: formal twice at line ", *line),
        NetlistFault::FormalMissing { line } => {
            numbered(alloc, "32: formal missing at line ", *line)
        }
        NetlistFault::Recursive { model } => {
            about(alloc, "32: model ", model, " contains itself")
        }
        NetlistFault::TooDeep => String::from_str(alloc, "32: more than 64 models deep"),
        NetlistFault::Undeclared { line } => numbered(alloc, "33: undeclared at line ", *line),
        NetlistFault::OutOfRange { line } => numbered(alloc, "33: index at line ", *line),
        NetlistFault::Redeclared { line } => numbered(alloc, "33: redeclared at line ", *line),
        NetlistFault::DrivenTwice { label } => {
            about(alloc, "34: net ", label, " is driven twice")
        }
        NetlistFault::Undriven { label } => about(alloc, "35: net ", label, " is not driven"),
        NetlistFault::Loop { count, label } => loop_text(alloc, *count, label),
        NetlistFault::TooWide { line, inputs } => {
            two_numbers(alloc, "37: ", *inputs, " inputs at line ", *line)
        }
        NetlistFault::TooManyNets => String::from_str(alloc, "38: too many nets"),
        NetlistFault::TooManyGates => String::from_str(alloc, "38: too many gates"),
        NetlistFault::TooManyInstances => String::from_str(alloc, "38: too many instances"),
        NetlistFault::Literal { line } => numbered(alloc, "46: literal at line ", *line),
        NetlistFault::DefinedTwice { line } => numbered(alloc, "46: defined twice at line ", *line),
        NetlistFault::Undefined { line } => numbered(alloc, "46: undefined at line ", *line),
        NetlistFault::NameTwice { line } => numbered(alloc, "46: name twice at line ", *line),
        NetlistFault::Binding(fault) => binding_text(alloc, fault),
    }
}

// The number and the text of a fault of a binding.
fn binding_text(alloc: Global, fault: &BindingFault) -> Result<String, AllocError>
    ensures { IfOk result (λ text. string_bytes text ≡ text_of_binding fault.now) }
{
    match fault {
        BindingFault::NoSuchNet { word, place } => {
            bit_text(alloc, "39: no net for ", word, *place, "")
        }
        BindingFault::NotInput { word, place } => {
            bit_text(alloc, "39: ", word, *place, " is no input")
        }
        BindingFault::NotLatch { word, place } => {
            bit_text(alloc, "39: ", word, *place, " is no latch")
        }
        BindingFault::NetTwice { label } => about(alloc, "39: net ", label, " stands twice"),
        BindingFault::FeedNotFree { line } => {
            format!(in alloc; "13: feed at line {line} is no free input")
        }
        BindingFault::Uncovered { label } => about(alloc, "39: input ", label, " is in no word"),
        BindingFault::UnknownStart { label } => {
            about(alloc, "39: latch ", label, " has no start")
        }
    }
}

// A text about a bit of a word.
fn bit_text(
    alloc: Global,
    before: &str,
    word: &Name,
    place: u32,
    after: &str,
) -> Result<String, AllocError>
    ensures { IfOk result (λ text. string_bytes text ≡ before.now ++ place_text word.now place after.now) }
{
    let word = word.as_str();
    format!(in alloc; "{before}{word}[{place}]{after}")
}

// The text of a cycle of so many gates.
fn loop_text(alloc: Global, count: u64, label: &Name) -> Result<String, AllocError>
    ensures { IfOk result (λ text. string_bytes text ≡ (codes "36: loop of " ++ (decimal count ++ codes " nets through ")) ++ label.now) }
{
    let front = format!(in alloc; "36: loop of {count} nets through ")?;
    let front = front.as_str();
    let label = label.as_str();
    format!(in alloc; "{front}{label}")
}
