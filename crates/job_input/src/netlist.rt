//! A netlist: its text, its net, and the binding of the signature's words.
ghost use Rattle.std.specs.Prelude.{◌≡◌, ◌≤◌, ◌<◌, ◌⊎◌, ℕ, length, Ok, Err, IfOk, IfErr, IsOk};
ghost use Rattle.net_core.specs.NetList.{nets, text_of};
ghost use Rattle.net_blif.specs.Models.{BlifDesign};
ghost use Rattle.net_words.specs.Bind.{bits_of};
ghost use Rattle.net_words.specs.Binding.{AreWords};
ghost use Rattle.net_words.specs.Feeds.{AreFeeds};
ghost use Rattle.job_words.specs.Operands.{is_aiger as ends_as_aiger, is_verilog as ends_as_verilog};
ghost use Rattle.job_input.specs.NetlistOf.{Aiger, Blif, BoundNetOf, NetOf, Verilog, WordsBound, by_ending, of_binding, word_name as name_of};
ghost use Rattle.job_input.specs.Setting.{roles_of};
ghost use Rattle.job_input.specs.private.NetlistReading.{FitsNetlist, IsNamed, IsNetlistRefusal, aiger_refusal, text_refusal, model_refusal, net_refusal, verilog_refusal};

use crate::bound::BoundNetlist;
use job_words::{BindingFault, NetlistFault};
use net_aiger::{AigerFault, read_aiger};
use net_blif::{BlifFault, Design, read_blif};
use net_core::{Name, Net, NetFault};
use net_flat::{FlatFault, flatten_design};
use net_signature::Signature;
use net_verilog::VerilogFault;
use net_words::{BindFault, FeedText, WordText, bind};
use std::alloc::{AllocError, Global};
use verilog_reader::read_verilog;

/// Why a netlist is refused, without its file.
#[derive(Drop)]
pub(crate) enum Refusal {
    Fault(NetlistFault),
    OutOfMemory,
}

/// The net of a netlist's text, by the ending of its file's name, with the words of a signature bound to it. The text is let go
/// as soon as it is read.
pub(crate) fn bound_net(
    alloc: Global,
    signature: &Signature,
    file: &str,
    text: Vec<u8>,
) -> Result<BoundNetlist, Refusal>
    requires short { length text.items ≤ 67108864 }
    requires words { (k : ℕ) × AreWords k signature.now.words × AreFeeds k (roles_of signature.now.words) signature.now.feeds }
    ensures fits { FitsNetlist result (BoundNetOf signature.now (by_ending file.now text.items)) }
    ensures bits { IfOk result (λ netlist. netlist.binding.k ≡ bits_of signature.now.words) }
{
    match net_of(alloc, file, text) {
        Ok(net) => bound_to(alloc, signature.words(), signature.feeds(), net),
        Err(refusal) => Err(refusal),
    }
}

/// The net with the words and feeds that are bound to it.
pub(crate) fn bound_to(
    alloc: Global,
    words: &[WordText],
    feeds: &[FeedText],
    net: Net,
) -> Result<BoundNetlist, Refusal>
    requires words { (k : ℕ) × AreWords k words.now × AreFeeds k (roles_of words.now) feeds.now }
    ensures fits { FitsNetlist result (WordsBound words.now feeds.now net) }
    ensures bits { IfOk result (λ netlist. netlist.binding.k ≡ bits_of words.now) }
{
    match bind(alloc, words, feeds, &net) {
        Ok(binding) => Ok(BoundNetlist::new(net, binding)),
        Err(fault) => Err(binding_fault(alloc, words, &net, fault)),
    }
}

// Whether the name of a file says that it is in ASCII AIGER.
fn is_aiger(file: &str) -> bool
    ensures { result ≡ ends_as_aiger file.now }
{
    file.as_bytes().ends_with(b".aag")
}

// Whether the name of a file says that it is in structural Verilog.
fn is_verilog(file: &str) -> bool
    ensures { result ≡ ends_as_verilog file.now }
{
    file.as_bytes().ends_with(b".v")
}

// The net of a text, which the reader of its form gives.
fn net_of(alloc: Global, file: &str, text: Vec<u8>) -> Result<Net, Refusal>
    requires { length text.items ≤ 67108864 }
    ensures fits { FitsNetlist result (NetOf (by_ending file.now text.items)) }
{
    if is_aiger(file) {
        aiger_net(alloc, text)
    } else if is_verilog(file) {
        verilog_net(alloc, text)
    } else {
        blif_net(alloc, text)
    }
}

// The net of a text in ASCII AIGER.
fn aiger_net(alloc: Global, text: Vec<u8>) -> Result<Net, Refusal>
    requires { length text.items ≤ 67108864 }
    ensures fits { FitsNetlist result (NetOf (Aiger text.items)) }
{
    match read_aiger(alloc, &text) {
        Ok(net) => Ok(net),
        Err(fault) => Err(aiger_fault(fault)),
    }
}

// The refusal of a text in ASCII AIGER.
fn aiger_fault(fault: AigerFault) -> Refusal
    ensures { result ≡ aiger_refusal fault }
{
    match fault {
        AigerFault::Syntax { line } => Refusal::Fault(NetlistFault::Syntax { line }),
        AigerFault::LeftOut { line, word } => Refusal::Fault(NetlistFault::LeftOut { line, word }),
        AigerFault::Literal { line } => Refusal::Fault(NetlistFault::Literal { line }),
        AigerFault::DefinedTwice { line } => Refusal::Fault(NetlistFault::DefinedTwice { line }),
        AigerFault::Undefined { line } => Refusal::Fault(NetlistFault::Undefined { line }),
        AigerFault::NameTwice { line } => Refusal::Fault(NetlistFault::NameTwice { line }),
        AigerFault::Net(fault) => net_fault(fault),
        AigerFault::OutOfMemory => Refusal::OutOfMemory,
    }
}

// The net of a text in structural Verilog.
fn verilog_net(alloc: Global, text: Vec<u8>) -> Result<Net, Refusal>
    requires { length text.items ≤ 67108864 }
    ensures fits { FitsNetlist result (NetOf (Verilog text.items)) }
{
    match read_verilog(alloc, &text) {
        Ok(net) => Ok(net),
        Err(fault) => Err(verilog_fault(fault)),
    }
}

// The refusal of a text in structural Verilog.
fn verilog_fault(fault: VerilogFault) -> Refusal
    ensures { result ≡ verilog_refusal fault }
{
    match fault {
        VerilogFault::Syntax { line } => Refusal::Fault(NetlistFault::Syntax { line }),
        VerilogFault::LeftOut { line, word } => {
            Refusal::Fault(NetlistFault::LeftOut { line, word })
        }
        VerilogFault::Undeclared { line } => Refusal::Fault(NetlistFault::Undeclared { line }),
        VerilogFault::OutOfRange { line } => Refusal::Fault(NetlistFault::OutOfRange { line }),
        VerilogFault::Redeclared { line } => Refusal::Fault(NetlistFault::Redeclared { line }),
        VerilogFault::Arity { line, inputs } => {
            Refusal::Fault(NetlistFault::TooWide { line, inputs })
        }
        VerilogFault::Net(fault) => net_fault(fault),
        VerilogFault::OutOfMemory => Refusal::OutOfMemory,
    }
}

/// The models of a text in BLIF, which is let go when they are read.
pub(crate) fn blif_design(alloc: Global, text: Vec<u8>) -> Result<Design, BlifFault>
    requires { length text.items ≤ 67108864 }
    ensures read { IfOk result (λ design. BlifDesign text.items (Ok design)) }
    ensures fault { IfErr result (λ e. (e ≡ BlifFault.OutOfMemory) ⊎ BlifDesign text.items (Err e)) }
{
    read_blif(alloc, &text)
}

// The net of a text in BLIF, whose models are let go when their lines were walked.
fn blif_net(alloc: Global, text: Vec<u8>) -> Result<Net, Refusal>
    requires { length text.items ≤ 67108864 }
    ensures fits { FitsNetlist result (NetOf (Blif text.items)) }
{
    let design = match blif_design(alloc, text) {
        Ok(design) => design,
        Err(fault) => return Err(text_fault(fault)),
    };
    match flatten_design(alloc, design, 0) {
        Ok(net) => Ok(net),
        Err(fault) => Err(model_fault(fault)),
    }
}

/// The refusal of a netlist's text.
pub(crate) fn text_fault(fault: BlifFault) -> Refusal
    ensures { result ≡ text_refusal fault }
{
    match fault {
        BlifFault::NoModel => Refusal::Fault(NetlistFault::NoModel),
        BlifFault::Syntax { line } => Refusal::Fault(NetlistFault::Syntax { line }),
        BlifFault::LeftOut { line, word } => Refusal::Fault(NetlistFault::LeftOut { line, word }),
        BlifFault::TooWide { line, inputs } => {
            Refusal::Fault(NetlistFault::TooWide { line, inputs })
        }
        BlifFault::ModelTwice { line } => Refusal::Fault(NetlistFault::ModelTwice { line }),
        BlifFault::NoSuchModel { line } => Refusal::Fault(NetlistFault::NoSuchModel { line }),
        BlifFault::NoSuchFormal { line } => Refusal::Fault(NetlistFault::NoSuchFormal { line }),
        BlifFault::FormalTwice { line } => Refusal::Fault(NetlistFault::FormalTwice { line }),
        BlifFault::FormalMissing { line } => Refusal::Fault(NetlistFault::FormalMissing { line }),
        BlifFault::Recursive { model } => Refusal::Fault(NetlistFault::Recursive { model }),
        BlifFault::TooDeep => Refusal::Fault(NetlistFault::TooDeep),
        BlifFault::OutOfMemory => Refusal::OutOfMemory,
    }
}

/// The refusal of a model's net.
pub(crate) fn model_fault(fault: FlatFault) -> Refusal
    ensures { result ≡ model_refusal fault }
{
    match fault {
        FlatFault::Net(fault) => net_fault(fault),
        FlatFault::TooManyInstances => Refusal::Fault(NetlistFault::TooManyInstances),
        FlatFault::OutOfMemory => Refusal::OutOfMemory,
    }
}

// The refusal of a net.
fn net_fault(fault: NetFault) -> Refusal
    ensures { result ≡ net_refusal fault }
{
    match fault {
        NetFault::TooManyNets => Refusal::Fault(NetlistFault::TooManyNets),
        NetFault::TooManyGates => Refusal::Fault(NetlistFault::TooManyGates),
        NetFault::DrivenTwice { net: _net, label } => {
            Refusal::Fault(NetlistFault::DrivenTwice { label })
        }
        NetFault::Undriven { net: _net, label } => Refusal::Fault(NetlistFault::Undriven { label }),
        NetFault::Loop { nets, label } => {
            let count = nets.as_slice().len() as u64;
            Refusal::Fault(NetlistFault::Loop { count, label })
        }
        NetFault::OutOfMemory => Refusal::OutOfMemory,
    }
}

// The refusal of a binding.
fn binding_fault(alloc: Global, words: &[WordText], net: &Net, fault: BindFault) -> Refusal
    requires { IsNamed (length words.now) net.now fault }
    ensures same { IsNetlistRefusal (NetlistFault.Binding (of_binding words.now net.now fault)) result }
    ensures memory { fault ≡ BindFault.OutOfMemory → result ≡ Refusal.OutOfMemory }
{
    match named_fault(alloc, words, net, fault) {
        Ok(fault) => Refusal::Fault(NetlistFault::Binding(fault)),
        Err(_) => Refusal::OutOfMemory,
    }
}

// The fault of a binding with the name of its word or the label of its net.
fn named_fault(
    alloc: Global,
    words: &[WordText],
    net: &Net,
    fault: BindFault,
) -> Result<BindingFault, AllocError>
    requires { IsNamed (length words.now) net.now fault }
    ensures named { IfOk result (λ named. named ≡ of_binding words.now net.now fault) }
    ensures memory { IsOk result → fault ≡ BindFault.OutOfMemory → ⊥ }
{
    match fault {
        BindFault::NoSuchNet { word, place } => {
            let word = word_name(alloc, words, word)?;
            Ok(BindingFault::NoSuchNet { word, place })
        }
        BindFault::NotInput { word, place } => {
            let word = word_name(alloc, words, word)?;
            Ok(BindingFault::NotInput { word, place })
        }
        BindFault::NotLatch { word, place } => {
            let word = word_name(alloc, words, word)?;
            Ok(BindingFault::NotLatch { word, place })
        }
        BindFault::NetTwice { net: number } => {
            let label = label(alloc, net, number)?;
            Ok(BindingFault::NetTwice { label })
        }
        BindFault::FeedNotFree { line } => Ok(BindingFault::FeedNotFree { line }),
        BindFault::Uncovered { net: number } => {
            let label = label(alloc, net, number)?;
            Ok(BindingFault::Uncovered { label })
        }
        BindFault::UnknownStart { net: number } => {
            let label = label(alloc, net, number)?;
            Ok(BindingFault::UnknownStart { label })
        }
        BindFault::OutOfMemory => Err(AllocError),
    }
}

// The name of a word.
fn word_name(alloc: Global, words: &[WordText], word: u32) -> Result<Name, AllocError>
    requires { word < length words.now }
    ensures { IfOk result (λ name. name ≡ name_of words.now word) }
{
    Name::new(alloc, words[word as usize].name.as_str())
}

// What a net is called.
fn label(alloc: Global, net: &Net, number: u32) -> Result<Name, AllocError>
    requires { number < nets net.now }
    ensures { IfOk result (λ label. label ≡ text_of net.now number) }
{
    Name::new(alloc, net.label(number))
}
