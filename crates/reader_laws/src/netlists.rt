//! Laws of netlists. These functions do nothing: their contracts are proved of the definitions alone.
ghost use Rattle.std.specs.Prelude.{ℕ, List, Option, Result, Ok};
ghost use Rattle.job_io.specs.Shelf.{Files};
ghost use Rattle.net_core.specs.NetList.{NetList};
ghost use Rattle.net_words.specs.Bind.{BindingOf};
ghost use Rattle.net_words.specs.Binding.{Binding, BoundNet};
ghost use Rattle.net_words.specs.declared.binding.BindFault.{BindFault};
ghost use Rattle.net_words.specs.declared.feed.FeedText.{FeedText};
ghost use Rattle.net_words.specs.declared.word.WordText.{WordText};
ghost use Rattle.net_signature.specs.Signature.{SignatureValue};
ghost use Rattle.net_blif.specs.Design.{ModelValue};
ghost use Rattle.net_blif.specs.Models.{BlifDesign};
ghost use Rattle.net_blif.specs.declared.fault.BlifFault.{BlifFault};
ghost use Rattle.net_flat.specs.Flat.{Flattens};
ghost use Rattle.net_flat.specs.declared.flat_fault.FlatFault.{FlatFault};
ghost use Rattle.net_verilog.specs.Tokens.{TokenValue};
ghost use Rattle.net_verilog.specs.declared.fault.VerilogFault.{VerilogFault};
ghost use Rattle.net_aiger.specs.AigerNet.{AigerNet};
ghost use Rattle.net_aiger.specs.declared.fault.AigerFault.{AigerFault};
ghost use Rattle.verilog_reader.specs.Modules.{Module, VerilogNet};
ghost use Rattle.job_words.specs.Operands.{Word};
ghost use Rattle.job_words.specs.declared.fault.Fault.{Fault};
ghost use Rattle.job_words.specs.declared.netlist_fault.NetlistFault.{NetlistFault};
ghost use Rattle.job_input.specs.NetlistOf.{BoundNetOf, NetlistIn, NetlistText};
ghost use Rattle.reader_laws.specs.SoundModels.{AreSoundModels};

/// Some outcome fits each text in BLIF: its models, or its first fault.
pub fn some_design_or_fault()
    ensures { (text : List ℕ) → (outcome : Result (List ModelValue) BlifFault) × BlifDesign text outcome }
{}

/// What the lines of a text in BLIF place is sound: names are tokens, tables fit their inputs, and instances have connections.
pub fn items_of_texts_are_sound()
    ensures { (text : List ℕ) (design : List ModelValue) → BlifDesign text (Ok design) → AreSoundModels design }
{}

/// Some outcome fits each model of a design whose lines place sound items, as those of a text do: a net, or a fault.
pub fn some_flat_or_fault()
    ensures sound { (design : List ModelValue) (model : ℕ) → AreSoundModels design → (outcome : Result NetList FlatFault) × Flattens design model outcome }
    ensures read { (text : List ℕ) (design : List ModelValue) (model : ℕ) → BlifDesign text (Ok design) → (outcome : Result NetList FlatFault) × Flattens design model outcome }
{}

/// Some outcome comes of each text in ASCII AIGER: a net, or its first fault.
pub fn some_aiger_net_or_fault()
    ensures { (text : List ℕ) → (outcome : Result NetList AigerFault) × AigerNet text outcome }
{}

/// Of tokens in structural Verilog there is a module, as the net list that is made of it, or a fault.
pub fn some_module_or_fault()
    ensures { (tokens : List TokenValue) → (outcome : Result NetList VerilogFault) × Module tokens outcome }
{}

/// Of each text in structural Verilog there is a net or a fault.
pub fn some_verilog_net_or_fault()
    ensures { (text : List ℕ) → (outcome : Result NetList VerilogFault) × VerilogNet text outcome }
{}

/// Some binding or fault comes of binding words and feeds to the nets of a net list.
pub fn some_binding_or_fault()
    ensures { (net : NetList) (words : List WordText) (feeds : List FeedText) → (outcome : Result Binding BindFault) × BindingOf net words feeds outcome }
{}

/// Some net with its binding, or some fault, comes of each netlist's text, and of each file, under the words of a signature.
pub fn some_netlist_or_fault()
    ensures text { (signature : SignatureValue) (text : NetlistText) → (outcome : Result BoundNet NetlistFault) × BoundNetOf signature text outcome }
    ensures file { (held : Option Files) (signature : SignatureValue) (file : Word) → (outcome : Result BoundNet Fault) × NetlistIn held signature file outcome }
{}
