//! Laws of the definitions.
ghost use Rattle.std.specs.Prelude.{ℕ, Bool, List, Ok};
ghost use Rattle.outcome.specs.Outcome.{Determined};
ghost use Rattle.net_core.specs.NetList.{NetList};
ghost use Rattle.net_core.specs.Value.{IsConsistent};
ghost use Rattle.net_verilog.specs.Declarations.{Declarations, Range};
ghost use Rattle.net_verilog.specs.Instances.{ReadsInstance};
ghost use Rattle.net_verilog.specs.Several.{Several};
ghost use Rattle.net_verilog.specs.Tokens.{TokenValue};
ghost use Rattle.net_verilog.specs.Tree.{Tree};
ghost use Rattle.net_verilog.specs.declared.declared.Direction.{Direction};
ghost use Rattle.net_verilog.specs.declared.gate_kind.GateKind.{GateKind};
ghost use Rattle.verilog_reader.specs.Assigned.{HasValueOf, IsAssigned};
ghost use Rattle.verilog_reader.specs.Declares.{ReadsName};
ghost use Rattle.verilog_reader.specs.Modules.{VerilogNet};

/// At most one outcome comes of names of a declaration with commas between them.
pub fn one_declaration_or_fault()
    ensures { (range : Range) (direction : Direction) (state : Declarations × NetList) (tokens : List TokenValue) → Determined (Several (ReadsName range direction) state tokens) }
{}

/// At most one outcome comes of instances with commas between them.
pub fn one_statement_of_instances_or_fault()
    ensures { (declared : Declarations) (kind : GateKind) (net : NetList) (tokens : List TokenValue) → Determined (Several (ReadsInstance declared kind) net tokens) }
{}

/// At most one net or fault comes of a text.
pub fn one_net_or_fault()
    ensures { (text : List ℕ) → Determined (VerilogNet text) }
{}

/// In each list of bits that is consistent with the net of a text, the net of an assigned target has the value of its expression.
pub fn assigned_targets_have_the_values_of_their_expressions()
    ensures { (text : List ℕ) (net : NetList) (name : List ℕ) (tree : Tree) (bits : List Bool) → VerilogNet text (Ok net) → IsAssigned text name tree → IsConsistent net bits → HasValueOf net bits name tree }
{}
