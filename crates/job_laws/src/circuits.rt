//! Laws of what is read after a signature. These functions do nothing: their contracts are proved of the definitions alone.
ghost use Rattle.std.specs.Prelude.{ℕ, Option};
ghost use Rattle.job_io.specs.Shelf.{Files};
ghost use Rattle.net_words.specs.Binding.{BoundNet};
ghost use Rattle.net_signature.specs.Signature.{SignatureValue};
ghost use Rattle.job_words.specs.Operands.{Word};
ghost use Rattle.job_input.specs.CircuitOf.{CircuitIn, CircuitOf, CircuitOfText, UnrolledIn};
ghost use Rattle.job_input.specs.HierarchyIn.{HierarchyIn};
ghost use Rattle.job_input.specs.NetlistOf.{NetlistText};
ghost use Rattle.job_input.specs.TableIn.{TableIn};
ghost use Rattle.job_laws.specs.HasOutcome.{HasOutcome};
ghost use Rattle.job_laws.specs.Specified.{HaveSpecifications};

/// The cycles of each netlist make a circuit or too many nets or gates; so each netlist's text and file has a circuit or a fault.
pub fn some_circuit_or_fault()
    ensures cycles { (netlist : BoundNet) (cycles : ℕ) → HasOutcome (CircuitOf netlist cycles) }
    ensures unrolled { (file : Word) (netlist : BoundNet) (cycles : ℕ) → HasOutcome (UnrolledIn file netlist cycles) }
    ensures text { (signature : SignatureValue) (text : NetlistText) (cycles : ℕ) → HasOutcome (CircuitOfText signature text cycles) }
    ensures file { (held : Option Files) (signature : SignatureValue) (file : Word) (cycles : ℕ) → HasOutcome (CircuitIn held signature file cycles) }
{}

/// Each file has a hierarchy to whose first model the words and feeds bind, or a fault.
pub fn some_hierarchy_or_fault()
    ensures { (held : Option Files) (signature : SignatureValue) (file : Word) → HasOutcome (HierarchyIn held signature file) }
{}

/// Each file has a specification or a fault.
pub fn some_specification_or_fault()
    ensures { HaveSpecifications }
{}

/// Each file has a table or a fault.
pub fn some_table_file_or_fault()
    ensures { (held : Option Files) (k n : ℕ) (file : Word) → HasOutcome (TableIn held k n file) }
{}
