//! Laws of settings, circuits and specifications. These functions do nothing: their contracts are proved of the definitions alone.
ghost use Rattle.std.specs.Prelude.{List, ℕ, Option, Ok};
ghost use Rattle.outcome.specs.Outcome.{Determined, Within};
ghost use Rattle.job_io.specs.Shelf.{Files};
ghost use Rattle.net_words.specs.Binding.{BoundNet};
ghost use Rattle.net_signature.specs.Signature.{SignatureValue};
ghost use Rattle.net_signature.specs.WordNames.{HaveNames};
ghost use Rattle.poly_mixed.specs.Labels.{Labelling};
ghost use Rattle.job_words.specs.OneLine.{FaultsKeepToTheirLine};
ghost use Rattle.job_words.specs.Operands.{Word};
ghost use Rattle.job_words.specs.declared.fault.Fault.TheVariants.{File};
ghost use Rattle.job_input.specs.CircuitOf.{CircuitOf, UnrolledIn};
ghost use Rattle.job_input.specs.File.{Read};
ghost use Rattle.job_input.specs.NetlistOf.{BoundNetOf, NetlistIn, NetlistText};
ghost use Rattle.job_input.specs.SettingOf.{SettingOf};
ghost use Rattle.job_input.specs.SettingSound.{IsSoundSetting};
ghost use Rattle.job_input.specs.SettingValue.{SettingValue};
ghost use Rattle.job_input.specs.SignedIn.{SecondIn, SignedIn};
ghost use Rattle.job_input.specs.SpecificationIn.{SpecificationIn, SpecificationOf};
ghost use Rattle.job_input.specs.TableIn.{TableIn, TableOf};

/// At most one setting or fault comes of a signature's text.
pub fn one_setting_or_fault()
    ensures { (text : List ℕ) → Determined (SettingOf text) }
{}

/// The field of a setting is a field, its words and feeds can be bound, and each word has a basis of the field.
pub fn each_setting_is_sound()
    ensures { (text : List ℕ) (setting : SettingValue) → SettingOf text (Ok setting) → IsSoundSetting setting }
{}

/// At most one net with its binding, or one fault, comes of the text of a netlist under the words of a signature.
pub fn one_netlist_or_fault()
    ensures { (signature : SignatureValue) (text : NetlistText) → Determined (BoundNetOf signature text) }
{}

/// At most one circuit of all cycles, or one fault, comes of a net with its binding.
pub fn one_circuit_or_fault()
    ensures { (netlist : BoundNet) (cycles : ℕ) → Determined (CircuitOf netlist cycles) }
{}

/// At most one specification, or one fault, comes of the text of a specification over the words of some labels.
pub fn one_specification_or_fault()
    ensures { (labels : Labelling) (k : ℕ) (product : ℕ → ℕ → ℕ) (text : List ℕ) → Determined (SpecificationOf labels k product text) }
{}

/// At most one table, or one fault, comes of the text of a table.
pub fn one_table_file_or_fault()
    ensures { (k n : ℕ) (text : List ℕ) → Determined (TableOf k n text) }
{}

/// What a fault of a job's files repeats of words and files has no line feed, where the file's name has none: a signature's
/// fault, that of a second signature, a netlist's under words that have names, that of unrolling it, a specification's, a
/// table's, and that of a file alone.
pub fn faults_keep_to_their_line()
    ensures signature { (held : Option Files) (name : Word) → FaultsKeepToTheirLine name (SignedIn held name) }
    ensures second { (held : Option Files) (name : Word) → FaultsKeepToTheirLine name (SecondIn held name) }
    ensures netlist { (held : Option Files) (signature : SignatureValue) (name : Word) → HaveNames signature.words → FaultsKeepToTheirLine name (NetlistIn held signature name) }
    ensures unrolled { (name : Word) (netlist : BoundNet) (cycles : ℕ) → FaultsKeepToTheirLine name (UnrolledIn name netlist cycles) }
    ensures specification { (held : Option Files) (labels : Labelling) (k : ℕ) (product : ℕ → ℕ → ℕ) (name : Word) → FaultsKeepToTheirLine name (SpecificationIn held labels k product name) }
    ensures table { (held : Option Files) (k n : ℕ) (name : Word) → FaultsKeepToTheirLine name (TableIn held k n name) }
    ensures file { (held : Option Files) (name : Word) → FaultsKeepToTheirLine name (Within File (Read held name)) }
{}
