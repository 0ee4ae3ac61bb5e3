//! Laws of the definitions. These functions do nothing: their contracts are proved of the definitions alone.
ghost use Rattle.std.specs.Prelude.{◌≡◌, ℕ, List, Result, Ok};
ghost use Rattle.outcome.specs.Outcome.{Determined};
ghost use Rattle.net_core.specs.NetList.{NetList};
ghost use Rattle.net_aiger.specs.AigerNet.{AigerNet};
ghost use Rattle.net_aiger.specs.Sections.{Text};
ghost use Rattle.net_aiger.specs.Nets.{net_made};
ghost use Rattle.net_aiger.specs.Reading.{Reading};
ghost use Rattle.net_aiger.specs.declared.fault.AigerFault.{AigerFault};
ghost use Rattle.net_aiger.specs.Values.{HasConjunctions, HasNextValues, HasOutputValues};

/// At most one net or fault comes of a text.
pub fn one_net_or_fault()
    ensures { (text : List ℕ) → Determined (AigerNet text) }
{}

/// The sections of each text, given as its lines, say exactly one reading or fault.
pub fn each_text_has_one_reading_or_fault()
    ensures some { (text : List (List ℕ)) → (outcome : Result Reading AigerFault) × Text text outcome }
    ensures only { (text : List (List ℕ)) → Determined (Text text) }
{}

/// In each list of bits that is consistent with the net list of what was read, the net of an AND has the conjunction of the
/// values of its two literals.
pub fn ands_are_conjunctions()
    ensures { (reading : Reading) (net : NetList) → net_made reading ≡ Ok net → HasConjunctions reading net }
{}

/// In each list of bits that is consistent with the net list of a text, given as its lines, each output has the value of its literal, and what
/// a latch reads has the value of its literal `next`.
pub fn ports_have_the_values_of_their_literals()
    ensures { (text : List (List ℕ)) (reading : Reading) (net : NetList) → Text text (Ok reading) → net_made reading ≡ Ok net
        → HasOutputValues reading net × HasNextValues reading net }
{}
