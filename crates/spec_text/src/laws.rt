//! Laws of the text of a specification. These functions do nothing: their contracts are proved of the definitions alone.
ghost use Rattle.std.specs.Prelude.{ℕ, List, Result};
ghost use Rattle.outcome.specs.Outcome.{Determined};
ghost use Rattle.gf_field.specs.Ring.{IsRing};
ghost use Rattle.poly_mixed.specs.Labels.{Labelling};
ghost use Rattle.spec_expand.specs.Specification.{SpecTerms};
ghost use Rattle.spec_text.specs.Fault.{ComesOfText};
ghost use Rattle.spec_text.specs.declared.fault.SpecFault.{SpecFault};

/// A text is one specification or has one fault.
pub fn one_spec_or_fault()
    ensures { (l : Labelling) (k : ℕ) (mul : ℕ → ℕ → ℕ) (bytes : List ℕ) → Determined (ComesOfText l k mul bytes) }
{}

/// Each text is a specification or has a fault.
pub fn some_spec_or_fault()
    ensures { (l : Labelling) (k : ℕ) (mul : ℕ → ℕ → ℕ) (bytes : List ℕ) → IsRing k mul → (result : Result SpecTerms SpecFault) × ComesOfText l k mul bytes result }
{}
