//! Laws of the mixes of words and bits. These functions do nothing: their contracts are proved of the definitions alone.
ghost use Rattle.std.specs.Prelude.{◌≡◌, ◌<◌, ◌^◌, ◌↔◌, ℕ};
ghost use Rattle.poly_mixed.specs.Polynomial.{Point, IsPoint};
ghost use Rattle.circuit_model.specs.Circuit.{Circuit};
ghost use Rattle.circuit_model.specs.WellFormed.{IsWellFormed, IsCombinational};
ghost use Rattle.circuit_model.specs.Out.{IsOut};
ghost use Rattle.stage_model.specs.Mix.{IsMix, MixOfAllWords};
ghost use Rattle.stage_model.specs.InputPoint.{input_of};
ghost use Rattle.stage_model.specs.Cut.{LastCutOf};

/// A mix relates each point to exactly one element, which is one of the field.
pub fn one_element_a_mix()
    ensures some { (circuit : Circuit) (w : ℕ) (p : Point) → IsWellFormed circuit → IsPoint circuit.k p → (e : ℕ) × IsMix circuit w p e × (e < 2 ^ circuit.k) }
    ensures only { (circuit : Circuit) (w : ℕ) (p : Point) (e other : ℕ) → IsWellFormed circuit → IsMix circuit w p e → IsMix circuit w p other → e ≡ other }
{}

/// The mix of no words is the last cut.
pub fn mix_of_no_words()
    ensures { (circuit : Circuit) (p : Point) (e : ℕ) → IsCombinational circuit → IsPoint circuit.k p → IsMix circuit 0 p e ↔ LastCutOf circuit p e }
{}

/// The mix of all words is the output at the point's elements.
pub fn mix_of_all_words()
    ensures { (circuit : Circuit) (p : Point) (e : ℕ) → IsWellFormed circuit → IsPoint circuit.k p → MixOfAllWords circuit p e ↔ IsOut circuit (input_of circuit p) e }
{}
