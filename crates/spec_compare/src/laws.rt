//! Laws of comparisons. These functions do nothing: their contracts are proved of the definitions alone.
ghost use Rattle.std.specs.Prelude.{◌≡◌, ◌↔◌, List, ℕ};
ghost use Rattle.poly_mixed.specs.Polynomial.{Terms};
ghost use Rattle.circuit_model.specs.Alike.{AreAlike};
ghost use Rattle.circuit_model.specs.Circuit.{Circuit, IsInput};
ghost use Rattle.circuit_model.specs.WellFormed.{IsWellFormed};
ghost use Rattle.circuit_model.specs.Out.{IsOut};
ghost use Rattle.stage_model.specs.OutputInBits.{IsOutputInBits};
ghost use Rattle.spec_compare.specs.ValueAt.{IsValueAt, IsInInputBits};
ghost use Rattle.spec_compare.specs.Verdict.{IsVerdict, AreComparable, IsOutputComparison, IsOutputVerdict};
ghost use Rattle.spec_compare.specs.declared.verdict.Verdict.{Verdict};

/// Two polynomials have one verdict at most.
pub fn one_verdict()
    ensures { (circuit : Circuit) (ls rs : Terms) (a b : Verdict) → IsWellFormed circuit → IsVerdict circuit ls rs a → IsVerdict circuit ls rs b → a ≡ b }
{}

/// A polynomial has exactly one value at each input.
pub fn one_value()
    ensures some { (circuit : Circuit) (ts : Terms) (xs : List ℕ) → IsWellFormed circuit → IsInput circuit xs → (e : ℕ) × IsValueAt circuit ts xs e }
    ensures only { (circuit : Circuit) (ts : Terms) (xs : List ℕ) (e other : ℕ) → IsWellFormed circuit → IsValueAt circuit ts xs e → IsValueAt circuit ts xs other → e ≡ other }
{}

/// The polynomial of a circuit's output in bits has the output's element at each input, and no other.
pub fn output_as_value()
    ensures { (circuit : Circuit) (ts : Terms) (xs : List ℕ) (e : ℕ) → IsWellFormed circuit → IsOutputInBits circuit ts → IsValueAt circuit ts xs e ↔ IsOut circuit xs e }
{}

/// The polynomial of a circuit's output stands in the bits of its input, state and fed words, and in those of each circuit
/// over the same words.
pub fn output_in_input_bits()
    ensures own { (circuit : Circuit) (ts : Terms) → IsOutputInBits circuit ts → IsInInputBits circuit ts }
    ensures other { (circuit other : Circuit) (ts : Terms) → IsWellFormed circuit → IsWellFormed other → AreAlike circuit other → IsInInputBits circuit ts → IsInInputBits other ts }
{}

/// The verdict on the polynomials of the outputs of two circuits over the same words is the comparison of the outputs.
pub fn verdict_compares_outputs()
    ensures { (circuit other : Circuit) (verdict : Verdict) → AreComparable circuit other → IsOutputVerdict circuit other verdict → IsOutputComparison circuit other verdict }
{}
