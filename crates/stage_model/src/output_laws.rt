//! Laws of inputs, and of the output in bits and in words. These functions do nothing: their contracts are proved of the definitions alone.
ghost use Rattle.std.specs.Prelude.{◌↔◌, List, ℕ};
ghost use Rattle.poly_mixed.specs.Polynomial.{Terms, Point};
ghost use Rattle.circuit_model.specs.Circuit.{Circuit, IsInput};
ghost use Rattle.circuit_model.specs.WellFormed.{IsWellFormed, IsCombinational};
ghost use Rattle.circuit_model.specs.BasedNet.{BasedNet, based_circuit, IsBased};
ghost use Rattle.stage_model.specs.Stage.{IsOfStage};
ghost use Rattle.stage_model.specs.OutputInBits.{IsOutputInBits};
ghost use Rattle.stage_model.specs.OutputInWords.{IsOutputInWords};
ghost use Rattle.stage_model.specs.Cut.{IsOfLastBasedCut, IsOfLastCut};
ghost use Rattle.stage_model.specs.InputPoint.{IsPointOf};
ghost use Rattle.stage_model.specs.Mix.{MixOfAllWords};

/// Each input is that of a point, whose bits at the words' nets are those of the input's elements.
pub fn each_input_has_a_point()
    ensures { (circuit : Circuit) (xs : List ℕ) → IsWellFormed circuit → IsInput circuit xs → (p : Point) × IsPointOf circuit xs p }
{}

/// A polynomial is that of the last cut exactly if it is the output in the bits of the words alone; and there is one.
pub fn last_cut_is_output()
    ensures circuit { (circuit : Circuit) (ts : Terms) → IsCombinational circuit → IsOfLastCut circuit ts ↔ IsOutputInBits circuit ts }
    ensures bound { (based : BasedNet) (ts : Terms) → IsCombinational (based_circuit based) → IsBased based → IsOfLastBasedCut based ts ↔ IsOutputInBits (based_circuit based) ts }
    ensures some { (circuit : Circuit) → IsCombinational circuit → (ts : Terms) × IsOutputInBits circuit ts }
{}

/// A polynomial is that of the mix of all words exactly if it is the output in words; and there is one.
pub fn mix_of_all_words_is_output()
    ensures output { (circuit : Circuit) (ts : Terms) → IsWellFormed circuit → IsOfStage circuit.k circuit.product (MixOfAllWords circuit) ts ↔ IsOutputInWords circuit ts }
    ensures some { (circuit : Circuit) → IsWellFormed circuit → (ts : Terms) × IsOutputInWords circuit ts }
{}
