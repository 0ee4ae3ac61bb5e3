//! Laws of the replacement of bits by words, and of the pairs that are recorded. These functions do nothing: their
//! contracts are proved of the definitions alone.
ghost use Rattle.std.specs.Prelude.{◌≡◌, ◌<◌, ◌+◌, ◌*◌, length, ℕ};
ghost use Rattle.poly_mixed.specs.Polynomial.{Terms};
ghost use Rattle.poly_mixed.specs.Cofactor.{LacksBit};
ghost use Rattle.circuit_model.specs.Circuit.{Circuit};
ghost use Rattle.circuit_model.specs.WellFormed.{IsWellFormed};
ghost use Rattle.circuit_model.specs.AtMostOne.{AtMostOne};
ghost use Rattle.stage_model.specs.Variables.{rank_in, variables_of, IsAtPlace, IsInNoWordFrom};
ghost use Rattle.stage_model.specs.CutSteps.{AreCutSteps};
ghost use Rattle.stage_model.specs.WordSteps.{AreWordSteps};
ghost use Rattle.stage_model.specs.WordStage.{IsNextMix, SumOfAll};
ghost use Rattle.stage_model.specs.Mix.{IsOfMix};
ghost use Rattle.stage_model.specs.Cut.{OfSoundNets};

/// Rank `k * w + i` is the net of place i of word w.
pub fn rank_of_place()
    ensures { (circuit : Circuit) (w i n : ℕ) → IsWellFormed circuit → IsAtPlace circuit w i n → rank_in (variables_of circuit) n ≡ circuit.k * w + i }
{}

/// In the polynomial in which word w is replaced stand no bits but those of this word and of later ones.
pub fn mix_in_later_bits()
    ensures { (circuit : Circuit) (w rank : ℕ) (ts : Terms) → IsWellFormed circuit → IsInNoWordFrom circuit w rank → IsOfMix circuit w ts → LacksBit rank ts }
{}

/// The sum of all terms of the polynomial in which a word is replaced is the mix of one word more.
pub fn sum_of_all_terms()
    ensures { (circuit : Circuit) (w : ℕ) (ts : Terms) → IsWellFormed circuit → w < length circuit.words → IsOfMix circuit w ts → IsNextMix circuit w (SumOfAll circuit w ts) }
{}

/// The pairs of the first eliminations in a sound net are the only ones.
pub fn one_list_of_cut_steps()
    ensures { OfSoundNets (λ k mul net variables output. (t : ℕ) → AtMostOne (AreCutSteps k mul net variables output t)) }
{}

/// The pairs of the replacement of all words are the only ones.
pub fn one_list_of_word_steps()
    ensures { (circuit : Circuit) → IsWellFormed circuit → AtMostOne (AreWordSteps circuit) }
{}
