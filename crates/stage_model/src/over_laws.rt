//! Laws of the first stage over a bound. These functions do nothing: their contracts are proved of the definitions alone.
ghost use Rattle.std.specs.Prelude.{◌↔◌, ℕ};
ghost use Rattle.poly_mixed.specs.declared.stage.Stage.{Stage};
ghost use Rattle.circuit_model.specs.Circuit.{Circuit};
ghost use Rattle.circuit_model.specs.WellFormed.{IsWellFormed};
ghost use Rattle.circuit_model.specs.BasedNet.{BasedNet, based_circuit, IsBased};
ghost use Rattle.stage_model.specs.Cut.{IsCut, OfSoundNets};
ghost use Rattle.stage_model.specs.Listing.{Earlier, Later, cut_listing, AreAllWithin, HasOneOver, HaveSameOver, OverIsNotAllWithin};
ghost use Rattle.stage_model.specs.WordListing.{word_listing};
ghost use Rattle.stage_model.specs.CircuitListing.{circuit_cuts, circuit_stages, AreCutsWithin, AreStagesWithin, AreWordsWithin, IsFirstOfCuts, IsFirstOfStages, IsFirstOfWords, based_cuts};

/// Of the first cuts of a sound net one at most is the first over a bound, with one size, and then not all are within it.
pub fn one_first_cut_over()
    ensures only { OfSoundNets (λ k mul net variables output. (count bound : ℕ) → HasOneOver k mul (cut_listing count (IsCut net variables output)) bound) }
    ensures not_all { OfSoundNets (λ k mul net variables output. (count bound : ℕ) → OverIsNotAllWithin k mul (cut_listing count (IsCut net variables output)) bound) }
{}

/// Of the stages of words one at most is the first over a bound, with one size, and then not all are within it.
pub fn one_first_word_stage_over()
    ensures only { (circuit : Circuit) (bound : ℕ) → IsWellFormed circuit → HasOneOver circuit.k circuit.product (word_listing circuit) bound }
    ensures not_all { (circuit : Circuit) (bound : ℕ) → IsWellFormed circuit → OverIsNotAllWithin circuit.k circuit.product (word_listing circuit) bound }
{}

/// Of all stages of a circuit one at most is the first over a bound, with one size, and then not all are within it.
pub fn one_first_over()
    ensures only { (circuit : Circuit) (bound : ℕ) → IsWellFormed circuit → HasOneOver circuit.k circuit.product (circuit_stages circuit) bound }
    ensures not_all { (circuit : Circuit) (bound : ℕ) → IsWellFormed circuit → OverIsNotAllWithin circuit.k circuit.product (circuit_stages circuit) bound }
{}

/// A cut is the first of all stages over a bound exactly where it is the first of the cuts; a stage of a word exactly where
/// all cuts are within the bound and it is the first of the words' stages; and all are within it where both kinds are.
pub fn first_of_cuts_and_words()
    ensures cut { (circuit : Circuit) (bound n : ℕ) (name : Stage) → IsFirstOfStages circuit bound (Earlier name) n ↔ IsFirstOfCuts circuit bound name n }
    ensures word { (circuit : Circuit) (bound n : ℕ) (name : Stage) → IsFirstOfStages circuit bound (Later name) n ↔ (AreCutsWithin circuit bound × IsFirstOfWords circuit bound name n) }
    ensures within { (circuit : Circuit) (bound : ℕ) → AreStagesWithin circuit bound ↔ (AreCutsWithin circuit bound × AreWordsWithin circuit bound) }
{}

/// The cuts of a net with bound words are over a bound exactly where those of its circuit are.
pub fn bound_cuts_over()
    ensures over { (based : BasedNet) (bound : ℕ) → IsBased based → HaveSameOver based.k based.product (based_cuts based) (circuit_cuts (based_circuit based)) bound }
    ensures within { (based : BasedNet) (bound : ℕ) → IsBased based → AreAllWithin based.k based.product (based_cuts based) bound ↔ AreCutsWithin (based_circuit based) bound }
{}
