//! Laws that say what exists: polynomials, sizes, a first stage over a bound. These functions do nothing: their contracts are
//! proved of the definitions alone.
ghost use Rattle.std.specs.Prelude.{◌≤◌, length, ℕ};
ghost use Rattle.poly_mixed.specs.Polynomial.{Terms, Point};
ghost use Rattle.circuit_model.specs.Circuit.{Circuit};
ghost use Rattle.circuit_model.specs.WellFormed.{IsWellFormed};
ghost use Rattle.circuit_model.specs.FieldLaws.{FieldLaws};
ghost use Rattle.stage_model.specs.Stage.{HasSize, HasPolynomial};
ghost use Rattle.stage_model.specs.First.{IsFunctionOfFirst, HasPolynomialInFirst};
ghost use Rattle.stage_model.specs.WordListing.{word_listing};
ghost use Rattle.stage_model.specs.CircuitListing.{circuit_cuts, circuit_stages, IsStage, StageOf};
ghost use Rattle.stage_model.specs.Listing.{AreWithinOrOver, CircuitStage};
ghost use Rattle.stage_model.specs.Mix.{IsOfMix};

/// Each function of the first words and of the bits of the first ranks has a reduced polynomial, in these alone.
pub fn each_function_has_a_polynomial()
    ensures { (field : FieldLaws) (words ranks : ℕ) (h : Point → ℕ) → words ≤ 8 → IsFunctionOfFirst field.k words ranks h → HasPolynomialInFirst field words ranks h }
{}

/// Each listed stage of a circuit has a polynomial, and so a size.
pub fn each_stage_has_a_polynomial()
    ensures polynomial { (circuit : Circuit) (name : CircuitStage) → IsWellFormed circuit → IsStage circuit name → HasPolynomial circuit.k circuit.product (StageOf circuit name) }
    ensures size { (circuit : Circuit) (name : CircuitStage) → IsWellFormed circuit → IsStage circuit name → (n : ℕ) × HasSize circuit.k circuit.product (StageOf circuit name) n }
{}

/// The output as a function of the first words and of the bits of the others has a polynomial, also where these are all words.
pub fn each_mix_has_a_polynomial()
    ensures { (circuit : Circuit) (w : ℕ) → IsWellFormed circuit → w ≤ length circuit.words → (ts : Terms) × IsOfMix circuit w ts }
{}

/// All stages are within a bound, or one of them is the first over it: of the cuts, of the words' stages, and of both.
pub fn some_first_over()
    ensures cuts { (circuit : Circuit) (bound : ℕ) → IsWellFormed circuit → AreWithinOrOver circuit.k circuit.product (circuit_cuts circuit) bound }
    ensures words { (circuit : Circuit) (bound : ℕ) → IsWellFormed circuit → AreWithinOrOver circuit.k circuit.product (word_listing circuit) bound }
    ensures both { (circuit : Circuit) (bound : ℕ) → IsWellFormed circuit → AreWithinOrOver circuit.k circuit.product (circuit_stages circuit) bound }
{}
