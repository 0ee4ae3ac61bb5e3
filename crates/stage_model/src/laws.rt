//! Laws of stages. These functions do nothing: their contracts are proved of the definitions alone.
ghost use Rattle.std.specs.Prelude.{◌≡◌, ◌<◌, ◌^◌, ◌↔◌, List, length, ℕ};
ghost use Rattle.poly_mixed.specs.Polynomial.{Terms, Point};
ghost use Rattle.poly_mixed.specs.laws.Uniqueness.{InBits};
ghost use Rattle.circuit_model.specs.Word.{HasElement, word_nets};
ghost use Rattle.circuit_model.specs.Circuit.{Circuit};
ghost use Rattle.circuit_model.specs.WellFormed.{IsWellFormed, IsCombinational};
ghost use Rattle.circuit_model.specs.Out.{IsOut};
ghost use Rattle.circuit_model.specs.AtMostOne.{AtMostOne};
ghost use Rattle.circuit_model.specs.BasedNet.{BasedNet, based_circuit, IsBased};
ghost use Rattle.stage_model.specs.Cut.{IsCut, CutOf, BasedCut, IsOfLastCut, LastCutOf, OfSoundNets};
ghost use Rattle.stage_model.specs.Stage.{IsOfStage, HasSize};
ghost use Rattle.stage_model.specs.First.{InFirstRanks};
ghost use Rattle.stage_model.specs.InputPoint.{IsInputAt};
ghost use Rattle.stage_model.specs.Variables.{net_bits_at};

/// A cut relates each point to exactly one element, which is one of the field.
pub fn one_element_a_cut()
    ensures some { (circuit : Circuit) (t : ℕ) (p : Point) → IsWellFormed circuit → (e : ℕ) × CutOf circuit t p e × (e < 2 ^ circuit.k) }
    ensures only { (circuit : Circuit) (t : ℕ) (p : Point) (e other : ℕ) → IsWellFormed circuit → CutOf circuit t p e → CutOf circuit t p other → e ≡ other }
{}

/// The first cut is the output word's element at the point's bits.
pub fn first_cut()
    ensures { (circuit : Circuit) (p : Point) (e : ℕ) → IsWellFormed circuit → CutOf circuit 0 p e ↔ HasElement (net_bits_at circuit p) circuit.output e }
{}

/// The last cut is the output, at each point that has the bits of an input at the words' nets, whatever its other bits.
pub fn last_cut()
    ensures { (circuit : Circuit) (xs : List ℕ) (p : Point) (e : ℕ) → IsCombinational circuit → IsInputAt circuit xs p → LastCutOf circuit p e ↔ IsOut circuit xs e }
{}

/// A cut of a sound net has one polynomial at most.
pub fn one_polynomial_a_cut()
    ensures { OfSoundNets (λ k mul net variables output. (t : ℕ) → AtMostOne (IsOfStage k mul (IsCut net variables output t))) }
{}

/// A cut of a sound net has one size at most.
pub fn one_size_a_cut()
    ensures { OfSoundNets (λ k mul net variables output. (t : ℕ) → AtMostOne (HasSize k mul (IsCut net variables output t))) }
{}

/// No word stands in the polynomial of a cut of a sound net.
pub fn cuts_in_bits()
    ensures { OfSoundNets (λ k mul net variables output. (t : ℕ) (ts : Terms) → IsOfStage k mul (IsCut net variables output t) ts → InBits ts) }
{}

/// In the polynomial of the last cut stand bits of words alone: no gate's output and no input that no word names.
pub fn last_cut_in_words()
    ensures { (circuit : Circuit) (ts : Terms) → IsCombinational circuit → IsOfLastCut circuit ts → InFirstRanks (length (word_nets circuit.words)) ts }
{}

/// The cuts of a net with bound words are those of its circuit.
pub fn cuts_of_bound()
    ensures { (based : BasedNet) (t : ℕ) (p : Point) (e : ℕ) → IsBased based → BasedCut based t p e ↔ CutOf (based_circuit based) t p e }
{}
