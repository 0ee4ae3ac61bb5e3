//! Laws of the stages of a circuit, its cuts and then those of its words. These functions do nothing: their contracts are
//! proved of the definitions alone.
ghost use Rattle.poly_mixed.specs.Polynomial.{Point, IsPoint};
ghost use Rattle.circuit_model.specs.Circuit.{Circuit};
ghost use Rattle.circuit_model.specs.WellFormed.{IsWellFormed};
ghost use Rattle.circuit_model.specs.AtMostOne.{AtMostOne};
ghost use Rattle.stage_model.specs.Stage.{IsOfStage, HasSize};
ghost use Rattle.stage_model.specs.CircuitListing.{circuit_stages, StageOf};
ghost use Rattle.stage_model.specs.Listing.{CircuitStage, IsOrdered, HaveValues};

/// A listed stage relates each point to exactly one element, which is one of the field.
pub fn one_element_a_stage()
    ensures some { (circuit : Circuit) → IsWellFormed circuit → HaveValues circuit.k (circuit_stages circuit) }
    ensures only { (circuit : Circuit) (name : CircuitStage) (p : Point) → IsWellFormed circuit → IsPoint circuit.k p → AtMostOne (StageOf circuit name p) }
{}

/// A stage has one polynomial at most.
pub fn one_polynomial_a_stage()
    ensures { (circuit : Circuit) (name : CircuitStage) → IsWellFormed circuit → AtMostOne (IsOfStage circuit.k circuit.product (StageOf circuit name)) }
{}

/// A stage has one size at most.
pub fn one_size_a_stage()
    ensures { (circuit : Circuit) (name : CircuitStage) → IsWellFormed circuit → AtMostOne (HasSize circuit.k circuit.product (StageOf circuit name)) }
{}

/// Two listed stages are one, or one of them comes before the other; and never each before the other.
pub fn stages_are_ordered()
    ensures total { (circuit : Circuit) → IsOrdered (circuit_stages circuit) }
    ensures apart { (circuit : Circuit) (name other : CircuitStage) → (circuit_stages circuit).comes_before name other → (circuit_stages circuit).comes_before other name → ⊥ }
{}
