//! Laws of the stages of a specification. These functions do nothing: their contracts are proved of the definitions alone.
ghost use Rattle.poly_mixed.specs.Polynomial.{Point};
ghost use Rattle.poly_mixed.specs.declared.stage.Stage.{Stage};
ghost use Rattle.circuit_model.specs.Circuit.{Circuit};
ghost use Rattle.circuit_model.specs.WellFormed.{IsWellFormed};
ghost use Rattle.circuit_model.specs.AtMostOne.{AtMostOne};
ghost use Rattle.spec_expand.specs.SpecListing.{spec_listing};
ghost use Rattle.spec_expand.specs.Specification.{SpecTerms};
ghost use Rattle.stage_model.specs.Listing.{HaveValues};

/// A listed stage of a specification relates each point to exactly one element, which is one of the field.
pub fn stages_have_values()
    ensures some { (circuit : Circuit) (spec : SpecTerms) → IsWellFormed circuit → HaveValues circuit.k (spec_listing circuit spec) }
    ensures only { (circuit : Circuit) (spec : SpecTerms) (name : Stage) (p : Point) → IsWellFormed circuit → AtMostOne ((spec_listing circuit spec).stage_of name p) }
{}
