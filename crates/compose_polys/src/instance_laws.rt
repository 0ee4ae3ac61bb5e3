//! Laws of instances. These functions do nothing: their contracts are proved of the definitions alone.
ghost use Rattle.std.specs.Prelude.{ℕ, List};
ghost use Rattle.gf_field.specs.Ring.{IsRing};
ghost use Rattle.poly_mixed.specs.Polynomial.{Point};
ghost use Rattle.poly_mixed.specs.declared.stage.Stage.{Stage};
ghost use Rattle.term_expand.specs.Sums.{SumOfProducts};
ghost use Rattle.compose_polys.specs.InstanceListing.{instance_listing, HaveValuesEverywhere, instance_stage_of};
ghost use Rattle.circuit_model.specs.AtMostOne.{AtMostOne};

/// A listed stage of an instance relates each point to exactly one element, which is one of the field.
pub fn instance_stages_have_values()
    ensures some { (k : ℕ) (mul : ℕ → ℕ → ℕ) (feeds : Point → List ℕ) (i : ℕ) (block : SumOfProducts) → IsRing k mul → HaveValuesEverywhere k (instance_listing mul feeds i block) }
    ensures only { (mul : ℕ → ℕ → ℕ) (feeds : Point → List ℕ) (block : SumOfProducts) (name : Stage) (p : Point) → AtMostOne (instance_stage_of mul feeds block name p) }
{}
