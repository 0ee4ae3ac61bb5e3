//! Laws of what there is: a first stage over a bound. These functions do nothing: their contracts are proved of the definitions alone.
ghost use Rattle.std.specs.Prelude.{ℕ, List};
ghost use Rattle.compose_model.specs.Hierarchy.{Hierarchy};
ghost use Rattle.compose_model.specs.Wiring.{HaveBlocks};
ghost use Rattle.compose_model.specs.WiredTop.{IsBuilt, WiredTop};
ghost use Rattle.compose_model.specs.Given.{IsGivenOver};
ghost use Rattle.stage_model.specs.Listing.{AreWithinOrOver};
ghost use Rattle.compose_stages.specs.TopStages.{IsByLevel, top_instance_stages, top_stages};
ghost use Rattle.compose_stages.specs.BlockStages.{block_stages};

/// All stages are within a bound, or one of them is the first over it: of instances that can be taken by level, of used blocks, and of
/// both.
pub fn some_first_of_composition()
    ensures instances { (top : WiredTop) (order : List ℕ) (bound : ℕ) → IsBuilt top → IsByLevel top order → AreWithinOrOver top.k top.product (top_instance_stages top) bound }
    ensures blocks { (k : ℕ) (mul : ℕ → ℕ → ℕ) (h : Hierarchy) (bound : ℕ) → IsGivenOver k mul h → HaveBlocks k mul h → AreWithinOrOver k mul (block_stages k mul h) bound }
    ensures both { (top : WiredTop) (order : List ℕ) (bound : ℕ) → IsBuilt top → IsByLevel top order → AreWithinOrOver top.k top.product (top_stages top) bound }
{}
