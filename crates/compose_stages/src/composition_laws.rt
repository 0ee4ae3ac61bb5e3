//! Laws of all stages of a composition. These functions do nothing: their contracts are proved of the definitions alone.
ghost use Rattle.std.specs.Prelude.{◌↔◌, ℕ};
ghost use Rattle.poly_mixed.specs.declared.stage.Stage.{Stage};
ghost use Rattle.stage_model.specs.Listing.{Earlier, Later, HasOneOver, OverIsNotAllWithin};
ghost use Rattle.compose_stages.specs.BlockStages.{BlockStage};
ghost use Rattle.compose_stages.specs.TopStages.{AreTopBlocksWithin, AreTopInstancesWithin, IsFirstBlockStage, IsFirstInstanceStage, IsFirstStage, IsTopWithin, top_stages};
ghost use Rattle.compose_model.specs.WiredTop.{IsBuiltWithoutCycle, WiredTop};

/// A stage of a block is the first over a bound of all stages of a composition exactly where it is the first of the used blocks; a
/// stage of an instance exactly where no stage of a used block is over the bound and it is the first of the instances; and all are
/// within the bound where both kinds are.
pub fn first_of_blocks_and_instances()
    ensures block { (top : WiredTop) (bound n : ℕ) (name : BlockStage) → IsFirstStage top bound (Earlier name) n ↔ IsFirstBlockStage top bound name n }
    ensures instance { (top : WiredTop) (bound n : ℕ) (name : Stage) → IsFirstStage top bound (Later name) n ↔ (AreTopBlocksWithin top bound × IsFirstInstanceStage top bound name n) }
    ensures within { (top : WiredTop) (bound : ℕ) → IsTopWithin top bound ↔ (AreTopBlocksWithin top bound × AreTopInstancesWithin top bound) }
{}

/// Where no instances feed each other in a cycle, of all stages of a composition one at most is the first over a bound, with one size, and then not all are within it.
pub fn one_first_of_composition()
    ensures only { (top : WiredTop) (bound : ℕ) → IsBuiltWithoutCycle top → HasOneOver top.k top.product (top_stages top) bound }
    ensures not_all { (top : WiredTop) (bound : ℕ) → IsBuiltWithoutCycle top → OverIsNotAllWithin top.k top.product (top_stages top) bound }
{}
