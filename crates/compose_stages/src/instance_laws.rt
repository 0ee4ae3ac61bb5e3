//! Laws of the stages of instances. These functions do nothing: their contracts are proved of the definitions alone.
ghost use Rattle.std.specs.Prelude.{◌+◌, ℕ, List};
ghost use Rattle.poly_mixed.specs.Polynomial.{IsPoint, Point, Terms};
ghost use Rattle.poly_mixed.specs.declared.stage.Stage.{Stage};
ghost use Rattle.compose_model.specs.Hierarchy.{Hierarchy};
ghost use Rattle.compose_model.specs.Wiring.{feeding_graph, AreAllFeeds, HaveBlocks, IsWithoutCycle};
ghost use Rattle.compose_model.specs.declared.feeder.Feeder.{Feeder};
ghost use Rattle.compose_model.specs.WiredTop.{IsBuilt, IsBuiltWithoutCycle, WiredTop, IsFed};
ghost use Rattle.compose_model.specs.Given.{IsGivenOver};
ghost use Rattle.compose_polys.specs.LevelOrder.{AreLevels, IsLevelOrder};
ghost use Rattle.compose_polys.specs.Walk.{AllGet, Walk};
ghost use Rattle.compose_stages.specs.InstanceStages.{IsBlockPoly, HasBlockPoly, HasInstance};
ghost use Rattle.compose_stages.specs.TopStages.{AreTopInstancesWithin, HasInstanceValue, HavePolynomials, HaveSizes, IsBlockPolyAt, IsBuiltByLevel, IsByLevel, IsFirstInstanceStage, IsFirstOfWalk, IsLastSum, top_instance_stages};
ghost use Rattle.circuit_model.specs.AtMostOne.{AtMostOne};
ghost use Rattle.stage_model.specs.Listing.{HasOneOver, HaveValues, OverIsNotAllWithin};

/// Where instances can be taken by level, none feed each other in a cycle; and where none do, they have levels.
pub fn cycles_have_no_levels()
    ensures free { (h : Hierarchy) (rows : List (List Feeder)) (order : List ℕ) → AreAllFeeds h rows → IsLevelOrder (feeding_graph rows) order → IsWithoutCycle rows }
    ensures levels { (h : Hierarchy) (rows : List (List Feeder)) → AreAllFeeds h rows → IsWithoutCycle rows → (levels : List ℕ) × AreLevels (feeding_graph rows) levels }
{}

/// The block of an instance has exactly one polynomial in words.
pub fn instance_blocks_have_one_polynomial()
    ensures some { (k : ℕ) (mul : ℕ → ℕ → ℕ) (h : Hierarchy) (i : ℕ) → IsGivenOver k mul h → HaveBlocks k mul h → HasInstance h i → HasBlockPoly k mul h (i + 1) }
    ensures only { (k : ℕ) (mul : ℕ → ℕ → ℕ) (h : Hierarchy) (n : ℕ) → IsGivenOver k mul h → AtMostOne (IsBlockPoly k mul h n) }
{}

/// A listed stage of an instance relates each point to exactly one element, which is one of the field, where the instances can be taken
/// by level.
pub fn stages_of_instances_have_values()
    ensures some { (top : WiredTop) (order : List ℕ) → IsBuilt top → IsByLevel top order → HaveValues top.k (top_instance_stages top) }
    ensures only { (top : WiredTop) (name : Stage) (p : Point) → IsBuiltWithoutCycle top → IsPoint top.k p → AtMostOne ((top_instance_stages top).stage_of name p) }
{}

/// Where the instances can be taken by level, each listed stage of an instance has a polynomial, and so a size.
pub fn stages_of_instances_have_sizes()
    ensures polynomial { (top : WiredTop) (order : List ℕ) → IsBuilt top → IsByLevel top order → HavePolynomials top.k top.product (top_instance_stages top) }
    ensures size { (top : WiredTop) (order : List ℕ) → IsBuilt top → IsByLevel top order → HaveSizes top.k top.product (top_instance_stages top) }
{}

/// Let each instance have the polynomial in words of its block and a row of what feeds it. Taken by level, an instance is refused at
/// the first stage over the bound of the stages of all instances, and where all have got their polynomials, no stage is over it.
pub fn instances_by_level_have_these_stages()
    ensures over { (top : WiredTop) (walk : Walk) (name : Stage) (n : ℕ) → IsBuiltByLevel top walk → IsFirstOfWalk top walk name n → IsFirstInstanceStage top walk.bound name n }
    ensures within { (top : WiredTop) (walk : Walk) (polys : List Terms) → IsBuiltByLevel top walk → AllGet top walk polys → AreTopInstancesWithin top walk.bound }
{}

/// Of the stages of instances that do not feed each other in a cycle one at most is the first over a bound, with one size, and then not all are
/// within it.
pub fn one_first_of_instances()
    ensures only { (top : WiredTop) (bound : ℕ) → IsBuiltWithoutCycle top → HasOneOver top.k top.product (top_instance_stages top) bound }
    ensures not_all { (top : WiredTop) (bound : ℕ) → IsBuiltWithoutCycle top → OverIsNotAllWithin top.k top.product (top_instance_stages top) bound }
{}

/// The sum of all terms of an instance's block is the instance's value.
pub fn last_sums_are_the_values()
    ensures { (top : WiredTop) (i v : ℕ) (block : Terms) (p : Point) → IsFed top → IsBlockPolyAt top i block → HasInstanceValue top p i v → IsLastSum top i block p v }
{}
