//! Laws of the stages of used blocks. These functions do nothing: their contracts are proved of the definitions alone.
ghost use Rattle.std.specs.Prelude.{◌≡◌, ◌↔◌, ℕ};
ghost use Rattle.stage_model.specs.CircuitListing.{circuit_stages, AreStagesWithin, based_stages};
ghost use Rattle.stage_model.specs.Listing.{AreAllWithin, HasOneOver, HaveSameOver, OverIsNotAllWithin};
ghost use Rattle.compose_model.specs.Hierarchy.{Hierarchy};
ghost use Rattle.compose_model.specs.Given.{IsGivenOver};
ghost use Rattle.compose_stages.specs.BlockStages.{AreBlocksWithin, BlockStage, IsFirstOfBlocks, IsFirstUse, IsUsedBlock, AreUsedWithin, IsFirstOfUsed, block_stages};
ghost use Rattle.circuit_model.specs.AtMostOne.{AtMostOne};
ghost use Rattle.circuit_model.specs.BasedNet.{BasedNet, IsBased, based_circuit};

/// A block is first used at one instance, where no other block is, and has one circuit.
pub fn used_blocks_have_one_circuit()
    ensures place { (h : Hierarchy) (b i j : ℕ) → IsFirstUse h b i → IsFirstUse h b j → i ≡ j }
    ensures number { (h : Hierarchy) (b c i : ℕ) → IsFirstUse h b i → IsFirstUse h c i → b ≡ c }
    ensures circuit { (k : ℕ) (mul : ℕ → ℕ → ℕ) (h : Hierarchy) (b : ℕ) → AtMostOne (IsUsedBlock k mul h b) }
{}

/// A stage is the first over a bound of all used blocks exactly where it is the first of its block, and no stage of a block of earlier
/// first use is over the bound. All are within the bound exactly where those of each used block are.
pub fn first_of_used_blocks()
    ensures made { (k : ℕ) (mul : ℕ → ℕ → ℕ) (h : Hierarchy) (bound n : ℕ) (name : BlockStage) → IsFirstOfUsed k mul h bound name n → IsFirstOfBlocks k mul h bound name n }
    ensures read { (k : ℕ) (mul : ℕ → ℕ → ℕ) (h : Hierarchy) (bound n : ℕ) (name : BlockStage) → IsFirstOfBlocks k mul h bound name n → IsFirstOfUsed k mul h bound name n }
    ensures within { (k : ℕ) (mul : ℕ → ℕ → ℕ) (h : Hierarchy) (bound : ℕ) → AreBlocksWithin k mul h bound ↔ AreUsedWithin k mul h bound }
{}

/// Of the stages of used blocks one at most is the first over a bound, with one size, and then not all are within it.
pub fn one_first_of_blocks()
    ensures only { (k : ℕ) (mul : ℕ → ℕ → ℕ) (h : Hierarchy) (bound : ℕ) → IsGivenOver k mul h → HasOneOver k mul (block_stages k mul h) bound }
    ensures not_all { (k : ℕ) (mul : ℕ → ℕ → ℕ) (h : Hierarchy) (bound : ℕ) → IsGivenOver k mul h → OverIsNotAllWithin k mul (block_stages k mul h) bound }
{}

/// The cuts of a net with bound words and then the stages of the words are over a bound exactly where the stages of its circuit are.
pub fn bound_stages_over()
    ensures over { (based : BasedNet) (bound : ℕ) → IsBased based → HaveSameOver based.k based.product (based_stages based) (circuit_stages (based_circuit based)) bound }
    ensures within { (based : BasedNet) (bound : ℕ) → IsBased based → AreAllWithin based.k based.product (based_stages based) bound ↔ AreStagesWithin (based_circuit based) bound }
{}
