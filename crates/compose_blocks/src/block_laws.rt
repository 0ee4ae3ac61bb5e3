//! Laws of blocks. These functions do nothing: their contracts are proved of the definitions alone.
ghost use Rattle.std.specs.Prelude.{ℕ, List};
ghost use Rattle.net_words.specs.Binding.{BoundNet};
ghost use Rattle.net_words.specs.declared.word.WordText.{WordText};
ghost use Rattle.compose_model.specs.Hierarchy.{Hierarchy};
ghost use Rattle.compose_model.specs.Values.{IsBlockOf, IsCircuitOf};
ghost use Rattle.net_blif.specs.declared.item.Item.{Item};
ghost use Rattle.compose_blocks.specs.Block.{IsBlockCircuit, GivesCircuits};
ghost use Rattle.circuit_model.specs.AtMostOne.{AtMostOne};

/// What is made of a model with words and bases is its circuit, and a model with words and bases has one at most; so has an
/// instance's block.
pub fn blocks_have_one_circuit()
    ensures made { (h : Hierarchy) (model : ℕ) (words : List WordText) (netlist : BoundNet) → IsBlockCircuit h.design model words netlist → GivesCircuits h model words netlist }
    ensures one { (k : ℕ) (mul : ℕ → ℕ → ℕ) (h : Hierarchy) (model : ℕ) (words : List WordText) (bases : List (List ℕ)) → AtMostOne (IsCircuitOf k mul h model words bases) }
    ensures block { (k : ℕ) (mul : ℕ → ℕ → ℕ) (h : Hierarchy) (item : Item) → AtMostOne (IsBlockOf k mul h item) }
{}
