//! Laws of orders and cycles. These functions do nothing: their contracts are proved of the definitions alone.
ghost use Rattle.std.specs.Prelude.{◌≡◌, ◌∷◌, List, ℕ};
ghost use Rattle.lists.specs.Lists.{Has};
ghost use Rattle.graph_core.specs.Arranged.{IsArranged};
ghost use Rattle.graph_core.specs.Graph.{Graph, IsPath, IsCycle};
ghost use Rattle.graph_core.specs.Cycle.{IsGrounded, IsCycleOf};

/// The cycle of a walk is a cycle: each point leads to the next, and the last to the first.
pub fn cycle_of_roots_is_a_cycle()
    ensures { (graph : Graph) (roots cycle : List ℕ) → IsCycleOf graph roots cycle → IsCycle graph cycle }
{}

/// The roots have one such cycle at most.
pub fn cycle_of_roots_is_the_only_one()
    ensures { (graph : Graph) (roots cycle other : List ℕ) → IsCycleOf graph roots cycle → IsCycleOf graph roots other → cycle ≡ other }
{}

/// No grounded point leads into a cycle.
pub fn grounded_leads_to_no_cycle()
    ensures { (graph : Graph) (a b : ℕ) (rest around : List ℕ) → IsGrounded graph a → IsPath graph a rest b → IsCycle graph (b ∷ around) → ⊥ }
{}

/// The points of an order are grounded, so no roots have both an order and a cycle.
pub fn order_has_no_cycle()
    ensures grounded { (graph : Graph) (roots order : List ℕ) (a : ℕ) → IsArranged graph roots order → Has order a → IsGrounded graph a }
    ensures not_both { (graph : Graph) (roots order cycle : List ℕ) → IsArranged graph roots order → IsCycleOf graph roots cycle → ⊥ }
{}
