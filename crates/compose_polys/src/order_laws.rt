//! Laws of orders by level. These functions do nothing: their contracts are proved of the definitions alone.
ghost use Rattle.std.specs.Prelude.{ℕ, List, length};
ghost use Rattle.graph_core.specs.Arranged.{IsArranged};
ghost use Rattle.graph_core.specs.Graph.{Graph, IsInside};
ghost use Rattle.compose_polys.specs.LevelOrder.{first_numbers, IsLevelOrder};

/// In the order by level each point stands once, after those to which it leads.
pub fn level_orders_are_arranged()
    ensures { (graph : Graph) (order : List ℕ) → IsInside graph → IsLevelOrder graph order → IsArranged graph (first_numbers (length graph)) order }
{}
