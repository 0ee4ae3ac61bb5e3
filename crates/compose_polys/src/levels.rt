//! Levels of points.
ghost use Rattle.std.specs.Prelude.{◌≡◌, ◌<◌, ◌≤◌, ◌+◌, ◌^◌, ℕ, length, All, IfOk};
ghost use Rattle.lists.specs.Lists.{Has};
ghost use Rattle.graph_core.specs.Arranged.{IsArranged};
ghost use Rattle.compose_polys.specs.LevelOrder.{level_over as level_of, AreLevels};

use graph_core::Graph;
use std::alloc::{AllocError, Global};

// The level of a point that leads to these.
fn level_over(levels: &[u32], points: &[u32], _most: u32) -> u32
    requires inside { All (λ b. b < length levels.now) points.now }
    requires low { All (λ l. l ≤ _most) levels.now }
    requires most { _most + 1 < 2 ^ 32 }
    ensures level { result ≡ level_of levels.now points.now }
    ensures low { result ≤ _most + 1 }
{
    let mut level = 1;
    for j in 0..points.len() {
        let below = levels[points[j] as usize];
        level = level.max(below + 1);
    }
    level
}

/// The level of each point of a graph, where each stands once in this order, after those to which it leads.
pub(crate) fn levels(
    alloc: Global,
    graph: &Graph,
    roots: &[u32],
    order: &[u32],
) -> Result<Vec<u32>, AllocError>
    requires arranged { IsArranged graph.now roots.now order.now }
    requires all { (a : ℕ) → a < length graph.now → Has order.now a }
    ensures { IfOk result (λ v. AreLevels graph.now v.items) }
{
    // the order is in memory, so its length is below 2^32
    let Ok(_) = u32::try_from(order.len()) else {
        return Err(AllocError);
    };
    let mut levels = vec![in alloc; 0u32; graph.points()]?;
    for m in 0..order.len() {
        let point = order[m];
        levels[point as usize] = level_over(&levels, graph.edges(point), m as u32);
    }
    Ok(levels)
}
