//! The order of points by level and number.
ghost use Rattle.std.specs.Prelude.{◌≡◌, ◌<◌, ◌^◌, All, IfErr, IfOk, length, map};
ghost use Rattle.graph_core.specs.Fault.{IsCycleFault};
ghost use Rattle.compose_polys.specs.LevelOrder.{first_numbers, IsLevelOrder, IsOrderBy};
ghost use Rattle.compose_polys.specs.private.Keys.{AreKeys};

use crate::levels::levels;
use graph_core::{CycleFault, Graph, arrange};
use std::alloc::{AllocError, Global};

// The numbers of all points.
fn numbers(alloc: Global, count: u32) -> Result<Vec<u32>, AllocError>
    ensures { IfOk result (λ v. v.items ≡ first_numbers count) }
{
    let mut list = Vec::new(alloc);
    for number in 0..count {
        list.push(number)?;
    }
    Ok(list)
}

// The level and the number of each point.
fn keys(alloc: Global, levels: &[u32]) -> Result<Vec<(u32, u32)>, AllocError>
    requires { length levels.now < 2 ^ 32 }
    ensures { IfOk result (λ v. AreKeys levels.now v.items) }
{
    let mut keys = Vec::new(alloc);
    for number in 0..levels.len() {
        keys.push((levels[number], number as u32))?;
    }
    Ok(keys)
}

// The second numbers.
fn seconds(alloc: Global, keys: &[(u32, u32)]) -> Result<Vec<u32>, AllocError>
    ensures { IfOk result (λ v. v.items ≡ map (λ k. k.1) keys.now) }
{
    keys.iter().map(|key| key.1).collect(alloc)
}

// The points by rising level and then by rising number.
fn order_by(alloc: Global, levels: &[u32]) -> Result<Vec<u32>, AllocError>
    requires { length levels.now < 2 ^ 32 }
    ensures { IfOk result (λ v. IsOrderBy levels.now v.items) }
{
    let mut keys = keys(alloc, levels)?;
    keys.sort_unstable();
    seconds(alloc, &keys)
}

/// All points of a graph by rising level and then by rising number. A point has level 1 if it leads nowhere, and else one
/// more than the greatest level of those to which it leads. Where points lead to each other in a cycle, it is the one that a walk
/// finds which begins at the first point that leads into a cycle and goes from each point to the first such one, until it
/// meets a point again.
pub fn level_order(alloc: Global, graph: &Graph) -> Result<Vec<u32>, CycleFault>
    requires { length graph.now < 2 ^ 32 }
    ensures order { IfOk result (λ v. IsLevelOrder graph.now v.items) }
    ensures cycle { IfErr result (λ fault. IsCycleFault graph.now (first_numbers (length graph.now)) fault) }
{
    let roots = numbers(alloc, graph.points() as u32)?;
    let order = arrange(alloc, graph, &roots)?;
    let levels = levels(alloc, graph, &roots, &order)?;
    let by_level = order_by(alloc, &levels)?;
    Ok(by_level)
}
