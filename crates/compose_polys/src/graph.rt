//! Which instances feed each other.
ghost use Rattle.std.specs.Prelude.{◌≡◌, ◌<◌, ◌^◌, ◌++◌, ℕ, All, IfErr, IfOk, OnOk, length, map, slice_get, Some};
ghost use Rattle.graph_core.specs.Fault.{IsCycleFault};
ghost use Rattle.compose_polys.specs.LevelOrder.{first_numbers, IsLevelOrder};
ghost use Rattle.compose_model.specs.Wiring.{feeding_graph as graph_of, instances_among};
ghost use Rattle.compose_polys.specs.private.Rows.{instance_of};

use crate::order::level_order;
use compose_model::Feeder;
use graph_core::{CycleFault, Graph};
use std::alloc::{AllocError, Global};

// Adds a feed that is an instance.
fn add_instance(row: &mut Vec<u32>, feed: Feeder) -> Result<(), AllocError>
    ensures { OnOk result (row.new.items ≡ row.old.items ++ instance_of feed) }
{
    match feed {
        Feeder::InputWord(_) => {}
        Feeder::OutputOf(instance) => row.push(instance)?,
    }
    Ok(())
}

// The feed at a place.
fn feed_at(feeds: &[Feeder], j: usize) -> Feeder
    requires { j < length feeds.now }
    ensures { slice_get feeds.now j ≡ Some result }
{
    feeds[j]
}

// The instances among feeds, in their order.
fn row_of(alloc: Global, feeds: &[Feeder]) -> Result<Vec<u32>, AllocError>
    ensures { IfOk result (λ row. row.items ≡ instances_among feeds.now) }
{
    let mut row = Vec::new(alloc);
    for j in 0..feeds.len() {
        let feed = feed_at(feeds, j);
        add_instance(&mut row, feed)?;
    }
    Ok(row)
}

// The graph in which each instance leads to those that feed it.
fn feeding_graph(alloc: Global, rows: &[Vec<Feeder>]) -> Result<Graph, AllocError>
    requires few { length rows.now < 2 ^ 32 }
    requires inside { (i : ℕ) (row : _) → slice_get rows.now i ≡ Some row → All (λ a. a < length rows.now) (instances_among row.items) }
    ensures { IfOk result (λ graph. graph ≡ graph_of (map (λ row. row.items) rows.now)) }
{
    let mut graph = Graph::new(alloc, rows.len() as u32)?;
    for i in 0..rows.len() {
        let row = row_of(alloc, &rows[i])?;
        graph.set_edges(i as u32, &row)?;
    }
    Ok(graph)
}

/// The instances of a wired top by rising level and number, where row i is what feeds instance i; or the cycle of instances that feed
/// each other which a walk over all of them finds.
pub fn wired_order(alloc: Global, rows: &[Vec<Feeder>]) -> Result<Vec<u32>, CycleFault>
    requires few { length rows.now < 2 ^ 32 }
    requires inside { (i : ℕ) (row : _) → slice_get rows.now i ≡ Some row → All (λ a. a < length rows.now) (instances_among row.items) }
    ensures order { IfOk result (λ order. IsLevelOrder (graph_of (map (λ row. row.items) rows.now)) order.items) }
    ensures cycle { IfErr result (λ fault. IsCycleFault (graph_of (map (λ row. row.items) rows.now)) (first_numbers (length rows.now)) fault) }
{
    let graph = feeding_graph(alloc, rows)?;
    level_order(alloc, &graph)
}
