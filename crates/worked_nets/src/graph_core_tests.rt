//! Orders and cycles of small graphs.
ghost use Rattle.std.specs.Prelude.{◌<◌, All, IsTrue};

use graph_core::{CycleFault, Graph, arrange};
use std::alloc::{AllocError, Global};

// Whether the points are below the count.
fn are_below(points: &[u32], count: usize) -> bool
    ensures { IsTrue result → All (λ a. a < count) points.now }
{
    for point in points {
        if *point as usize >= count {
            return false;
        }
    }
    true
}

// The graph of these points and edges, where they are points.
fn graph_of(alloc: Global, points: u32, edges: &[(u32, &[u32])]) -> Result<Graph, AllocError> {
    let mut graph = Graph::new(alloc, points)?;
    for (from, to) in edges {
        let count = graph.points();
        if (*from as usize) < count && are_below(to, count) {
            graph.set_edges(*from, to)?;
        }
    }
    Ok(graph)
}

// Whether the order, or the cycle, has these points.
fn is_answer(answer: &Result<Vec<u32>, CycleFault>, is_cycle: bool, wanted: &[u32]) -> bool {
    match answer {
        Ok(order) => !is_cycle && order.as_slice() == wanted,
        Err(CycleFault::Cycle { points }) => is_cycle && points.as_slice() == wanted,
        Err(CycleFault::OutOfMemory) => false,
    }
}

// Whether a walk over the graph of these points and edges gives this order or cycle.
fn walks(
    alloc: Global,
    points: u32,
    edges: &[(u32, &[u32])],
    roots: &[u32],
    is_cycle: bool,
    wanted: &[u32],
) -> Result<bool, AllocError> {
    let graph = graph_of(alloc, points, edges)?;
    if !are_below(roots, graph.points()) {
        return Ok(false);
    }
    Ok(is_answer(&arrange(alloc, &graph, roots), is_cycle, wanted))
}

const ORDERED: &[(u32, &[u32])] = &[(0, &[1, 2]), (1, &[3]), (2, &[3, 1]), (4, &[4])];

const ONE: &[(u32, &[u32])] = &[(0, &[1]), (1, &[1])];

// The cycle is found from another point, which leads to a point in no cycle first.
const TWO: &[(u32, &[u32])] = &[(0, &[3, 1]), (1, &[2]), (2, &[3, 1])];

// A second cycle is not named.
const FIVE: &[(u32, &[u32])] = &[
    (6, &[5, 3]),
    (0, &[1]),
    (1, &[5, 2, 0]),
    (2, &[3]),
    (3, &[5, 4]),
    (4, &[0]),
];

// The points and edges of a graph, the roots, whether there is a cycle, and the order or the cycle.
static WALKS: [(u32, &[(u32, &[u32])], &[u32], bool, &[u32]); 9] = [
    (5, ORDERED, &[0], false, &[3, 1, 2, 0]),
    (5, ORDERED, &[2, 2, 0], false, &[3, 1, 2, 0]),
    (5, ORDERED, &[], false, &[]),
    (2, ONE, &[0], true, &[1]),
    (4, TWO, &[3, 0], true, &[1, 2]),
    (4, TWO, &[2], true, &[2, 1]),
    (4, TWO, &[3], false, &[3]),
    (7, FIVE, &[5, 6], true, &[3, 4, 0, 1, 2]),
    (7, FIVE, &[1], true, &[1, 2, 3, 4, 0]),
];

#[test]
fn orders_and_cycles(rt: HostRuntime) {
    for (points, edges, roots, is_cycle, wanted) in &WALKS {
        let found = walks(rt.alloc(), *points, edges, roots, *is_cycle, wanted);
        assert!(rt; found == Ok(true), "at {points} points from {roots:?}");
    }
}

// Whether a graph has its points and edges.
fn has_edges(alloc: Global) -> Result<bool, AllocError> {
    let graph = graph_of(alloc, 5, ORDERED)?;
    if graph.points() != 5 {
        return Ok(false);
    }
    Ok(graph.edges(0) == [1, 2].as_slice())
}

#[test]
fn edges_of_a_graph(rt: HostRuntime) {
    assert!(rt; has_edges(rt.alloc()) == Ok(true));
}
