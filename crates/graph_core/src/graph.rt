//! Graphs.
ghost use Rattle.std.specs.Prelude.{◌≡◌, ◌<◌, ◌≤◌, ◌^◌, [], ℕ, Some, All, IfOk, OnOk, OnErr, length, replicate, slice_get, slice_set};
ghost use Rattle.graph_core.specs.Graph.{edges, IsInside};

use std::alloc::{AllocError, Global};
use std::marker::Model;

// Where the points stand to which a point leads: from `start` on, and before `end`.
#[derive(Clone, Copy)]
struct Row {
    start: usize,
    end: usize,
}

/// A graph: for each point, by its number, the points to which its edges lead, in order.
/// Contracts see it as the list of these lists. They stand one after another in one list, as they were set.
#[derive(Drop)]
pub struct Graph {
    rows: Vec<Row>,
    heads: Vec<u32>,
}

impl Model for Graph {
    ghost use Rattle.graph_core.specs.Graph.{Graph as GraphValue};
    ghost use Rattle.graph_core.specs.Rows.{rows_in, AreRowsOfGraph};

    ghost Value = { GraphValue };

    ghost view = { λ graph. rows_in graph.heads.items graph.rows.items };

    ghost invariant = { λ graph. AreRowsOfGraph graph.heads.items graph.rows.items };
}

// So many rows without points.
fn empty_rows(alloc: Global, count: usize) -> Result<Vec<Row>, AllocError>
    ensures { IfOk result (λ rows. rows.items ≡ replicate count (record { start = 0; end = 0 })) }
{
    let mut rows = Vec::new(alloc);
    rows.resize(count, Row { start: 0, end: 0 })?;
    Ok(rows)
}

// The row of a point.
fn row_of(rows: &[Row], point: usize) -> Row
    requires { point < length rows.now }
    ensures { slice_get rows.now point ≡ Some result }
{
    rows[point]
}

impl Graph {
    /// A graph of this many points and no edges.
    pub fn new(alloc: Global, points: u32) -> Result<Graph, AllocError>
        ensures { IfOk result (λ graph. graph ≡ replicate points []) }
    {
        let rows = empty_rows(alloc, points as usize)?;
        Ok(Graph {
            rows,
            heads: Vec::new(alloc),
        })
    }

    /// Lets a point lead to these points, in this order, and to no others; all are points of the graph. What was set for it before
    /// still takes its memory.
    pub fn set_edges(&mut self, from: u32, to: &[u32]) -> Result<(), AllocError>
        requires from { from < length self.old }
        requires to { All (λ a. a < length self.old) to.now }
        ensures made { OnOk result (self.new ≡ slice_set self.old from to.now) }
        ensures unchanged { OnErr result (self.new ≡ self.old) }
    {
        let start = self.heads.len();
        self.heads.extend_from_slice(to)?;
        let end = self.heads.len();
        let row = Row { start, end };
        self.rows[from as usize] = row;
        Ok(())
    }

    /// How many points there are.
    pub fn points(&self) -> usize
        ensures points { result ≡ length self.now }
        ensures few { result ≤ 2 ^ 32 }
        ensures inside { IsInside self.now }
    {
        self.rows.len()
    }

    /// The points to which a point of the graph leads, in order.
    pub fn edges(&self, from: u32) -> &[u32]
        requires { from < length self.now }
        ensures edges { result.now ≡ edges self.now from }
        ensures inside { IsInside self.now }
    {
        let Row { start, end } = row_of(&self.rows, from as usize);
        &self.heads[start..end]
    }
}
