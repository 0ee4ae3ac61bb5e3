//! Models inside models.
ghost use Rattle.std.specs.Prelude.{◌≡◌, ◌⊎◌, ◌<◌, ◌++◌, ◌∷◌, [], Ok, Err, All, IfOk, IfErr, OnOk, Some, ℕ, false, length, slice_get, slice_index_or};
ghost use Rattle.std.specs.List.{list_any};
ghost use Rattle.net_blif.specs.Chains.{graph_of, models_in, row_of, AreWithinDepth, WalkEnds};
ghost use Rattle.net_blif.specs.Item.{IsSoundItem};
ghost use Rattle.net_blif.specs.private.Leading.{LeadOn, LeadTo};
ghost use Rattle.graph_core.specs.Cycle.{IsCycleOf};
ghost use Rattle.graph_core.specs.Graph.{IsInside};

use crate::BlifFault;
use crate::formals::text_of;
use crate::item::Item;
use crate::item_list::ItemList;
use crate::model_list::ModelList;
use graph_core::{CycleFault, Graph, arrange};
use net_core::Name;
use std::alloc::{AllocError, Global};

// The most models of a chain, the top included.
const MAX_CHAIN: u32 = 64;

// The model of which an item is an instance, at the end of the row.
fn add_model(row: &mut Vec<u32>, models: &ModelList, item: &Item<'_>) -> Result<(), AllocError>
    requires { IsSoundItem item.now }
    ensures { OnOk result (row.new.items ≡ row.old.items ++ models_in models.now item.now) }
{
    if let Item::Instance { model, .. } = item {
        if let Some(number) = models.model(text_of(model.bytes())) {
            row.push(number)?;
        }
    }
    Ok(())
}

// The models of the instances among these items, in order.
fn row(alloc: Global, models: &ModelList, items: &ItemList) -> Result<Vec<u32>, AllocError>
    ensures { IfOk result (λ row. row.items ≡ row_of models.now items.now) }
{
    let mut row = Vec::new(alloc);
    for place in 0..items.len() {
        let item = items.get(place);
        add_model(&mut row, models, &item)?;
    }
    Ok(row)
}

/// The graph in which each model leads to those of its instances.
pub fn graph(alloc: Global, models: &ModelList) -> Result<Graph, AllocError>
    ensures { IfOk result (λ graph. graph ≡ graph_of models.now) }
{
    let mut graph = Graph::new(alloc, models.models())?;
    for model in 0..models.models() {
        let row = row(alloc, models, models.items(model))?;
        graph.set_edges(model, &row)?;
    }
    Ok(graph)
}

// The first point of a cycle.
fn first_point(points: &[u32]) -> u32
    requires { (a : ℕ) × (slice_get points.now 0 ≡ Some a) }
    ensures { slice_get points.now 0 ≡ Some result }
{
    points[0]
}

// The fault that names the first model of a cycle, or out of memory.
fn recursive(alloc: Global, models: &ModelList, cycle: &[u32]) -> BlifFault
    requires cycle { IsCycleOf (graph_of models.now) (0 ∷ []) cycle.now }
    ensures { (result ≡ BlifFault.OutOfMemory) ⊎ WalkEnds models.now (Err result) }
{
    let first = first_point(cycle);
    match Name::new(alloc, models.name(first)) {
        Ok(model) => BlifFault::Recursive { model },
        Err(AllocError) => BlifFault::OutOfMemory,
    }
}

/// Whether no model contains itself, by the graph of the models; else the first that a walk from the top meets on its path.
pub fn check_walk(alloc: Global, models: &ModelList, graph: &Graph) -> Result<(), BlifFault>
    requires some { 0 < length models.now }
    requires graph { graph.now ≡ graph_of models.now }
    ensures ends { OnOk result (WalkEnds models.now (Ok tt)) }
    ensures fault { IfErr result (λ e. (e ≡ BlifFault.OutOfMemory) ⊎ WalkEnds models.now (Err e)) }
{
    match arrange(alloc, graph, &[0]) {
        Ok(_) => Ok(()),
        Err(CycleFault::Cycle { points }) => Err(recursive(alloc, models, &points)),
        Err(CycleFault::OutOfMemory) => Err(BlifFault::OutOfMemory),
    }
}

// Whether an edge leads to a point that is marked.
fn leads_into(marks: &[bool], edges: &[u32]) -> bool
    requires { All (λ b. b < length marks.now) edges.now }
    ensures { result ≡ list_any (λ b. slice_index_or marks.now b false) edges.now }
{
    for point in edges {
        if marks[*point as usize] {
            return true;
        }
    }
    false
}

// From which points one edge more leads on.
fn further(alloc: Global, graph: &Graph, on: &[bool]) -> Result<Vec<bool>, AllocError>
    requires { length on.now ≡ length graph.now }
    ensures marks { IfOk result (λ more. LeadTo graph.now on.now more.items) }
    ensures inside { IsInside graph.now }
{
    let mut more = Vec::new(alloc);
    let points = graph.points();
    for point in 0..points {
        let mark = leads_into(on, graph.edges(point as u32));
        let Ok(()) = more.push(mark) else {
            return Err(AllocError);
        };
    }
    Ok(more)
}

// Each point.
fn all_points(alloc: Global, graph: &Graph) -> Result<Vec<bool>, AllocError>
    ensures { IfOk result (λ on. LeadOn graph.now 0 on.items) }
{
    let mut on = Vec::new(alloc);
    let points = graph.points();
    for _ in 0..points {
        let Ok(()) = on.push(true) else {
            return Err(AllocError);
        };
    }
    Ok(on)
}

// From which points so many edges lead on.
fn leading(alloc: Global, graph: &Graph, count: u32) -> Result<Vec<bool>, AllocError>
    ensures { IfOk result (λ on. LeadOn graph.now count on.items) }
{
    let mut on = all_points(alloc, graph)?;
    for _ in 0..count {
        on = further(alloc, graph, &on)?;
    }
    Ok(on)
}

/// Whether no chain of instances from the top has more than 64 models, by the graph of the models.
pub fn check_depth(alloc: Global, models: &ModelList, graph: &Graph) -> Result<(), BlifFault>
    requires some { 0 < length models.now }
    requires graph { graph.now ≡ graph_of models.now }
    ensures within { OnOk result (AreWithinDepth models.now (Ok tt)) }
    ensures fault { IfErr result (λ e. (e ≡ BlifFault.OutOfMemory) ⊎ AreWithinDepth models.now (Err e)) }
{
    let Ok(on) = leading(alloc, graph, MAX_CHAIN) else {
        return Err(BlifFault::OutOfMemory);
    };
    if on[0] {
        return Err(BlifFault::TooDeep);
    }
    Ok(())
}
