//! A walk in depth, with a stack of its own, which puts points in an order or finds a cycle.
ghost use Rattle.std.specs.Prelude.{◌≡◌, ◌<◌, ◌≤◌, ◌+◌, ◌^◌, ◌++◌, ◌∷◌, [], ℕ, All, IfErr, IfOk, IfSome, IsTrue, List, OnOk, Some, drop, length, map, slice_get, slice_set, vec_len};
ghost use Rattle.graph_core.specs.Arranged.{IsArranged};
ghost use Rattle.graph_core.specs.Fault.{IsCycleFault};
ghost use Rattle.graph_core.specs.Graph.{edges};
ghost use Rattle.graph_core.specs.Walking.{AreDone, AreUnseen, EarlierAreGrounded, IsDone, IsStep, IsVisit, IsWalking, StartsAt};
ghost use Rattle.graph_core.specs.declared.walk.Mark.TheVariants.{Unseen, Open, Done};

use crate::{CycleFault, Graph};
use std::alloc::{AllocError, Global};

// What the walk knows of a point: its place on the stack, or its place in the order.
#[derive(Clone, Copy)]
enum Mark {
    Unseen,
    Open(usize),
    Done(usize),
}

// A point of the walk, and the edge to follow next.
#[derive(Clone, Copy)]
struct Frame {
    point: u32,
    next: usize,
}

/// The roots, which are points of the graph, and the points to which they lead and no others, each once and each after
/// those to which it leads.
/// Where a root leads into a cycle, it is the cycle that a walk finds, which begins at the first such root
/// and goes from each point to the first one that leads into a cycle, until it meets a point again.
pub fn arrange(alloc: Global, graph: &Graph, roots: &[u32]) -> Result<Vec<u32>, CycleFault>
    requires { All (λ a. a < length graph.now) roots.now }
    ensures arranged { IfOk result (λ order. IsArranged graph.now roots.now order.items) }
    ensures cycle { IfErr result (λ fault. IsCycleFault graph.now roots.now fault) }
{
    let mut marks = unseen_marks(alloc, graph.points())?;
    let mut stack = Vec::new(alloc);
    let mut order = Vec::new(alloc);
    for root in roots {
        visit_root(alloc, graph, *root, &mut marks, &mut stack, &mut order)?;
    }
    Ok(order)
}

fn unseen_marks(alloc: Global, points: usize) -> Result<Vec<Mark>, AllocError>
    ensures long { IfOk result (λ marks. vec_len marks ≡ points) }
    ensures each { IfOk result (λ marks. AreUnseen marks.items) }
{
    let mut marks = Vec::new(alloc);
    marks.resize(points, Mark::Unseen)?;
    Ok(marks)
}

// Puts the points to which the root leads, and the root, into the order, if it is not there.
fn visit_root(
    alloc: Global,
    graph: &Graph,
    root: u32,
    marks: &mut Vec<Mark>,
    stack: &mut Vec<Frame>,
    order: &mut Vec<u32>,
) -> Result<(), CycleFault>
    requires root { root < length graph.now }
    requires walk { IsWalking graph.now marks.old.items [] order.old.items }
    requires stack { stack.old.items ≡ [] }
    ensures visit { OnOk result (IsVisit graph.now root marks.old.items marks.new.items stack.new.items order.new.items) }
    ensures cycle { (roots : List ℕ) (i : ℕ) → EarlierAreGrounded graph.now roots root i → IfErr result (λ fault. IsCycleFault graph.now roots fault) }
{
    match marks[root as usize] {
        Mark::Open(_) | Mark::Done(_) => Ok(()),
        Mark::Unseen => visit(alloc, graph, root, marks, stack, order),
    }
}

// Whether the point is done.
fn is_done(marks: &[Mark], point: u32) -> bool
    ensures { IsTrue result → IsDone marks.now point }
{
    match marks.get(point as usize).copied() {
        Some(Mark::Done(_)) => true,
        _ => false,
    }
}

// Whether the points are done.
fn are_done(marks: &[Mark], points: &[u32]) -> bool
    ensures { IsTrue result → AreDone marks.now points.now }
{
    for point in points {
        if !is_done(marks, *point) {
            return false;
        }
    }
    true
}

// Puts the points to which an unseen root leads, and the root, into the order. A root whose edges lead to points that are
// done goes there at once: so do nearly all gates of a netlist in which each stands after those that it reads.
fn visit(
    alloc: Global,
    graph: &Graph,
    root: u32,
    marks: &mut Vec<Mark>,
    stack: &mut Vec<Frame>,
    order: &mut Vec<u32>,
) -> Result<(), CycleFault>
    requires root { slice_get marks.old.items root ≡ Some Unseen }
    requires walk { IsWalking graph.now marks.old.items [] order.old.items }
    requires stack { stack.old.items ≡ [] }
    ensures visit { OnOk result (IsVisit graph.now root marks.old.items marks.new.items stack.new.items order.new.items) }
    ensures cycle { (roots : List ℕ) (i : ℕ) → EarlierAreGrounded graph.now roots root i → IfErr result (λ fault. IsCycleFault graph.now roots fault) }
{
    if are_done(marks, graph.edges(root)) {
        leave(root, marks, order)?;
        return Ok(());
    }
    begin(root, marks, stack)?;
    while let Some(frame) = stack.pop() {
        step(alloc, graph, frame, marks, stack, order)?;
    }
    Ok(())
}

// Puts the root alone on the empty stack.
fn begin(root: u32, marks: &mut Vec<Mark>, stack: &mut Vec<Frame>) -> Result<(), AllocError>
    requires root { slice_get marks.old.items root ≡ Some Unseen }
    requires stack { stack.old.items ≡ [] }
    ensures stack { OnOk result (stack.new.items ≡ record { point = root; next = 0 } ∷ []) }
    ensures marks { OnOk result (marks.new.items ≡ slice_set marks.old.items root (Open 0)) }
{
    stack.push(Frame {
        point: root,
        next: 0,
    })?;
    marks[root as usize] = Mark::Open(0);
    Ok(())
}

// Leaves the point of the frame, or follows its next edge.
fn step(
    alloc: Global,
    graph: &Graph,
    frame: Frame,
    marks: &mut Vec<Mark>,
    stack: &mut Vec<Frame>,
    order: &mut Vec<u32>,
) -> Result<(), CycleFault>
    requires { IsWalking graph.now marks.old.items (stack.old.items ++ frame ∷ []) order.old.items }
    ensures step { OnOk result (IsStep graph.now marks.old.items (stack.old.items ++ frame ∷ []) marks.new.items stack.new.items order.new.items) }
    ensures cycle { (root : ℕ) (roots : List ℕ) (i : ℕ) → StartsAt root (stack.old.items ++ frame ∷ []) → EarlierAreGrounded graph.now roots root i → IfErr result (λ fault. IsCycleFault graph.now roots fault) }
{
    match next_edge(graph, frame) {
        None => {
            leave(frame.point, marks, order)?;
            Ok(())
        }
        Some(to) => match marks[to as usize] {
            Mark::Open(from) => {
                let points = cycle_points(alloc, stack, frame, from)?;
                Err(CycleFault::Cycle { points })
            }
            Mark::Done(_) => {
                advance(frame, stack)?;
                Ok(())
            }
            Mark::Unseen => {
                descend(frame, to, marks, stack)?;
                Ok(())
            }
        },
    }
}

// Where the next edge of the frame leads.
fn next_edge(graph: &Graph, frame: Frame) -> Option<u32>
    requires { frame.point < length graph.now }
    ensures value { result ≡ slice_get (edges graph.now frame.point) frame.next }
    ensures inside { IfSome result (λ to. to < length graph.now) }
    ensures small { IfSome result (λ _. frame.next < 2 ^ 63) }
{
    item(graph.edges(frame.point), frame.next)
}

fn item(row: &[u32], k: usize) -> Option<u32>
    ensures value { result ≡ slice_get row.now k }
    ensures small { IfSome result (λ _. k < 2 ^ 63) }
{
    row.get(k).copied()
}

// The point is done and the next one of the order.
fn leave(point: u32, marks: &mut Vec<Mark>, order: &mut Vec<u32>) -> Result<(), AllocError>
    requires { point < length marks.old.items }
    ensures marks { OnOk result (marks.new.items ≡ slice_set marks.old.items point (Done (length order.old.items))) }
    ensures order { OnOk result (order.new.items ≡ order.old.items ++ point ∷ []) }
{
    marks[point as usize] = Mark::Done(order.len());
    order.push(point)?;
    Ok(())
}

// Passes by an edge to a point that is done.
fn advance(frame: Frame, stack: &mut Vec<Frame>) -> Result<(), AllocError>
    requires { frame.next < 2 ^ 63 }
    ensures stack { OnOk result (stack.new.items ≡ stack.old.items ++ record { point = frame.point; next = frame.next + 1 } ∷ []) }
{
    stack.push(Frame {
        point: frame.point,
        next: frame.next + 1,
    })?;
    Ok(())
}

// Goes along an edge to a point that was not met.
fn descend(
    frame: Frame,
    to: u32,
    marks: &mut Vec<Mark>,
    stack: &mut Vec<Frame>,
) -> Result<(), AllocError>
    requires { to < length marks.old.items }
    ensures stack { OnOk result (stack.new.items ≡ (stack.old.items ++ frame ∷ []) ++ record { point = to; next = 0 } ∷ []) }
    ensures marks { OnOk result (marks.new.items ≡ slice_set marks.old.items to (Open (length stack.old.items + 1))) }
{
    stack.push(frame)?;
    marks[to as usize] = Mark::Open(stack.len());
    stack.push(Frame { point: to, next: 0 })?;
    Ok(())
}

// The points of the walk from this place on.
fn cycle_points(
    alloc: Global,
    stack: &[Frame],
    frame: Frame,
    from: usize,
) -> Result<Vec<u32>, AllocError>
    requires { from ≤ length stack.now }
    ensures { IfOk result (λ points. points.items ≡ map (λ f. f.point) (drop from stack.now) ++ frame.point ∷ []) }
{
    let mut points: Vec<u32> = stack[from..].iter().map(|f| f.point).collect(alloc)?;
    points.push(frame.point)?;
    Ok(points)
}
