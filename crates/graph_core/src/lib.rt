//! Graphs as lists of edges, and a walk in depth with a stack of its own:
//! it puts points in an order in which each stands after those to which it leads, or finds a cycle.
#![tactic(auto)]

mod fault;
mod graph;
mod laws;
mod walk;

pub use fault::CycleFault;
pub use graph::Graph;
pub use laws::{
    cycle_of_roots_is_a_cycle, cycle_of_roots_is_the_only_one, grounded_leads_to_no_cycle,
    order_has_no_cycle,
};
pub use walk::arrange;
