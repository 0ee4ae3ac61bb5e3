//! Nets with latches and feeds, unrolled for stated cycles into nets of one cycle.
#![tactic(auto)]

mod cycles;
mod ends;
mod fault;
mod gates;
mod labels;
mod laws;
mod make;
mod marks;
mod places;
mod plan;
mod sources;
mod unrolling;
mod words;

pub use fault::UnrollFault;
pub use laws::{
    counts_of_unrolled_nets, unrolled_circuits_compute_the_job, unrolled_nets_are_sound,
};
pub use unrolling::unroll;
