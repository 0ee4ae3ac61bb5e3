//! What a circuit computes over an isomorphic field: one netlist with words of a tower in any basis, and with words of the big
//! field in the images of that basis. These are laws alone: no program calls them.
#![tactic(auto)]

mod laws;

pub use laws::isomorphic_circuits;
