//! The multiplier of a tower as a netlist: the products of all coefficients, their sums by place, and the reduction of the
//! high places.
#![tactic(auto)]

mod added_nets;
mod chains;
mod form;
mod multiplier;
mod places;
mod powers;
mod products;
mod sizes;
mod sums;

pub use multiplier::composite;
