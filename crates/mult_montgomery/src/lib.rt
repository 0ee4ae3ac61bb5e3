//! Montgomery's multiplier as a netlist: after each coefficient of the first factor the sum is divided by x, so that no
//! product is longer than an element.
#![tactic(auto)]

mod multiplier;
mod rounds;

pub use multiplier::montgomery;
