//! Sums of products of words, multiplied out where each word is fed by a polynomial: the polynomial of the sum, with the exact
//! bound on the terms of each stage. A specification is such a sum, and so is a block's polynomial at what feeds an instance.
#![tactic(auto)]

mod factors;
mod square;
mod stage;
mod sums;
mod term;

pub use stage::{SumFault, SumStage};
pub use sums::expand_sum;
pub use term::SumTerm;
