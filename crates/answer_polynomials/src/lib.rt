//! The answers of the commands that compute a circuit's polynomial or its value: `bits`, `abstract`, `same`, `check` and `eval`,
//! each in a file of its own, from its setting on.
#![tactic(auto)]

pub mod abstracting;
pub mod bits;
pub mod check;
pub mod eval;
pub mod same;
mod second_stages;
mod values;
