//! Sums of products of words: their values, and their polynomials in input and state bits with the exact bound on the terms
//! of each stage. What a specification says is such a sum; `spec_text` reads it.
#![tactic(auto)]

mod bits;
mod expanding;
mod laws;
mod names;
mod spec;

pub use expanding::expand;
pub use laws::stages_have_values;
pub use spec::Spec;
pub use term_expand::SumTerm as SpecTerm;
