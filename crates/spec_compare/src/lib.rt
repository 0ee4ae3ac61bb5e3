//! The comparison of two polynomials in the bits of a circuit's input, state and fed words: the same values at every input, or
//! the first input at which they differ.
#![tactic(auto)]

mod comparing;
mod first;
mod laws;
mod verdict;

pub use comparing::compare;
pub use laws::{
    one_value, one_verdict, output_as_value, output_in_input_bits, verdict_compares_outputs,
};
pub use verdict::Verdict;
