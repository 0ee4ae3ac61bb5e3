//! From a circuit to its output's polynomial in words: its cuts, and then the replacement of its words. The first of all these
//! stages over the bound is told, and a recorder gets the steps.
#![tactic(auto)]

mod bits;
mod poly;
mod terms;
mod words;

pub use bits::bits_poly;
pub use poly::circuit_poly;
pub use terms::bits_terms;
pub use words::words_poly;
