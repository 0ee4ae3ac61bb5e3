//! Matrices of bits, and the test by their ranks whether a ring is a field.
//! A `Proved` ring is one that passed it; its type keeps that it is a field.
#![tactic(auto)]

mod bit_matrix;
mod elimination;
mod laws;
mod proved_rings;

pub use bit_matrix::BitMatrix;
pub use elimination::combined;
pub use laws::only_rank;
pub use proved_rings::Proved;
