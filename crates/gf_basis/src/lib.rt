//! Bases of a field over the field of 0 and 1, by which bits of hardware stand for elements.
//! Each has its dual basis, which gives the bits of an element, and each bit as a linear form of the element.
#![tactic(auto)]

mod bases;
mod duals;
mod laws;
mod parities;

pub use bases::{Basis, BasisFault};
pub use laws::{independent_lists, one_list_fault, one_normal_fault, only_duals};
