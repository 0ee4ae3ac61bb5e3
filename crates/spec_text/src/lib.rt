//! The text of a specification: what it says as a sum of products of words, or the fault of its first token that has one.
#![tactic(auto)]

mod fault;
mod laws;
mod reader;
mod scan;

pub use fault::SpecFault;
pub use laws::{one_spec_or_fault, some_spec_or_fault};
pub use reader::read_spec;
