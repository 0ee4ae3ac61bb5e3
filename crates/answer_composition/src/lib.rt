//! The answer of the command `compose`, from its setting on: the polynomial of a top, block by block.
#![tactic(auto)]

mod block_bases;
pub mod compose;
mod composition;
