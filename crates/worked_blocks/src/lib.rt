//! Tests alone: tops of instances of blocks, composed by words.
//! They stand in a crate of their own, since a crate with tests is proved twice.
#![tactic(auto)]

#[cfg(test)]
mod block_compose_tests;
