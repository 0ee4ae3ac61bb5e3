//! Tests alone: netlists that are made for signatures, worked by hand.
//! They stand in a crate of their own, since a crate with tests is proved twice.
#![tactic(auto)]

#[cfg(test)]
mod makers_tests;
