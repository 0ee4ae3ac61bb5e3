//! Tests alone: rings, fields, matrices, towers, isomorphisms and bases, whose values come from outside.
//! They stand in a crate of their own, since a crate with tests is proved twice.
#![tactic(auto)]

#[cfg(test)]
mod gf_basis_tests;
#[cfg(test)]
mod gf_field_tests;
#[cfg(test)]
mod gf_iso_tests;
#[cfg(test)]
mod gf_tower_tests;
#[cfg(test)]
mod irreducible_tests;
