//! Tests alone: what is read of signatures and of BLIF, its flattening and writing, worked by hand; faults are tried by rows.
//! They stand in a crate of their own, since a crate with tests is proved twice.
#![tactic(auto)]

#[cfg(test)]
mod net_blif_tests;
#[cfg(test)]
mod net_flat_tests;
#[cfg(test)]
mod net_signature_tests;
#[cfg(test)]
mod net_write_tests;
