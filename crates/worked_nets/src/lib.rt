//! Tests alone: lines and numbers, reads and writes, graphs and nets, worked by hand; the readers of nets are tried by rows.
//! They stand in a crate of their own, since a crate with tests is proved twice.
#![tactic(auto)]

#[cfg(test)]
mod graph_core_tests;
#[cfg(test)]
mod job_io_tests;
#[cfg(test)]
mod net_core_tests;
#[cfg(test)]
mod net_fault_tests;
#[cfg(test)]
mod text_core_tests;
