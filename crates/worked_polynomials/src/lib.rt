//! Tests alone: polynomials and their texts, circuits, stages and the elimination, beside what was worked by hand and the plain programs.
//! They stand in a crate of their own, since a crate with tests is proved twice.
#![tactic(auto)]

#[cfg(test)]
mod circuit_model_tests;
#[cfg(test)]
mod circuits;
#[cfg(test)]
mod job_plain_tests;
#[cfg(test)]
mod poly_mixed_tests;
#[cfg(test)]
mod rato_reduce_net_tests;
#[cfg(test)]
mod rato_reduce_plain_tests;
#[cfg(test)]
mod rato_reduce_tests;
#[cfg(test)]
mod stage_model_tests;
#[cfg(test)]
mod stage_model_word_tests;
