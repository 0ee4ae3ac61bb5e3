//! Tests alone: words and feeds bound to nets, and nets unrolled, worked by hand and beside the plain program of jobs.
//! They stand in a crate of their own, since a crate with tests is proved twice.
#![tactic(auto)]

#[cfg(test)]
mod binding_tests;
#[cfg(test)]
mod bindings;
#[cfg(test)]
mod feed_tests;
#[cfg(test)]
mod fitting;
#[cfg(test)]
mod job_tests;
#[cfg(test)]
mod jobs;
#[cfg(test)]
mod plain_jobs;
#[cfg(test)]
mod rank_tests;
#[cfg(test)]
mod short_texts;
#[cfg(test)]
mod small_nets;
#[cfg(test)]
mod unroll_tests;
