//! Tests alone: a run that nothing outside can fail, files too long to be kept, and the engines beside the plain programs.
//! Calls with their files and answers, and with what fails outside, are rows of the program `rows`.
#![tactic(auto)]

#[cfg(test)]
mod basis_tests;
#[cfg(test)]
mod large_tests;
#[cfg(test)]
mod long_tests;
#[cfg(test)]
mod outside_tests;
#[cfg(test)]
mod plain_tests;
#[cfg(test)]
mod program;
#[cfg(test)]
mod stage_tests;
