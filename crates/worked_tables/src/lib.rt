//! Tests alone: tables of functions read, written and lifted, on values from outside.
#![tactic(auto)]

#[cfg(test)]
mod tables;
