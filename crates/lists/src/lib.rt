//! Words and laws of lists, numbers and truth values that the library lacks, each once.
//! It has no function: crates above cite its definitions and laws.
#![tactic(auto)]
