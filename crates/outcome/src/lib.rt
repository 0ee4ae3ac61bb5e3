//! What may come of a step that gives a value or refuses with a fault, and the order of refusals.
//! It has no function: crates above cite its definitions and laws.
#![tactic(auto)]
