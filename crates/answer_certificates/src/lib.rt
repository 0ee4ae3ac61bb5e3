//! The answers of the commands over certificates: `certify`, `verify` and `upgrade`, each in a file of its own, from its setting on.
#![tactic(auto)]

mod certificates;
pub mod certify;
pub mod upgrade;
pub mod verify;
