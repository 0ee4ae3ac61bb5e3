//! Laws that something comes of each command over the setting of a signature's text: a reply or a fault. They stand beside the
//! laws that it is one at most. No program calls these functions.
#![tactic(auto)]

mod certificates;
mod compositions;
mod isomorphisms;
mod makers;
mod polynomials;
mod specifications;
mod tables;

pub use certificates::{some_certify_or_fault, some_upgrade_or_fault, some_verify_or_fault};
pub use compositions::some_compose_or_fault;
pub use isomorphisms::some_iso_or_fault;
pub use makers::{some_make_or_fault, some_trial_or_fault};
pub use polynomials::{some_abstract_or_fault, some_bits_or_fault, some_same_or_fault};
pub use specifications::some_check_or_fault;
pub use tables::{some_eval_or_fault, some_lift_or_fault, some_table_or_fault};
