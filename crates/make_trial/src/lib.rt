//! What a trial is given in place of files: its signature and setting, its multiplier with one bit of one table turned over,
//! and the product as its specification. The laws say what such a multiplier computes.
#![tactic(auto)]

mod circuit;
mod inputs;
mod place;
mod setting;
mod spec;
mod turned_laws;

pub use circuit::trial_circuit;
pub use inputs::two_inputs;
pub use place::{trial_index, trial_place};
pub use setting::trial_setting;
pub use spec::product_spec;
pub use turned_laws::{
    first_gates_are_products, turned_multipliers_add_a_power, turned_multipliers_differ,
};
