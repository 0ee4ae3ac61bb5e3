//! Towers, which are polynomials over a field modulo a monic one, and any field that can be named by
//! a modulus and one or two tower steps.
#![tactic(auto)]

mod any_field;
mod laws;
mod towers;

pub use any_field::{AnyField, FieldFault};
pub use laws::{irreducible_tower, one_field_fault, one_tower_fault};
pub use towers::{Tower, TowerFault};
