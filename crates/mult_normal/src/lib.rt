//! A multiplier in a normal basis, bit by bit.
#![tactic(auto)]

mod form;
mod held;
mod laws;
mod maker;
mod products;

pub use laws::coordinates_are_bits;
pub use maker::normal_serial;
