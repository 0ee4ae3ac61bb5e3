//! A multiplier that takes one factor digit by digit.
#![tactic(auto)]

mod form;
mod held;
mod laws;
mod maker;
mod powers;
mod products;
mod summands;
mod sums;

pub use laws::latches_hold_the_sums;
pub use maker::digit_serial;
