//! Laws for the makers of multipliers: products bit by bit, registers and jobs that multiply over cycles, and nets that differ
//! in their numbers alone. The functions do nothing: their contracts are laws of the definitions.
#![tactic(auto)]

mod number_laws;
mod product_laws;
mod register_laws;
mod run_laws;

pub use number_laws::{same_names_have_the_same_jobs, same_names_renumber};
pub use product_laws::{
    one_inverse_power, product_bits, remainder_of_x, square_bits, tower_bits, tower_coefficients,
};
pub use register_laws::{
    fed_registers_hold_the_product, fed_registers_hold_the_sums, turning_registers_hold_the_places,
    turning_registers_hold_the_product,
};
pub use run_laws::{fed_nets_hold_the_sums, fed_nets_multiply, turning_nets_multiply};
