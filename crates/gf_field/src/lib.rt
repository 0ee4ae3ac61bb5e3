//! Rings and fields of characteristic 2 whose elements are machine words.
//! Polynomials over 0 and 1 modulo one of degree 1 to 64, powers, repeated squares, the trace, and the laws of all fields.
#![tactic(auto)]

mod elements;
mod fields;
mod laws;
mod powers;
mod ring_2k;
mod rings;
mod table_16;
mod traces;

pub use elements::{filled, first_outside, is_element};
pub use fields::Field;
pub use laws::{
    additive_squares, convolution_sum, few_roots, irreducible_modulus, only_product,
    only_remainder, own_power, quotient_fields, quotient_rings, roots_up_to_degree,
    trace_onto_bits,
};
pub use powers::{frobenius, power};
pub use ring_2k::{BadDegree, Ring2k};
pub use rings::Ring;
pub use table_16::Table16;
pub use traces::trace;
