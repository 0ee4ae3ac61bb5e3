//! The isomorphism between a field of polynomials over 0 and 1 and a tower of degree 2 with as many elements.
//! It takes x of the tower's base and Y of the tower to the least roots of their polynomials in the other field.
#![tactic(auto)]

mod isos;
mod laws;
mod matrices;
mod roots;

pub use isos::{Iso, IsoFault};
pub use laws::{basis_of_images, kept_bases, only_isomorphism, same_word};
