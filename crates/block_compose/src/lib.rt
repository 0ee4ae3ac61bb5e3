//! Composition by words: the polynomial of a top that only wires instances of blocks, from the polynomials of the blocks, each of
//! which is abstracted once, or the first reason why there is none.
#![tactic(auto)]

mod bases;
mod blocks;
mod composition;
mod fault;
mod faults;
mod laws;
mod stages;

pub use bases::BlockBases;
pub use composition::compose;
pub use fault::ComposeFault;
pub use laws::composition_is_one;
