//! Reduced polynomials in words and bits over a field of 2^k elements, with their values and their text.
//! A function of words and bits has exactly one of them.
#![tactic(auto)]

mod evaluate;
mod fault;
mod index;
mod labels;
mod laws;
mod mono;
mod named;
mod numbers;
mod place;
mod poly;
mod read;
mod single;
mod size;
mod slot_lists;
mod stage;
mod steps;
mod table;
mod term;
mod variables;
mod write;

pub use fault::PolyFault;
pub use labels::Labels;
pub use laws::{
    one_poly_or_fault, one_size, one_text, text_order, text_reads_back, unique, unique_in_bits,
};
pub use mono::{Mono, place_of, sum_exponents};
pub use named::is_named;
pub use poly::Poly;
pub use read::read_poly;
pub use single::{constant, scaled_bit, scaled_power};
pub use size::check_size;
pub use stage::{ReduceFault, Stage};
pub use steps::{Generator, NoSteps, Steps};
pub use table::{exclusive_form, table_poly};
pub use term::Term;
pub use write::write_poly;
