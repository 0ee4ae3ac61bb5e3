//! Tables of functions of words: their text, the table of a circuit's output, and the one reduced polynomial of a table.
//! No engine is used here: the polynomial comes by interpolation, word after word.
#![tactic(auto)]

mod circuit_words;
mod fault;
mod gather;
mod laws;
mod lifting;
mod one_word;
mod products;
mod reading;
mod small;
mod tabulating;
mod writing;

pub use fault::TableFault;
pub use laws::{
    coefficients_have_the_values, one_circuit_table, one_table_or_fault, one_table_polynomial,
    rows_are_digits, some_table_or_fault, table_polynomials_are_outputs,
};
pub use lifting::lift;
pub use reading::read_table;
pub use small::is_small;
pub use tabulating::{output_at, table};
pub use writing::write_table;
