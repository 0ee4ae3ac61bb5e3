//! The replacement of bits by words: from the polynomial of an output in the bits of its words to the polynomial in the
//! words, word by word and term by term, with the exact bound on the terms of each stage.
#![tactic(auto)]

mod at_once;
mod forms;
mod held;
mod laws;
mod listed;
mod multiple;
mod product;
mod products;
mod rest;
mod sums;
mod tell;
mod term;
mod univariate;
mod whole;
mod word;
mod words;

pub use laws::{all_words_are_the_output, bases_make_a_circuit, last_cut_is_taken};
pub use listed::poly_of;
pub use words::to_words;
