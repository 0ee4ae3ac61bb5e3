//! Stages of a circuit: cuts, mixes of words and bits, polynomials of stages, sizes, and the first stage over a bound.
//! Functions that do nothing have contracts that are laws of the definitions.
#![tactic(auto)]

mod existence_laws;
mod laws;
mod mix_laws;
mod output_laws;
mod over_laws;
mod stage_laws;
mod word_laws;

pub use existence_laws::{
    each_function_has_a_polynomial, each_mix_has_a_polynomial, each_stage_has_a_polynomial,
    some_first_over,
};
pub use laws::{
    cuts_in_bits, cuts_of_bound, first_cut, last_cut, last_cut_in_words, one_element_a_cut,
    one_polynomial_a_cut, one_size_a_cut,
};
pub use mix_laws::{mix_of_all_words, mix_of_no_words, one_element_a_mix};
pub use output_laws::{each_input_has_a_point, last_cut_is_output, mix_of_all_words_is_output};
pub use over_laws::{
    bound_cuts_over, first_of_cuts_and_words, one_first_cut_over, one_first_over,
    one_first_word_stage_over,
};
pub use stage_laws::{
    one_element_a_stage, one_polynomial_a_stage, one_size_a_stage, stages_are_ordered,
};
pub use word_laws::{
    mix_in_later_bits, one_list_of_cut_steps, one_list_of_word_steps, rank_of_place,
    sum_of_all_terms,
};
