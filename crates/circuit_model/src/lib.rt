//! What a circuit computes: words in a basis, the runs of a net with words at an input, and its output there.
//! `output` evaluates a circuit gate by gate, `number_of_bits` and `bit_in_word` read bits; `output_basis`, `output_nets` and
//! `word_places` tell the words of a binding apart; the functions of `laws` do nothing: their contracts are laws of the
//! definitions.
#![tactic(auto)]

mod circuit_feed;
mod circuit_word;
mod laws;
mod net_bits;
mod output_word;
mod places;
mod plain;

pub use circuit_feed::{CircuitFeed, FeedSource};
pub use circuit_word::CircuitWord;
pub use laws::{
    bound_circuits_are_jobs, bound_circuits_are_well_formed, one_differing_input, one_first_input,
    one_output, one_run, output_of_open_runs, taken_circuits_are_jobs,
    taken_circuits_are_well_formed, well_formed_circuits_are_jobs,
};
pub use net_bits::number_of_bits;
pub use output_word::{is_output, output_basis, output_nets};
pub use places::word_places;
pub use plain::{bit_in_word, element, output};
