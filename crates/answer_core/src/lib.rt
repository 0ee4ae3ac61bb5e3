//! What the answers of all commands share: an output, the circuit of all cycles or a simpler one, the line of a polynomial, the
//! polynomials of a circuit's output, the lines of a differing input, and why no output comes of a stage.
#![tactic(auto)]

mod cut_terms;
mod cuts;
mod differing;
mod judged;
mod line;
mod output;
mod setting_labels;
mod simpler;
mod stages;
mod words;

pub use cut_terms::last_terms;
pub use cuts::last_cut;
pub use differing::{add_difference, add_word};
pub use judged::verdict;
pub use line::polynomial_line;
pub use output::Output;
pub use setting_labels::labels;
pub use simpler::{read_simpler, unroll_simpler};
pub use stages::stage_stop;
pub use words::in_words;
