//! Plain programs that do no more than the definitions say: jobs run cycle by cycle and gate by gate, and the cuts, products
//! and sums of stages term by term. They are slow, and tests compare the engines with them.
#![tactic(auto)]

mod bit_form;
mod cut_settle;
mod cut_terms;
mod cut_value;
mod cycle_bits;
mod fed_bits;
mod plain;
mod ranks;
mod settle;
mod word_bits;
mod word_part;
mod word_poly;
mod word_stage;

pub use bit_form::bit_poly;
pub use cut_terms::{cut_poly, cut_size};
pub use cut_value::cut_at;
pub use plain::job_output;
pub use word_part::{other_part, own_ranks};
pub use word_stage::{word_product, word_sum};
