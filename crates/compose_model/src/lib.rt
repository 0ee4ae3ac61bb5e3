//! What a top of instances computes: what feeds its words, and the values of its instances, as definitions. The law is that the
//! output of the flat top is the value of what feeds its output word.
#![tactic(auto)]

mod feeder;
mod laws;

pub use feeder::Feeder;
pub use laws::{instances_have_one_value_each, output_is_the_value_of_its_feed};
