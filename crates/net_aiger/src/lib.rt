//! Nets written in ASCII AIGER: what a text says, and its net.
#![tactic(auto)]

mod checks;
mod fault;
mod gates;
mod header;
mod laws;
mod lines;
mod make;
mod names;
mod numbers;
mod read;
mod reader;
mod reading;
mod shared;

pub use fault::AigerFault;
pub use laws::{
    ands_are_conjunctions, each_text_has_one_reading_or_fault, one_net_or_fault,
    ports_have_the_values_of_their_literals,
};
pub use read::read_aiger;
