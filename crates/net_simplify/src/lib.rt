//! Nets made simpler: functions of few nets are put together, and the function of each net that is kept stays.
#![tactic(auto)]

mod catalog;
mod choosing;
mod circuit;
mod composing;
mod form_key;
mod halves;
mod joining;
mod knowing;
mod known;
mod laws;
mod marking;
mod rebuilding;
mod reducing;
mod rounds;
mod settling;
mod table_form;
mod tables;
mod words;

pub use circuit::simplify;
pub use laws::{
    one_simplified_circuit, one_simplified_net, simplified_circuits_compute_the_same,
    simplified_nets_agree, some_simplified_circuit,
};
pub use rounds::simplified;
