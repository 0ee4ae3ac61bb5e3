//! Nets in the making: plans of gates, rows and chains of them, and nets over the words of a signature. They say how such nets
//! are named and numbered, how words bind to them, and what their runs compute.
#![tactic(auto)]

mod chosen;
mod finishing;
mod forms;
mod made_laws;
mod making;
mod names;
mod outer;
mod plan_laws;
mod plan_maker;
mod plan_ports;
mod planned_gate;
mod ports;
mod prefixes;
mod rows;

pub use chosen::push_where;
pub use finishing::finish;
pub use forms::{all_alike, all_poly, has_words};
pub use made_laws::{made_nets_bind, prefixes_are_new, short_texts_fit};
pub use making::make;
pub use names::add_name;
pub use outer::outer_nets;
pub use plan_laws::{chains_add_bits, made_nets_are_sound};
pub use plan_maker::PlanMaker;
pub use ports::{count_of, role_nets, starts};
pub use prefixes::prefix_for;
pub use rows::{and_row, xor_row};
