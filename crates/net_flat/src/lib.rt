//! The net of a model of a netlist in BLIF: its lines and those of its instances, walked in place. The laws say that the net of
//! an instance's model is a part of the net of the whole.
#![tactic(auto)]

mod equal_names;
mod flat;
mod flat_fault;
mod kept;
mod known;
mod known_names;
mod laws;
mod mark;
mod marks;
mod namer;
mod order;
mod part_laws;
mod place;
mod scope;
mod stop;
mod walk;
mod walker;

pub use flat::{flatten, flatten_design};
pub use flat_fault::FlatFault;
pub use laws::one_net_or_fault;
pub use part_laws::{
    connected_formals_are_their_actuals, instances_are_consistent, named_nets_keep_their_bits,
    wholes_of_latchless_instances_have_no_latch,
};
