//! Words over nets: the types of a signature's words, and their binding to the nets of a netlist.
//! `bind` finds the nets, `rebind` puts the words on other nets, and `Combinational` is a net of one cycle with its words.
#![tactic(auto)]

mod binding;
mod bound;
mod combinational;
mod feed;
mod feeds;
mod laws;
mod marks;
mod order;
mod rebinding;
mod variables;
mod word;

pub use binding::{BindFault, bind};
pub use bound::Bound;
pub use combinational::Combinational;
pub use feed::{Feed, FeedText, Source};
pub use laws::{
    each_net_has_one_rank, flat_bindings_are_of_one_cycle, one_binding_or_fault,
    ranks_and_nets_are_one_to_one, what_is_bound_stands_on_its_net,
};
pub use rebinding::rebind;
pub use word::{BasisText, Role, WordText};
