//! Nets of gates and latches: made call by call, finished where they are sound, put in order and evaluated.
//! Names and lists as they stand in fields of public types.
#![tactic(auto)]

mod drivers;
mod driving;
mod fault;
mod gate;
mod keyed_hash;
mod label;
mod latch;
mod laws;
mod level_order;
mod levels;
mod maker;
mod name;
mod name_hash;
mod net;
mod places;
mod valuation;

pub use fault::NetFault;
pub use gate::Gate;
pub use keyed_hash::{KeyedHash, key_of};
pub use latch::{Latch, Start};
pub use laws::{
    finish_accepts_the_sound_nets, levels_are_the_only_ones, levels_are_where_nets_have_them,
    loop_is_a_cycle, loop_is_the_only_one, order_is_the_only_one, sound_net_has_levels,
    sound_net_has_one_valuation,
};
pub use level_order::order;
pub use maker::NetMaker;
pub use name::{Name, Names, Numbers};
pub use net::Net;
pub use valuation::eval;
