//! The text of a net in BLIF, and that it is read back.
#![tactic(auto)]

mod laws;
mod lines;
mod plain;
mod rows;
mod write;

pub use laws::written_net_is_read_back;
pub use plain::plain_names;
pub use write::write_blif;
