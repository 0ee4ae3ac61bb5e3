//! The wiring of a top of instances: what feeds each input word of each instance, and the output word of the top, or the first
//! word that nothing fits.
#![tactic(auto)]

mod answer;
mod block_words;
mod candidate;
mod candidates;
mod connections;
mod fault;
mod instances;
mod key;
mod laws;
mod listing;
mod named;
mod nets;
mod placed;
mod row;
mod wired;

pub use answer::Wiring;
pub use fault::WiringFault;
pub use laws::wiring_has_one_answer;
pub use wired::wiring_of;
