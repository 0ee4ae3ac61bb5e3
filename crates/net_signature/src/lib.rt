//! The text of a signature: a field, words with their bases and nets, feeds, and blocks.
//! `read_signature` reads it, or gives its first fault.
#![tactic(auto)]

mod basis;
mod blocks;
mod body;
mod element;
mod entry;
mod fault;
mod feed_line;
mod feeds;
mod head;
mod laws;
mod lines;
mod reader;
mod seen;
mod signature;
mod token;
mod version;
mod word_line;
mod words;

pub use blocks::Block;
pub use fault::SigFault;
pub use laws::{
    feeds_are_of_fed_words, named_models_are_tokens, no_tower_over_none, one_signature_or_fault,
    words_have_names,
};
pub use reader::read_signature;
pub use signature::Signature;
