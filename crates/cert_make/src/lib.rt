//! Certificates as texts: the recorder of an engine's steps, and the text in version 2 of a claim and pairs.
//! A text in an older version is written anew with the same claim and the same pairs.
#![tactic(auto)]

mod certificate;
mod copy;
mod key;
mod laws;
mod lines;
mod marks;
mod multiplier;
mod only;
mod pairs;
mod sharing;
mod short;
mod upgrading;

pub use certificate::Certificate;
pub use laws::{upgrade_keeps_pairs, upgrade_keeps_verdict, written_certificate_is_read_back};
pub use upgrading::upgrade;
