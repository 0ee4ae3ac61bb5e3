//! Laws of the certificates of circuits: there is one, what stands in it has names, and it is accepted.
#![tactic(auto)]

mod laws;

pub use laws::{certificate_is_accepted, certificate_is_named, one_certificate_of_a_circuit};
