//! Words of circuits.
use gf_basis::Basis;
use net_words::Role;

/// A word of a circuit.
#[derive(Drop)]
pub struct CircuitWord {
    /// What it is to the circuit.
    pub role: Role,
    /// Its nets by number, place 0 first; in a well-formed circuit over k bits there are k.
    pub nets: Vec<u32>,
    /// Its basis, whose element i counts where the net of place i is 1.
    pub basis: Basis,
}
