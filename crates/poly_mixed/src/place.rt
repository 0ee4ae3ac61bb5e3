//! What a polynomial keeps for a monomial.

// The coefficient of a monomial, and the slot in which it stands.
#[derive(Clone, Copy)]
pub(crate) struct Place {
    pub(crate) coefficient: u64,
    pub(crate) slot: usize,
}
