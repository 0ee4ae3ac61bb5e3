//! Marks of names.

/// The number that a name has, and the walk in which it has it.
#[derive(Clone, Copy)]
pub struct Mark {
    pub walk: u32,
    pub number: u32,
}
