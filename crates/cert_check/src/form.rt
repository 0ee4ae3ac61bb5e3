//! Linear forms of words.

/// The linear form that reads a bit from its word.
#[derive(Clone, Copy)]
pub(crate) struct Form {
    pub(crate) word: u32,
    pub(crate) place: u32,
}
