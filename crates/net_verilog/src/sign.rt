//! Signs of the grammar.

/// A sign that the grammar wants at a place.
#[derive(Clone, Copy)]
pub enum Sign {
    Open,
    Close,
    CloseIndex,
    Comma,
    Semicolon,
    Colon,
    Equals,
}
