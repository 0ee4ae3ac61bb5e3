//! What may feed a word.

/// A word of a top of instances: one of its input words, numbered from 0 among these, or the output word of an instance,
/// these being numbered from 0 in the order of their lines.
#[derive(Clone, Copy, PartialEq, Eq)]
pub enum Feeder {
    InputWord(u32),
    OutputOf(u32),
}
