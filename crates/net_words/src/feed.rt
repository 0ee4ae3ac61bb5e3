//! What is fed to a net, cycle by cycle.
use net_core::Name;

/// What a fed net holds in a cycle.
#[derive(Clone, Copy)]
pub enum Source {
    /// The constant 0.
    Zero,
    /// The constant 1.
    One,
    /// A bit of a fed word, by its number among all words and its place.
    Bit { word: u32, place: u32 },
}

/// The line of a feed.
#[derive(Drop)]
pub struct FeedText {
    /// The number of its line, from 1.
    pub line: u32,
    /// The name of the net, at most 255 bytes.
    pub net: Name,
    /// The cycle, at most 4,096.
    pub cycle: u32,
    /// What the net holds then.
    pub source: Source,
}

/// A feed that is bound to a net.
#[derive(Clone, Copy)]
pub struct Feed {
    /// The number of its line, from 1.
    pub line: u32,
    /// The number of the net.
    pub net: u32,
    /// The cycle, at most 4,096.
    pub cycle: u32,
    /// What the net holds then.
    pub source: Source,
}
