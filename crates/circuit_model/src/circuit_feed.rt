//! What is fed to a circuit, cycle by cycle.

/// Where the bit of a fed net comes from.
#[derive(Clone, Copy)]
pub enum FeedSource {
    /// This bit.
    Constant(bool),
    /// The bit at a place of a fed word, by its number among the input, state and fed words, from 0.
    Bit { word: u32, place: u32 },
}

/// A feed of a circuit.
#[derive(Clone, Copy)]
pub struct CircuitFeed {
    /// The primary input, by its number.
    pub net: u32,
    /// The cycle, from 0.
    pub cycle: u32,
    /// What gives the input its bit in this cycle.
    pub source: FeedSource,
}
