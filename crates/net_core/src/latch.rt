//! Latches.

/// What a latch holds in the first cycle.
#[derive(Clone, Copy, PartialEq, Eq)]
pub enum Start {
    /// The bit 0.
    Zero,
    /// The bit 1.
    One,
    /// Either bit.
    Unknown,
}

/// A latch: in each next cycle the net `out` has the bit that the net `next` had.
#[derive(Clone, Copy, PartialEq, Eq)]
pub struct Latch {
    /// The net that it reads.
    pub next: u32,
    /// The net that it drives.
    pub out: u32,
    /// What it holds in the first cycle.
    pub start: Start,
}
