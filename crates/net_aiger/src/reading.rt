//! What lines of a text say.
ghost use Rattle.std.specs.Prelude.{◌≡◌, ◌<◌, ◌^◌};
ghost use Rattle.net_aiger.specs.Sections.{fits as literals_fit, within as is_within};
ghost use Rattle.net_aiger.specs.Reading.{driven as driven_by, ports_of};

use net_core::Start;

/// What the header says: the greatest variable, and how many inputs, latches, outputs and ANDs there are.
#[derive(Clone, Copy)]
pub(crate) struct Header {
    pub(crate) most: u32,
    pub(crate) inputs: u32,
    pub(crate) latches: u32,
    pub(crate) outputs: u32,
    pub(crate) ands: u32,
}

/// The line of a latch: its own literal, the one that it holds next, and what it begins with.
#[derive(Clone, Copy)]
pub(crate) struct LatchLine {
    pub(crate) literal: u32,
    pub(crate) next: u32,
    pub(crate) start: Start,
}

/// The line of an AND: its own literal, and those whose conjunction it has.
#[derive(Clone, Copy)]
pub(crate) struct AndLine {
    pub(crate) literal: u32,
    pub(crate) left: u32,
    pub(crate) right: u32,
}

/// A line that uses a literal.
#[derive(Clone, Copy)]
pub(crate) struct Use {
    pub(crate) line: u32,
    pub(crate) literal: u32,
}

impl Header {
    /// How many inputs and latches there are.
    pub(crate) fn driven(self) -> u64
        ensures count { result ≡ driven_by self }
        ensures small { result < 2 ^ 33 }
    {
        u64::from(self.inputs) + u64::from(self.latches)
    }

    /// How many inputs, latches and outputs there are.
    pub(crate) fn ports(self) -> u64
        ensures { result ≡ ports_of self }
    {
        self.driven() + u64::from(self.outputs)
    }

    /// Whether a literal is one of the variables of the header.
    pub(crate) fn has(self, literal: u32) -> bool
        ensures { result ≡ is_within self literal }
    {
        u64::from(literal) <= 2 * u64::from(self.most) + 1
    }

    /// Whether a line may define a literal and use two others.
    pub(crate) fn fits(self, literal: u32, left: u32, right: u32) -> bool
        ensures { result ≡ literals_fit self literal left right }
    {
        (2 <= literal && literal % 2 == 0)
            && (self.has(literal) && (self.has(left) && self.has(right)))
    }
}
