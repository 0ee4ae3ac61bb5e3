//! The words of a signature.
use net_core::{Name, Names, Numbers};

/// What a word is to the netlist.
#[derive(Clone, Copy, PartialEq, Eq)]
pub enum Role {
    /// Its bits are primary inputs.
    Input,
    /// Its bits are outputs of latches.
    State,
    /// Its bits are fed to primary inputs, cycle by cycle; it has nets of its own where the cycles are unrolled.
    Fed,
    /// Its bits are what is computed.
    Output,
}

/// The basis of a word, as the text gives it.
#[derive(Drop)]
pub enum BasisText {
    /// The powers of the root: element i is the number 2^i.
    Poly,
    /// Element i is gamma squared i times.
    Normal { gamma: u64 },
    /// The elements, one by one.
    Elements { list: Numbers<u64> },
}

/// The line of a word.
pub struct WordText {
    /// The number of its line, from 1.
    pub line: u32,
    /// A letter, and then letters, digits and `_`, at most 255 bytes.
    pub name: Name,
    /// What the word is to the netlist.
    pub role: Role,
    /// What its bits stand for.
    pub basis: BasisText,
    /// The names of its nets, place 0 first.
    pub nets: Names,
}

// By hand, so that a caller that lets one go makes one call, and not one for each part.
impl Drop for WordText {
    fn drop(self) {
        let WordText {
            line: _,
            name,
            role: _,
            basis,
            nets,
        } = self;
        drop(name);
        drop(basis);
        drop(nets);
    }
}
