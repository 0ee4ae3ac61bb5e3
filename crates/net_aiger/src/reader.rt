//! What was read of a text.
ghost use Rattle.std.specs.Prelude.{◌≡◌, ◌<◌, ◌^◌, ◌++◌, IfOk, IfSome, drop, length, slice_get, Some};
ghost use Rattle.std.specs.Fmt.{decimal};
ghost use Rattle.std.specs.Option.{option_map};
ghost use Rattle.net_core.specs.Inside.{IsNetName};
ghost use Rattle.net_aiger.specs.private.Run.{ends as line_ends, is_complete as complete};
ghost use Rattle.net_aiger.specs.Reading.{driven, default_name as name_by_default, even as even_of, net_of, port_name as name_of_port, variable_net as net_of_variable};
ghost use Rattle.net_aiger.specs.private.Run.{start};

use crate::reading::{AndLine, Header, LatchLine, Use};
use indexmap::{IndexMap, IndexSet};
use net_core::{KeyedHash, Name};
use std::alloc::{AllocError, Global};
use std::marker::Model;

/// The header, the lines read so far, and the names given so far.
pub(crate) struct Reader {
    pub(crate) alloc: Global,
    pub(crate) header: Header,
    pub(crate) ports: Vec<u32>,
    pub(crate) latches: Vec<LatchLine>,
    pub(crate) ands: Vec<AndLine>,
    pub(crate) defined: IndexSet<u32, KeyedHash>,
    pub(crate) uses: Vec<Use>,
    pub(crate) symbols: IndexMap<u64, Name, KeyedHash>,
}

impl Model for Reader {
    ghost use Rattle.std.specs.Prelude.{◌<◌, ◌^◌, All, length};
    ghost use Rattle.net_core.specs.Inside.{IsNetName};
    ghost use Rattle.net_aiger.specs.Reading.{Reading};

    ghost Value = { Reading };

    ghost view = { λ r. record { header = r.header; ports = r.ports.items; latches = r.latches.items; ands = r.ands.items; defined = r.defined.keys; uses = r.uses.items; symbols = r.symbols.entries } };

    ghost invariant = { λ r. (length r.defined.keys < 2 ^ 32) × All (λ s. IsNetName s.1) r.symbols.entries };
}

// By hand, so that a caller that lets one go makes one call, and not one for each list.
impl Drop for Reader {
    fn drop(self) {
        let Reader {
            alloc: _,
            header: _,
            ports,
            latches,
            ands,
            defined,
            uses,
            symbols,
        } = self;
        drop(ports);
        drop(latches);
        drop(ands);
        drop(defined);
        drop(uses);
        drop(symbols);
    }
}

impl Reader {
    /// Nothing but the header was read. It takes no memory.
    pub(crate) fn new(alloc: Global, key: u64, header: Header) -> Reader
        ensures { result ≡ start header }
    {
        Reader {
            alloc,
            header,
            ports: Vec::new(alloc),
            latches: Vec::new(alloc),
            ands: Vec::new(alloc),
            defined: IndexSet::with_hasher(alloc, KeyedHash::new(key)),
            uses: Vec::new(alloc),
            symbols: IndexMap::with_hasher(alloc, KeyedHash::new(key)),
        }
    }

    /// The header.
    pub(crate) fn header(&self) -> Header
        ensures { result ≡ self.now.header }
    {
        self.header
    }

    /// Whether all lines of numbers were read.
    pub(crate) fn is_complete(&self) -> bool
        ensures { result ≡ complete self.now }
    {
        self.header.ports() <= self.ports.len() as u64
            && u64::from(self.header.ands) <= self.ands.len() as u64
    }

    /// Whether a line ends the text.
    pub(crate) fn ends(&self, line: &[u8]) -> bool
        ensures { result ≡ line_ends line.now self.now }
    {
        self.is_complete() && line == b"c".as_slice()
    }

    /// The number of the net of a defined literal.
    pub(crate) fn net(&self, literal: u32) -> Option<u32>
        ensures net { result ≡ net_of self.now literal }
        ensures within { IfSome result (λ n. n < length self.now.defined) }
    {
        match self.defined.get_index_of(&literal) {
            Some(index) => Some(index as u32),
            None => None,
        }
    }

    /// How many literals are defined.
    pub(crate) fn defined(&self) -> u32
        ensures { result ≡ length self.now.defined }
    {
        self.defined.len() as u32
    }

    /// A defined literal.
    pub(crate) fn literal(&self, number: u32) -> u32
        requires { number < length self.now.defined }
        ensures { slice_get self.now.defined number ≡ Some result }
    {
        match self.defined.get_index(number as usize) {
            Some(literal) => *literal,
            None => unreachable!(),
        }
    }

    /// The literals of the ports.
    pub(crate) fn ports(&self) -> &[u32]
        ensures ports { result.now ≡ self.now.ports }
        ensures small { length result.now < 2 ^ 63 }
    {
        self.ports.as_slice()
    }

    /// How many names are given.
    pub(crate) fn symbols(&self) -> usize
        ensures { result ≡ length self.now.symbols }
    {
        self.symbols.len()
    }

    /// The port that a name is given to, and the name, by its place among those that are given.
    pub(crate) fn symbol(&self, place: usize) -> Option<(u64, &[u8])>
        ensures { option_map (λ s. (s.0, s.1.now)) result ≡ slice_get self.now.symbols place }
    {
        match self.symbols.get_index(place) {
            Some((port, name)) => Some((*port, name.as_str().as_bytes())),
            None => None,
        }
    }

    /// The literals that lines use.
    pub(crate) fn uses(&self) -> &[Use]
        ensures { result.now ≡ self.now.uses }
    {
        self.uses.as_slice()
    }

    /// The lines of the ANDs.
    pub(crate) fn ands(&self) -> &[AndLine]
        ensures { result.now ≡ self.now.ands }
    {
        self.ands.as_slice()
    }

    /// The lines of the latches.
    pub(crate) fn latches(&self) -> &[LatchLine]
        ensures { result.now ≡ self.now.latches }
    {
        self.latches.as_slice()
    }

    /// The literals of the outputs.
    pub(crate) fn outputs(&self) -> &[u32]
        ensures { result.now ≡ drop (driven self.now.header) self.now.ports }
    {
        let driven = self.header.driven();
        if driven <= self.ports.len() as u64 {
            &self.ports[driven as usize..]
        } else {
            &self.ports[self.ports.len()..]
        }
    }

    /// The number of the net of a literal's variable.
    pub(crate) fn variable_net(&self, literal: u32) -> u32
        ensures { result ≡ net_of_variable self.now literal }
    {
        self.net(even(literal)).unwrap_or(0)
    }

    /// The name of a port.
    pub(crate) fn port_name(&self, port: u64) -> Result<Name, AllocError>
        ensures name { IfOk result (λ name. name ≡ name_of_port self.now port) }
        ensures fits { IfOk result (λ name. IsNetName name) }
    {
        match self.symbols.get(&port) {
            Some(name) => Name::new(self.alloc, name.as_str()),
            None => default_name(self.alloc, self.header, port),
        }
    }
}

/// The literal of a literal's variable.
pub(crate) fn even(literal: u32) -> u32
    ensures { result ≡ even_of literal }
{
    literal - literal % 2
}

// A letter and a number, as a name.
fn numbered(alloc: Global, letter: &str, number: u64) -> Result<Name, AllocError>
    requires { length letter.now ≡ 1 }
    ensures name { IfOk result (λ name. name ≡ letter.now ++ decimal number) }
    ensures fits { IfOk result (λ name. IsNetName name) }
{
    let text = format!(in alloc; "{letter}{number}")?;
    let name = Name::new(alloc, text.as_str())?;
    Ok(name)
}

// The name of a port that is given none.
fn default_name(alloc: Global, header: Header, port: u64) -> Result<Name, AllocError>
    ensures name { IfOk result (λ name. name ≡ name_by_default header port) }
    ensures fits { IfOk result (λ name. IsNetName name) }
{
    if port < u64::from(header.inputs) {
        numbered(alloc, "i", port)
    } else if port < header.driven() {
        numbered(alloc, "l", port - u64::from(header.inputs))
    } else {
        numbered(alloc, "o", port - header.driven())
    }
}
