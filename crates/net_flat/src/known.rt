//! Numbers of the names of a model, walk after walk.
ghost use Rattle.std.specs.Prelude.{◌≡◌, ◌+◌, ◌^◌, OnOk, OnErr, option_and_then};
ghost use Rattle.text_core.specs.Lines.{IsPrinting};
ghost use Rattle.net_blif.specs.Table.{no_numbers, with_number};
ghost use Rattle.net_flat.specs.private.KnownNumbers.{known_in, HasPlace};
ghost use Rattle.net_flat.specs.private.Marking.{number_in_walk};

use crate::known_names::KnownNames;
use crate::mark::Mark;
use crate::marks::{put, seek};
use crate::order::Order;
use indexmap::IndexMap;
use net_core::KeyedHash;
use std::alloc::{AllocError, Global};

// The number of a mark, if it is of this walk.
fn number_of(mark: Option<Mark>, walk: u32) -> Option<u32>
    ensures { result ≡ option_and_then (number_in_walk walk) mark }
{
    match mark {
        Some(mark) => {
            if mark.walk == walk {
                Some(mark.number)
            } else {
                None
            }
        }
        None => None,
    }
}

impl KnownNames {
    /// No name has a number. Names are hashed with this key. It takes no memory.
    pub fn new(alloc: Global, key: u64) -> KnownNames
        ensures { known_in result ≡ no_numbers }
    {
        KnownNames {
            alloc,
            marks: IndexMap::with_hasher(alloc, KeyedHash::new(key)),
            walk: 0,
            place: None,
            names: Order::new(alloc),
            formals: Order::new(alloc),
        }
    }

    /// Before the next walk: no name has a number. It takes no memory, and fails only before walk 2^32.
    pub fn begin(&mut self) -> Result<(), AllocError>
        ensures numbers { OnOk result (known_in self.new ≡ no_numbers) }
        ensures next { OnOk result (self.new.walk ≡ self.old.walk + 1) }
        ensures last { OnErr result (self.old.walk + 1 ≡ 2 ^ 32) }
    {
        let Some(walk) = self.walk.checked_add(1) else {
            return Err(AllocError);
        };
        self.walk = walk;
        self.names.rewind();
        self.formals.rewind();
        Ok(())
    }

    /// The number of the name that the walk mentions next.
    pub fn get(&mut self, name: &[u8]) -> Option<u32>
        requires { IsPrinting name.now }
        ensures number { result ≡ known_in self.old name.now }
        ensures kept { known_in self.new ≡ known_in self.old }
        ensures place { HasPlace self.new name.now }
    {
        let (place, mark) = seek(&self.marks, &mut self.names, name);
        self.place = place;
        number_of(mark, self.walk)
    }

    /// Gives the name that was mentioned last this number. Always inlined, as what it calls.
    #[inline(always)]
    pub fn insert(&mut self, name: &[u8], number: u32) -> Result<(), AllocError>
        requires name { IsPrinting name.now }
        requires place { HasPlace self.old name.now }
        ensures { OnOk result (known_in self.new ≡ with_number (known_in self.old) name.now number) }
    {
        let mark = Mark {
            walk: self.walk,
            number,
        };
        put(self.alloc, &mut self.marks, self.place, name, mark)?;
        Ok(())
    }

    /// Gives a formal this number.
    pub fn connect(&mut self, formal: &[u8], number: u32) -> Result<(), AllocError>
        requires { IsPrinting formal.now }
        ensures { OnOk result (known_in self.new ≡ with_number (known_in self.old) formal.now number) }
    {
        let (place, _) = seek(&self.marks, &mut self.formals, formal);
        self.place = place;
        self.insert(formal, number)
    }
}
