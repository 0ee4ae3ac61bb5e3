//! Numbers of names.
ghost use Rattle.std.specs.Prelude.{◌≡◌, is_some, IfOk, OnOk};
ghost use Rattle.net_blif.specs.Table.{no_numbers, numbers_in, with_number as with_one};

use indexmap::IndexMap;
use net_core::KeyedHash;
use std::alloc::{AllocError, Global};

/// The number that each name has, if it has one. Contracts see it as a function of the name, by the word `numbers_in`.
pub struct Table {
    alloc: Global,
    numbers: IndexMap<String, u32, KeyedHash>,
}

// By hand, so that a caller that lets one go makes one call, and not one for each part.
impl Drop for Table {
    fn drop(self) {
        let Table { alloc: _, numbers } = self;
        drop(numbers);
    }
}

impl Table {
    /// No name has a number. Names are hashed with this key, so that names that collide cannot be looked for where it is
    /// not known before they are. It takes no memory.
    pub fn new(alloc: Global, key: u64) -> Table
        ensures { numbers_in result ≡ no_numbers }
    {
        Table {
            alloc,
            numbers: IndexMap::with_hasher(alloc, KeyedHash::new(key)),
        }
    }

    /// The number of a name.
    pub fn get(&self, name: &str) -> Option<u32>
        ensures { result ≡ numbers_in self.now name.now }
    {
        self.numbers.get(name).copied()
    }

    /// Gives a name this number.
    pub fn insert(&mut self, name: &str, number: u32) -> Result<(), AllocError>
        ensures { OnOk result (numbers_in self.new ≡ with_one (numbers_in self.old) name.now number) }
    {
        self.put(name, number)?;
        Ok(())
    }

    /// Gives a name this number, and tells whether it had one. The name is hashed once.
    pub(crate) fn put(&mut self, name: &str, number: u32) -> Result<bool, AllocError>
        ensures made { OnOk result (numbers_in self.new ≡ with_one (numbers_in self.old) name.now number) }
        ensures had { IfOk result (λ had. had ≡ is_some (numbers_in self.old name.now)) }
    {
        let key = String::from_str(self.alloc, name)?;
        let old = self.numbers.insert(key, number)?;
        Ok(old.is_some())
    }
}
