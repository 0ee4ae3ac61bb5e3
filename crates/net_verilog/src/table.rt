//! Declared names.
ghost use Rattle.std.specs.Prelude.{◌≡◌, ℕ, ◌≤◌, Some, OnOk, length};
ghost use Rattle.net_verilog.specs.Declarations.{bit_name, declared_as, put, undeclared};
ghost use Rattle.net_verilog.specs.Targets.{HasNetNames};

use crate::Declared;
use indexmap::IndexMap;
use net_core::KeyedHash;
use std::alloc::{AllocError, Global};
use std::marker::Model;

/// What each name is declared as. Contracts see the names in the order of their first declarations.
pub struct Table {
    alloc: Global,
    names: IndexMap<String, Declared, KeyedHash>,
}

// By hand, so that a caller that lets one go makes one call, and not one for each part.
impl Drop for Table {
    fn drop(self) {
        let Table { alloc: _, names } = self;
        drop(names);
    }
}

impl Model for Table {
    ghost use Rattle.net_verilog.specs.Declarations.{Declarations};
    ghost use Rattle.net_verilog.specs.Targets.{HasNetNames};
    ghost use Rattle.net_verilog.specs.private.Entries.{named_entries};

    ghost Value = { Declarations };

    ghost view = { λ table. named_entries table.names.entries };

    ghost invariant = { λ table. HasNetNames (named_entries table.names.entries) };
}

impl Table {
    /// Nothing is declared. Names are looked up by a hash with this key. It takes no memory.
    pub fn new(alloc: Global, key: u64) -> Table
        ensures { result ≡ undeclared }
    {
        Table {
            alloc,
            names: IndexMap::with_hasher(alloc, KeyedHash::new(key)),
        }
    }

    /// What a name is declared as.
    pub fn find(&self, name: &str) -> Option<Declared>
        ensures same { result ≡ declared_as self.now name.now }
        ensures names { HasNetNames self.now }
    {
        self.names.get(name).copied()
    }

    /// Declares a name in place of what it was declared as before.
    pub fn put(&mut self, name: &str, declared: Declared) -> Result<(), AllocError>
        requires { (low : ℕ) → (high : ℕ) → (i : ℕ) → declared.range ≡ Some (low, high) → low ≤ i → i ≤ high → length (bit_name name.now i) ≤ 255 }
        ensures { OnOk result (self.new ≡ put name.now declared self.old) }
    {
        let key = String::from_str(self.alloc, name)?;
        self.names.insert(key, declared)?;
        Ok(())
    }
}
