//! Indexes that stand in the names of declared scalars, by the name before the `[`.
ghost use Rattle.std.specs.Prelude.{◌≡◌, ℕ, [], IfOk, OnOk};
ghost use Rattle.lists.specs.Lists.{Has};
ghost use Rattle.verilog_reader.specs.private.Listed.{IsKept, items_or, list_at, put_list};

use indexmap::IndexMap;
use net_core::KeyedHash;
use std::alloc::{AllocError, Global};
use std::marker::Model;

/// For each name the indexes of those of its bits that are names of declared scalars, as 3 for `a` where `\a[3] ` is one.
pub struct Scalars {
    alloc: Global,
    lists: IndexMap<String, Vec<u32>, KeyedHash>,
}

// By hand, so that a caller that lets one go makes one call, and not one for each part.
impl Drop for Scalars {
    fn drop(self) {
        let Scalars { alloc: _, lists } = self;
        drop(lists);
    }
}

impl Model for Scalars {
    ghost use Rattle.std.specs.Prelude.{ℕ, List};
    ghost use Rattle.verilog_reader.specs.private.Listed.{named_lists};

    ghost Value = { List (List ℕ × List ℕ) };

    ghost view = { λ scalars. named_lists scalars.lists.entries };
}

// The list that was there, or an empty one.
fn or_empty(alloc: Global, before: Option<Vec<u32>>) -> Vec<u32>
    ensures { result.items ≡ items_or before }
{
    match before {
        Some(list) => list,
        None => Vec::new(alloc),
    }
}

impl Scalars {
    /// There are no lists. Names are looked up by a hash with this key. It takes no memory.
    pub fn new(alloc: Global, key: u64) -> Scalars
        ensures { result ≡ [] }
    {
        Scalars {
            alloc,
            lists: IndexMap::with_hasher(alloc, KeyedHash::new(key)),
        }
    }

    /// The list of a name.
    pub fn of(&self, name: &str) -> &[u32]
        ensures { result.now ≡ list_at self.now name.now }
    {
        match self.lists.get(name) {
            Some(list) => list.as_slice(),
            None => &[],
        }
    }

    // Puts a list in the place of that of a name, which it gives.
    fn swap(&mut self, name: &str, list: Vec<u32>) -> Result<Vec<u32>, AllocError>
        ensures before { IfOk result (λ before. before.items ≡ list_at self.old name.now) }
        ensures with { OnOk result (self.new ≡ put_list name.now list.items self.old) }
    {
        let key = String::from_str(self.alloc, name)?;
        let before = self.lists.insert(key, list)?;
        Ok(or_empty(self.alloc, before))
    }

    /// Lists an index at a name.
    pub fn add(&mut self, name: &str, index: u32) -> Result<(), AllocError>
        ensures kept { OnOk result (IsKept self.old self.new) }
        ensures added { OnOk result (Has (list_at self.new name.now) index) }
    {
        let mut list = self.swap(name, Vec::new(self.alloc))?;
        list.push(index)?;
        self.swap(name, list)?;
        Ok(())
    }
}
