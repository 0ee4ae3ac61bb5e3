//! The nets of bodies.
ghost use Rattle.std.specs.Prelude.{◌≡◌, ℕ, List, cond, None, Some, OnOk};
ghost use Rattle.std.specs.Str.{bytes_eq};
ghost use Rattle.net_simplify.specs.private.Catalog.{net_of};

use crate::form_key::FormKey;
use std::alloc::{AllocError, Global};
use std::collections::BTreeMap;

/// For each body that was met, alone or as a complement, the net of the first gate with it. Clauses see it as a function of
/// the key, by the word `net_of`.
#[derive(Drop)]
pub(crate) struct Catalog {
    map: BTreeMap<FormKey, u32>,
}

impl Catalog {
    /// No body was met.
    pub(crate) fn new(alloc: Global) -> Catalog
        ensures { (key : List ℕ) → net_of result key ≡ None }
    {
        Catalog {
            map: BTreeMap::new(alloc),
        }
    }

    /// The net of the first gate with this body.
    pub(crate) fn net(&self, key: &FormKey) -> Option<u32>
        ensures { result ≡ net_of self.now key.now }
    {
        self.map.get(key).copied()
    }

    /// Gives a body the net of a gate. After running out of memory the catalog is not used again.
    pub(crate) fn add(&mut self, key: FormKey, net: u32) -> Result<(), AllocError>
        ensures { OnOk result ((q : List ℕ) → net_of self.new q ≡ cond (bytes_eq q key) (Some net) (net_of self.old q)) }
    {
        self.map.insert(key, net)?;
        Ok(())
    }
}
