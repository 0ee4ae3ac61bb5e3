//! The bases of the words of a top and of its blocks.
ghost use Rattle.std.specs.Prelude.{◌≡◌, ◌++◌, ◌∷◌, [], map, OnErr, OnOk};

use gf_basis::Basis;
use std::alloc::{AllocError, Global};
use std::marker::Model;

/// Lists of bases, one basis for each word: list 0 is that of the top's words, and list b + 1 that of the words of block b.
/// Contracts see the list of the lists.
#[derive(Drop)]
pub struct BlockBases {
    lists: Vec<Vec<Basis>>,
}

impl Model for BlockBases {
    ghost use Rattle.std.specs.Prelude.{List, map};
    ghost use Rattle.gf_basis.specs.declared.bases.Basis.{Basis as BasisValue};

    ghost Value = { List (List BasisValue) };

    ghost view = { λ bases. map (λ list. list.items) bases.lists.items };
}

impl BlockBases {
    /// No lists. It takes no memory.
    pub fn new(alloc: Global) -> BlockBases
        ensures { result ≡ [] }
    {
        BlockBases {
            lists: Vec::new(alloc),
        }
    }

    /// One more list at the end.
    pub fn push(&mut self, bases: Vec<Basis>) -> Result<(), AllocError>
        ensures made { OnOk result (self.new ≡ self.old ++ bases.items ∷ []) }
        ensures unchanged { OnErr result (self.new ≡ self.old) }
    {
        self.lists.push(bases)?;
        Ok(())
    }

    // The lists, in order.
    pub(crate) fn lists(&self) -> &[Vec<Basis>]
        ensures { map (λ list. list.items) result.now ≡ self.now }
    {
        &self.lists
    }
}
