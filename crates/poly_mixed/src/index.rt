//! Monomials in slots, and for each bit the rising list of the slots of those that have it.
ghost use Rattle.std.specs.Prelude.{◌≡◌, [], Some, None, IfOk};
ghost use Rattle.std.specs.Option.{option_copied};
ghost use Rattle.poly_mixed.specs.Slots.{IsListOf, slot_at};
ghost use Rattle.poly_mixed.specs.private.Indexed.{Changes};

use crate::Mono;
use crate::slot_lists::Lists;
use slab::Slab;
use std::alloc::{AllocError, Global};
use std::marker::Model;

// Monomials, each in a slot of its own.
pub(crate) struct Index {
    slots: Slab<Mono>,
    lists: Lists,
    alloc: Global,
}

impl Model for Index {
    ghost use Rattle.std.specs.Prelude.{◌≡◌, ℕ};
    ghost use Rattle.poly_mixed.specs.Polynomial.{Slots};
    ghost use Rattle.poly_mixed.specs.Slots.{IsListOf};
    ghost use Rattle.poly_mixed.specs.private.Listed.{list_at};

    ghost Value = { Slots };

    ghost view = { λ x. x.slots.slots };

    ghost invariant = { λ x. (bit : ℕ) → IsListOf bit x.slots.slots (list_at x.lists bit) };
}

// By hand, so that a caller that lets one go makes one call, and not one for each part.
impl Drop for Index {
    fn drop(self) {
        let Index {
            slots,
            lists,
            alloc: _,
        } = self;
        drop(slots);
        drop(lists);
    }
}

impl Index {
    pub(crate) fn new(alloc: Global) -> Index
        ensures { result ≡ [] }
    {
        Index {
            slots: Slab::new(alloc),
            lists: Lists::new(alloc),
            alloc,
        }
    }

    // The monomial in a slot.
    pub(crate) fn at(&self, slot: usize) -> Option<&Mono>
        ensures { option_copied result ≡ slot_at self.now slot }
    {
        self.slots.get(slot)
    }

    // The slots of the monomials that have a bit.
    pub(crate) fn of(&self, bit: u32) -> &[usize]
        ensures { IsListOf bit self.now result.now }
    {
        self.lists.of(bit)
    }

    // Puts a copy of a monomial into an empty slot. After running out of memory the index is not used again.
    pub(crate) fn put(&mut self, mono: &Mono) -> Result<usize, AllocError>
        ensures empty { IfOk result (λ slot. slot_at self.old slot ≡ None) }
        ensures holds { IfOk result (λ slot. Changes self.old self.new slot (Some mono.now)) }
    {
        let copy = mono.copied()?;
        self.slots.reserve(1)?;
        let slot = self.slots.vacant_key();
        match self.lists.put(copy.bits(), slot) {
            Ok(()) => Ok(self.slots.insert_reserved(copy)),
            Err(fault) => {
                self.slots.clear();
                self.lists = Lists::new(self.alloc);
                Err(fault)
            }
        }
    }

    // Takes the monomial out of a slot.
    pub(crate) fn take(&mut self, slot: usize) -> Option<Mono>
        ensures value { result ≡ slot_at self.old slot }
        ensures left { Changes self.old self.new slot None }
    {
        let mono = self.slots.try_remove(slot)?;
        self.lists.drop(mono.bits(), slot);
        Some(mono)
    }
}
