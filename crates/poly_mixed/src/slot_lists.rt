//! For each bit the rising list of the slots of the terms that have it.
ghost use Rattle.std.specs.Prelude.{◌≡◌, ℕ, true, [], length, OnOk, OnErr};
ghost use Rattle.std.specs.List.Sorted.{IsStrictlySortedBy};
ghost use Rattle.std.specs.Ordering.{nat_cmp};
ghost use Rattle.poly_mixed.specs.Product.{with_rank};
ghost use Rattle.poly_mixed.specs.private.Listed.{IsFound, IsGap, list_at, without_slot, changed, all_changed};

use std::alloc::{AllocError, Global};
use std::collections::BTreeMap;
use std::marker::Model;

// Lists of slots; a bit that is not in the map has the empty list.
#[derive(Drop)]
pub(crate) struct Lists {
    lists: BTreeMap<u32, Vec<usize>>,
    alloc: Global,
}

impl Model for Lists {
    ghost use Rattle.std.specs.Prelude.{◌≡◌, ℕ, List, map};
    ghost use Rattle.poly_mixed.specs.private.Listed.{AreRising};

    ghost Value = { List (ℕ × List ℕ) };

    ghost view = { λ l. map (λ e. (e.0, e.1.items)) l.lists.entries };

    ghost invariant = { λ l. AreRising (map (λ e. (e.0, e.1.items)) l.lists.entries) };
}

impl Lists {
    pub(crate) fn new(alloc: Global) -> Lists
        ensures { result ≡ [] }
    {
        Lists {
            lists: BTreeMap::new(alloc),
            alloc,
        }
    }

    // The list of a bit.
    pub(crate) fn of(&self, bit: u32) -> &[usize]
        ensures value { result.now ≡ list_at self.now bit }
        ensures rising { IsStrictlySortedBy nat_cmp (list_at self.now bit) }
    {
        match self.lists.get(&bit) {
            Some(list) => list.as_slice(),
            None => &[],
        }
    }

    // Puts a slot into the list of a bit.
    fn put_one(&mut self, bit: u32, slot: usize) -> Result<(), AllocError>
        ensures { OnOk result ((b : ℕ) → list_at self.new b ≡ changed (λ xs. with_rank xs slot) bit (list_at self.old) b) }
    {
        match self.lists.get_mut(&bit) {
            Some(list) => put_slot(list, slot),
            None => self.start(bit, slot),
        }
    }

    // Begins the list of a bit that has none.
    fn start(&mut self, bit: u32, slot: usize) -> Result<(), AllocError>
        requires { list_at self.old bit ≡ [] }
        ensures { OnOk result ((b : ℕ) → list_at self.new b ≡ changed (λ xs. with_rank xs slot) bit (list_at self.old) b) }
    {
        let mut list = Vec::new(self.alloc);
        list.push(slot)?;
        self.lists.insert(bit, list)?;
        Ok(())
    }

    // Takes a slot out of the list of a bit.
    fn drop_one(&mut self, bit: u32, slot: usize)
        ensures { (b : ℕ) → list_at self.new b ≡ changed (without_slot slot) bit (list_at self.old) b }
    {
        match self.lists.get_mut(&bit) {
            Some(list) => drop_slot(list, slot),
            None => return,
        }
    }

    // Puts a slot into the lists of these bits.
    pub(crate) fn put(&mut self, bits: &[u32], slot: usize) -> Result<(), AllocError>
        ensures { OnOk result ((b : ℕ) → list_at self.new b ≡ all_changed (λ xs. with_rank xs slot) bits.now (list_at self.old) b) }
    {
        for bit in bits {
            self.put_one(*bit, slot)?;
        }
        Ok(())
    }

    // Takes a slot out of the lists of these bits.
    pub(crate) fn drop(&mut self, bits: &[u32], slot: usize)
        ensures { (b : ℕ) → list_at self.new b ≡ all_changed (without_slot slot) bits.now (list_at self.old) b }
    {
        for bit in bits {
            self.drop_one(*bit, slot);
        }
    }
}

// The place of a slot in a rising list, or the place where it would stand.
fn find(list: &[usize], slot: &usize) -> Result<usize, usize>
    requires { IsStrictlySortedBy nat_cmp list.now }
    ensures { IsFound list.now slot.now result }
{
    list.binary_search(slot)
}

// Whether a slot is larger than each of a rising list.
fn is_past(list: &[usize], slot: usize) -> bool
    requires { IsStrictlySortedBy nat_cmp list.now }
    ensures { result ≡ true → IsGap list.now (length list.now) slot }
{
    match list.len() {
        0 => true,
        n => list[n - 1] < slot,
    }
}

// Puts a slot into a rising list; mostly it comes last, and one comparison shows it.
fn put_slot(list: &mut Vec<usize>, slot: usize) -> Result<(), AllocError>
    requires { IsStrictlySortedBy nat_cmp list.old.items }
    ensures rising { IsStrictlySortedBy nat_cmp list.new.items }
    ensures with { OnOk result (list.new.items ≡ with_rank list.old.items slot) }
    ensures unchanged { OnErr result (list.new.items ≡ list.old.items) }
{
    if is_past(list.as_slice(), slot) {
        list.push(slot)?;
        return Ok(());
    }
    put_within(list, slot)
}

// Puts a slot into a rising list at its place.
fn put_within(list: &mut Vec<usize>, slot: usize) -> Result<(), AllocError>
    requires { IsStrictlySortedBy nat_cmp list.old.items }
    ensures rising { IsStrictlySortedBy nat_cmp list.new.items }
    ensures with { OnOk result (list.new.items ≡ with_rank list.old.items slot) }
    ensures unchanged { OnErr result (list.new.items ≡ list.old.items) }
{
    match find(list.as_slice(), &slot) {
        Ok(_) => {}
        Err(i) => list.insert(i, slot)?,
    }
    Ok(())
}

// Takes a slot out of a rising list.
fn drop_slot(list: &mut Vec<usize>, slot: usize)
    requires { IsStrictlySortedBy nat_cmp list.old.items }
    ensures { list.new.items ≡ without_slot slot list.old.items }
{
    if let Ok(i) = find(list.as_slice(), &slot) {
        list.remove(i);
    }
}
