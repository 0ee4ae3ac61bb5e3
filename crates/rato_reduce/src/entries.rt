//! Entries of a cut.
ghost use Rattle.std.specs.Prelude.{◌≡◌, ◌≢◌, ◌⊎◌, ◌<◌, ◌^◌, ◌++◌, ◌∷◌, [], length, false, nat_le, IfSome, IfNone, None, OnOk, OnErr, map as each_of};
ghost use Rattle.std.specs.List.{AllByRecursion};
ghost use Rattle.std.specs.Option.{option_map_or};
ghost use Rattle.poly_mixed.specs.Sum.{plus_term};
ghost use Rattle.rato_reduce.specs.private.CutKey.{key_cmp};
ghost use Rattle.rato_reduce.specs.private.CutTerms.{ends_up_to, term_of, IsBitTerm};
ghost use Rattle.rato_reduce.specs.private.EntryList.{only_or, IsExchanged, IsOtherBit};

use crate::key::Key;
use crate::listed::push_bits;
use poly_mixed::Term;
use std::alloc::{AllocError, Global};
use std::collections::BTreeMap;
use std::collections::btree_map::Entry;
use std::marker::Model;

/// Coefficients by keys. An entry that is the only one stands beside the map, which is then empty: in a chain of gates
/// there is no other.
#[derive(Drop)]
pub struct Entries {
    one: Option<(Key, u64)>,
    map: BTreeMap<Key, u64>,
}

impl Model for Entries {
    ghost use Rattle.std.specs.Prelude.{◌≡◌, ◌≢◌, [], IfSome};
    ghost use Rattle.rato_reduce.specs.private.EntryList.{EntryList, entry_list};

    ghost Value = { EntryList };

    ghost view = { λ e. entry_list e.one e.map.entries };

    ghost invariant = { λ e. IfSome e.one (λ x. (e.map.entries ≡ []) × (x.1 ≢ 0)) };
}

impl Entries {
    /// No entries. It takes no memory.
    pub fn new(alloc: Global) -> Entries
        ensures { result.entries ≡ [] }
    {
        Entries {
            one: None,
            map: BTreeMap::new(alloc),
        }
    }

    /// How many there are.
    pub fn len(&self) -> usize
        ensures len { result ≡ length self.now.entries }
        ensures small { result < 2 ^ 63 }
    {
        if self.one.is_some() {
            1
        } else {
            self.map.len()
        }
    }

    /// Adds an entry; the sum of two coefficients that is 0 leaves none. Running out of memory may lose the only one.
    pub fn add(&mut self, key: Key, c: u64) -> Result<(), AllocError>
        requires { c ≢ 0 }
        ensures added { OnOk result (self.new.entries ≡ plus_term key_cmp self.old.entries (key, c)) }
        ensures kept { OnErr result ((self.new.entries ≡ self.old.entries) ⊎ (self.new.entries ≡ [])) }
    {
        if self.len() == 0 {
            self.one = Some((key, c));
            return Ok(());
        }
        spread(&mut self.one, &mut self.map)?;
        add_to(&mut self.map, key, c)
    }

    /// Takes the last entry, if its first place is not behind this one.
    pub fn pop_up_to(&mut self, place: u32) -> Option<(Key, u64)>
        ensures some { IfSome result (λ e. self.old.entries ≡ self.new.entries ++ e ∷ []) }
        ensures none { IfNone result ((self.new.entries ≡ self.old.entries) × (ends_up_to place self.old.entries ≡ false)) }
    {
        if is_up_to(&self.one, place) {
            return self.one.take();
        }
        pop_from(&mut self.map, place)
    }

    /// Puts another bit in place of this one, if the only entry stands beside the map and is of this bit alone, and gives its
    /// coefficient.
    pub fn exchange(&mut self, places: &[u32], rank: u32, by: u32) -> Option<u64>
        ensures some { IfSome result (λ c. IsExchanged places.now rank by c self.old.entries self.new.entries) }
        ensures none { IfNone result (self.new.entries ≡ self.old.entries) }
    {
        exchange_in(&mut self.one, places, rank, by)
    }

    /// Puts the terms of all at the end of a list.
    pub fn push_terms(&self, alloc: Global, terms: &mut Vec<Term>) -> Result<(), AllocError>
        requires { AllByRecursion IsBitTerm (each_of term_of self.now.entries) }
        ensures { OnOk result (terms.new.items ≡ terms.old.items ++ each_of term_of self.now.entries) }
    {
        if let Some((key, c)) = &self.one {
            return push_term(alloc, terms, key, *c);
        }
        for (key, c) in &self.map {
            push_term(alloc, terms, key, *c)?;
        }
        Ok(())
    }
}

// Puts the term of an entry at the end of a list.
fn push_term(alloc: Global, terms: &mut Vec<Term>, key: &Key, c: u64) -> Result<(), AllocError>
    requires { IsBitTerm (term_of (key.now, c)) }
    ensures { OnOk result (terms.new.items ≡ terms.old.items ++ term_of (key.now, c) ∷ []) }
{
    push_bits(alloc, terms, key.bits().as_slice(), c)
}

// Puts the only entry into the map.
fn spread(one: &mut Option<(Key, u64)>, map: &mut BTreeMap<Key, u64>) -> Result<(), AllocError>
    requires { IfSome one.old (λ x. (map.old.entries ≡ []) × (x.1 ≢ 0)) }
    ensures none { one.new ≡ None }
    ensures map { OnOk result (map.new.entries ≡ only_or one.old map.old.entries) }
    ensures unchanged { OnErr result (map.new.entries ≡ map.old.entries) }
{
    match one.take() {
        Some((key, c)) => add_to(map, key, c),
        None => Ok(()),
    }
}

// Adds an entry to a map; the sum of two coefficients that is 0 leaves no entry.
fn add_to(entries: &mut BTreeMap<Key, u64>, key: Key, c: u64) -> Result<(), AllocError>
    requires { c ≢ 0 }
    ensures added { OnOk result (entries.new.entries ≡ plus_term key_cmp entries.old.entries (key, c)) }
    ensures unchanged { OnErr result (entries.new.entries ≡ entries.old.entries) }
{
    match entries.entry(key)? {
        Entry::Vacant(entry) => {
            entry.insert(c);
        }
        Entry::Occupied(mut entry) => {
            let sum = *entry.get() ^ c;
            if sum == 0 {
                entry.remove();
            } else {
                entry.insert(sum);
            }
        }
    }
    Ok(())
}

// Whether there is this entry, and its first place is not behind this one.
fn is_up_to(one: &Option<(Key, u64)>, place: u32) -> bool
    ensures { result ≡ option_map_or (λ e. nat_le e.0.first place) one.now false }
{
    match one {
        Some((only, _)) => only.first() <= place,
        None => false,
    }
}

// Puts another bit in place of this one, if there is an entry and it is of this bit alone, and gives its coefficient.
fn exchange_in(one: &mut Option<(Key, u64)>, places: &[u32], rank: u32, by: u32) -> Option<u64>
    ensures some { IfSome result (λ c. IsOtherBit places.now rank by c one.old one.new) }
    ensures none { IfNone result (one.new ≡ one.old) }
{
    match one {
        Some((key, c)) => {
            if key.is_only(rank) {
                key.set_only(places, by);
                return Some(*c);
            }
            None
        }
        None => None,
    }
}

// Whether the last entry's first place is not behind this one.
fn ends_up_to(entries: &BTreeMap<Key, u64>, place: u32) -> bool
    ensures { result ≡ ends_up_to place entries.now.entries }
{
    match entries.last_key_value() {
        Some((key, _)) => key.first() <= place,
        None => false,
    }
}

// Takes the last entry of a map, if its first place is not behind this one.
fn pop_from(entries: &mut BTreeMap<Key, u64>, place: u32) -> Option<(Key, u64)>
    ensures some { IfSome result (λ e. entries.old.entries ≡ entries.new.entries ++ e ∷ []) }
    ensures none { IfNone result ((entries.new.entries ≡ entries.old.entries) × (ends_up_to place entries.old.entries ≡ false)) }
{
    if !ends_up_to(entries, place) {
        return None;
    }
    entries.pop_last()
}
