//! Where names stand among labels.
ghost use Rattle.std.specs.Prelude.{◌≡◌, ℕ, None, nat_eq, ◌<◌, ◌≤◌, ◌^◌, ◌++◌, ◌∷◌, [], length, IfOk, OnOk, OnErr};
ghost use Rattle.net_core.specs.NetList.{number_from};
ghost use Rattle.indexmap.specs.IndexMap.{get};
ghost use Rattle.net_core.specs.private.Placed.{IsPlaced, HasPlace, AreFound, has_name_at};

use crate::label::Label;
use crate::name_hash::NameHash;
use indexmap::IndexMap;
use indexmap::map::Entry;
use std::alloc::{AllocError, Global};

// For each hash of a name the number of the first net that was to have a name with it. A name is hashed once, and is
// not kept a second time: the labels tell whether the net has the name that is looked for. The hash has a key, since
// names that collide in a hash without one can be made.
pub(crate) struct Places {
    hash: NameHash,
    first: IndexMap<u64, u32>,
}

// By hand, so that a caller that lets one go makes one call, and not one for each part.
impl Drop for Places {
    fn drop(self) {
        let Places { hash: _, first } = self;
        drop(first);
    }
}

impl Places {
    // No names, with this key. It takes no memory.
    pub(crate) fn new(alloc: Global, key: u64) -> Places
        ensures { IsPlaced result [] }
    {
        Places {
            hash: NameHash::new(key),
            first: IndexMap::new(alloc),
        }
    }

    // The number of the net of this name.
    pub(crate) fn find(&self, labels: &[Label], name: &str) -> Option<u32>
        requires few { length labels.now ≤ 2 ^ 20 }
        requires placed { IsPlaced self.now labels.now }
        requires found { AreFound labels.now }
        ensures { result ≡ number_from 0 labels.now name.now }
    {
        let hash = self.hash.of_name(name);
        match self.first.get(&hash) {
            Some(net) => number_near(labels, *net, name),
            None => None,
        }
    }

    // The number of the net of this name. A name without a net has a place afterwards, for the net that is added next.
    pub(crate) fn place(&mut self, labels: &[Label], name: &str) -> Result<Option<u32>, AllocError>
        requires few { length labels.now ≤ 2 ^ 20 }
        requires placed { IsPlaced self.old labels.now }
        requires found { AreFound labels.now }
        ensures number { IfOk result (λ number. number ≡ number_from 0 labels.now name.now) }
        ensures place { OnOk result (HasPlace self.new name.now) }
        ensures placed { IsPlaced self.new labels.now }
    {
        let hash = self.hash.of_name(name);
        match note(&mut self.first, hash, labels.len() as u32)? {
            Some(net) => Ok(number_near(labels, net, name)),
            None => Ok(None),
        }
    }
}

// The net of this hash. A hash without one gets the next.
fn note(first: &mut IndexMap<u64, u32>, hash: u64, next: u32) -> Result<Option<u32>, AllocError>
    ensures net { IfOk result (λ net. net ≡ get nat_eq first.old hash) }
    ensures noted { OnOk result (get nat_eq first.new hash ≡ None → ⊥) }
    ensures kept { (other : ℕ) → get nat_eq first.new other ≡ None → get nat_eq first.old other ≡ None }
{
    match first.entry(hash)? {
        Entry::Occupied(entry) => Ok(Some(*entry.get())),
        Entry::Vacant(entry) => {
            entry.insert(next);
            Ok(None)
        }
    }
}

// Adds a net of this text, which finds the net where it is a name.
pub(crate) fn add_net(
    alloc: Global,
    labels: &mut Vec<Label>,
    text: &str,
    named: bool,
) -> Result<u32, AllocError>
    requires room { length labels.old.items < 2 ^ 20 }
    ensures number { IfOk result (λ n. n ≡ length labels.old.items) }
    ensures made { OnOk result (labels.new.items ≡ labels.old.items ++ record { text = text.now; named = named } ∷ []) }
    ensures unchanged { OnErr result (labels.new.items ≡ labels.old.items) }
{
    let number = labels.len() as u32;
    let label = Label::new(alloc, text, named)?;
    labels.push(label)?;
    Ok(number)
}

// The number of the net of this name, where it is likely to be this net.
fn number_near(labels: &[Label], net: u32, name: &str) -> Option<u32>
    requires few { length labels.now ≤ 2 ^ 20 }
    requires found { AreFound labels.now }
    ensures { result ≡ number_from 0 labels.now name.now }
{
    if has_name(labels, net as usize, name) {
        Some(net)
    } else {
        first_named(labels, name)
    }
}

// Whether there is this net and has this name.
fn has_name(labels: &[Label], net: usize, name: &str) -> bool
    ensures { result ≡ has_name_at labels.now net name.now }
{
    match labels.get(net) {
        Some(label) => label.is(name),
        None => false,
    }
}

// The number of the first net of this name. It is called where two names have one hash.
fn first_named(labels: &[Label], name: &str) -> Option<u32>
    requires { length labels.now ≤ 2 ^ 20 }
    ensures { result ≡ number_from 0 labels.now name.now }
{
    for net in 0..labels.len() {
        if has_name(labels, net, name) {
            return Some(net as u32);
        }
    }
    None
}
