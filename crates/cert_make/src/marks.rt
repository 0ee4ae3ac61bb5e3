//! For each multiplier how often it was seen, or its number where it is shared.
ghost use Rattle.std.specs.Prelude.{◌≡◌, cond, IsTrue, None, Some, OnOk};
ghost use Rattle.cert_make.specs.private.Keys.{KeyParts, is_key};
ghost use Rattle.cert_make.specs.private.TextSharing.{mark_at, seen_again};
ghost use Rattle.cert_make.specs.declared.marks.Mark.TheVariants.{Number, Often};

use crate::key::Key;
use std::alloc::{AllocError, Global};
use std::collections::BTreeMap;

/// What is known of a multiplier: it was seen once, or more than once, or it is shared under this number.
#[derive(Clone, Copy)]
pub(crate) enum Mark {
    Once,
    Often,
    Number(u64),
}

// What is known of a multiplier of which this was known, when it is seen once more.
fn seen(mark: Option<Mark>) -> Mark
    ensures { result ≡ seen_again mark }
{
    match mark {
        None => Mark::Once,
        Some(_) => Mark::Often,
    }
}

// Whether a multiplier was seen more than once.
fn is_often(mark: Option<Mark>) -> bool
    ensures { IsTrue result → mark ≡ Some Often }
{
    match mark {
        Some(Mark::Often) => true,
        _ => false,
    }
}

/// What is known of multipliers. Clauses see it as a function of the key, by the word `mark_at`.
#[derive(Drop)]
pub(crate) struct Marks {
    map: BTreeMap<Key, Mark>,
}

impl Marks {
    /// No multiplier was seen.
    pub(crate) fn new(alloc: Global) -> Marks
        ensures { (q : KeyParts) → mark_at result q ≡ None }
    {
        Marks {
            map: BTreeMap::new(alloc),
        }
    }

    /// What is known of a multiplier.
    pub(crate) fn at(&self, key: &Key) -> Option<Mark>
        ensures { result ≡ mark_at self.now key.now }
    {
        self.map.get(key).copied()
    }

    /// Sees a multiplier. After running out of memory the marks are not used again.
    pub(crate) fn see(&mut self, alloc: Global, key: &Key) -> Result<(), AllocError>
        ensures { OnOk result ((q : KeyParts) → mark_at self.new q ≡ cond (is_key key.now q) (Some (seen_again (mark_at self.old q))) (mark_at self.old q)) }
    {
        let known = self.at(key);
        if is_often(known) {
            return Ok(());
        }
        let copied = key.copied(alloc)?;
        self.put(copied, seen(known))
    }

    // Marks a multiplier.
    fn put(&mut self, key: Key, mark: Mark) -> Result<(), AllocError>
        ensures { OnOk result ((q : KeyParts) → mark_at self.new q ≡ cond (is_key key q) (Some mark) (mark_at self.old q)) }
    {
        self.map.insert(key, mark)?;
        Ok(())
    }

    /// Gives a multiplier its number. After running out of memory the marks are not used again.
    pub(crate) fn give(&mut self, key: Key, number: u64) -> Result<(), AllocError>
        ensures { OnOk result ((q : KeyParts) → mark_at self.new q ≡ cond (is_key key q) (Some (Number number)) (mark_at self.old q)) }
    {
        self.put(key, Mark::Number(number))
    }
}
