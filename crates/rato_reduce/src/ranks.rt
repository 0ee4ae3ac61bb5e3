//! Lists of ranks of bits.
ghost use Rattle.std.specs.Prelude.{◌≡◌, ◌<◌, ◌≤◌, ◌==◌, ◌++◌, ◌∷◌, [], not, nat_eq, length, take, drop, slice_index, IfOk, IsTrue, OnOk};
ghost use Rattle.std.specs.List.{filter, list_any};
ghost use Rattle.poly_mixed.specs.Product.{with_rank, union};

use smallvec::SmallVec;
use std::alloc::{AllocError, Global};
use std::marker::Model;

/// Ranks of bits, rising where they are those of a term; sixteen of them take no memory of their own.
#[derive(Drop)]
pub struct Ranks {
    items: SmallVec<u32, 16>,
}

impl Model for Ranks {
    ghost use Rattle.std.specs.Prelude.{ℕ, List};

    ghost Value = { List ℕ };

    ghost view = { λ r. r.items.items };
}

impl Ranks {
    /// No rank.
    pub fn none(alloc: Global) -> Ranks
        ensures { result ≡ [] }
    {
        Ranks {
            items: SmallVec::new(alloc),
        }
    }

    /// These two, rising; where they are the same, one.
    pub fn of_two(alloc: Global, first: u32, second: u32) -> Result<Ranks, AllocError>
        ensures { IfOk result (λ r. r ≡ with_rank (first ∷ []) second) }
    {
        let mut items = SmallVec::new(alloc);
        add_rank(&mut items, first)?;
        add_rank(&mut items, second)?;
        Ok(Ranks { items })
    }

    /// The ranks, as they stand.
    pub fn as_slice(&self) -> &[u32]
        ensures { result.now ≡ self.now }
    {
        self.items.as_slice()
    }

    /// Whether there is none.
    pub fn is_empty(&self) -> bool
        ensures { result ≡ (length self.now == 0) }
    {
        self.items.is_empty()
    }

    /// The same ranks.
    pub fn copied(&self) -> Result<Ranks, AllocError>
        ensures { IfOk result (λ r. r ≡ self.now) }
    {
        Ok(Ranks {
            items: SmallVec::from_slice(*self.items.allocator(), self.items.as_slice())?,
        })
    }

    /// Whether the rank is among them.
    pub fn has(&self, rank: u32) -> bool
        ensures { result ≡ list_any (λ r. nat_eq r rank) self.now }
    {
        self.items.as_slice().contains(&rank)
    }

    /// Whether it is this one alone.
    pub fn is_only(&self, rank: u32) -> bool
        ensures { IsTrue result → self.now ≡ rank ∷ [] }
    {
        let ranks = self.items.as_slice();
        if ranks.len() == 1 {
            return ranks[0] == rank;
        }
        false
    }

    /// Puts another one in place of the only one.
    pub fn set_only(&mut self, rank: u32)
        requires { length self.old ≡ 1 }
        ensures { self.new ≡ rank ∷ [] }
    {
        set_first(self.items.as_mut_slice(), rank);
    }

    /// The ranks of both; these are rising.
    pub fn union(&self, other: &Ranks) -> Result<Ranks, AllocError>
        ensures { IfOk result (λ r. r ≡ union self.now other.now) }
    {
        let most = self.items.len().saturating_add(other.items.len());
        let mut items = SmallVec::with_capacity(*self.items.allocator(), most)?;
        unite(&mut items, self.items.as_slice(), other.items.as_slice())?;
        Ok(Ranks { items })
    }

    /// These, which are rising, and one more.
    pub fn with(&self, rank: u32) -> Result<Ranks, AllocError>
        ensures { IfOk result (λ r. r ≡ with_rank self.now rank) }
    {
        let mut items = SmallVec::from_slice(*self.items.allocator(), self.items.as_slice())?;
        add_rank(&mut items, rank)?;
        Ok(Ranks { items })
    }

    /// All but this one, in the place of these.
    pub fn without(mut self, rank: u32) -> Ranks
        ensures { result ≡ filter (λ r. not (nat_eq r rank)) self }
    {
        self.items.retain(|r| *r != rank);
        self
    }
}

// Puts a rank in place of the only one.
fn set_first(items: &mut [u32], rank: u32)
    requires { length items.old ≡ 1 }
    ensures { items.new ≡ rank ∷ [] }
{
    items[0] = rank;
}

// Adds the ranks of two lists to none, those of the other one by one.
fn unite(items: &mut SmallVec<u32, 16>, one: &[u32], other: &[u32]) -> Result<(), AllocError>
    requires { items.old.items ≡ [] }
    ensures { OnOk result (items.new.items ≡ union one.now other.now) }
{
    items.extend_from_slice(one)?;
    for rank in other {
        add_rank(items, *rank)?;
    }
    Ok(())
}

// Adds a rank where it belongs, if it is not there.
fn add_rank(items: &mut SmallVec<u32, 16>, r: u32) -> Result<(), AllocError>
    ensures with { OnOk result (items.new.items ≡ with_rank items.old.items r) }
{
    let i = place_of(items.as_slice(), r);
    if i < items.len() && items.as_slice()[i] == r {
        return Ok(());
    }
    items.insert(i, r)?;
    Ok(())
}

/// The index of the first rank that is not below `r`.
pub fn place_of(items: &[u32], r: u32) -> usize
    ensures within { result ≤ length items.now }
    ensures place { with_rank items.now r ≡ take result items.now ++ with_rank (drop result items.now) r }
    ensures stop { result < length items.now → r ≤ slice_index items.now result }
{
    let mut i = 0;
    while i < items.len() && items[i] < r {
        i += 1;
    }
    i
}
