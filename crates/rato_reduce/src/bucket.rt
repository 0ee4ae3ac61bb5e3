//! Terms in no order.
ghost use Rattle.std.specs.Prelude.{◌≡◌, ◌++◌, ◌∷◌, ℕ, List, [], length, IfOk, OnOk, OnErr};
ghost use Rattle.std.specs.List.{AllByRecursion};
ghost use Rattle.rato_reduce.specs.private.Buckets.{HaveSameSum, IsLine};
ghost use Rattle.rato_reduce.specs.private.Rows.{lines_of, product_of, IsInside};

use crate::merge::merge_rows;
use crate::row::{Row, bits_of};
use crate::term::Term;
use crate::united::add_union;
use std::alloc::{AllocError, Global};
use std::marker::Model;
use std::mem::swap;

// The memory of more rows or ranks is not kept for others.
const SMALL: usize = 64;

/// Terms in no order, whose bits stand one behind the other in one list; one product of bits may stand more than once. If
/// there are `merged` of them, equal ones were added up as far as a few looks find them.
#[derive(Drop)]
pub struct Bucket {
    ranks: Vec<u32>,
    rows: Vec<Row>,
    merged: usize,
}

impl Model for Bucket {
    ghost use Rattle.std.specs.List.{AllByRecursion};
    ghost use Rattle.poly_mixed.specs.Polynomial.{Terms};
    ghost use Rattle.rato_reduce.specs.private.Rows.{lines_of, IsInside};

    ghost Value = { Terms };

    ghost view = { λ b. lines_of b.ranks.items b.rows.items };

    ghost invariant = { λ b. AllByRecursion (IsInside b.ranks.items) b.rows.items };
}

impl Bucket {
    /// No terms. It takes no memory.
    pub fn new(alloc: Global) -> Bucket
        ensures { result ≡ [] }
    {
        Bucket {
            ranks: Vec::new(alloc),
            rows: Vec::new(alloc),
            merged: 0,
        }
    }

    /// How many terms stand here; equal ones count each.
    pub fn len(&self) -> usize
        ensures { result ≡ length self.now }
    {
        self.rows.len()
    }

    /// The bits of all terms, and their rows.
    pub fn parts(&self) -> (&[u32], &[Row])
        ensures { lines_of result.0.now result.1.now ≡ self.now }
    {
        (self.ranks.as_slice(), self.rows.as_slice())
    }

    /// Lets go of all terms, and keeps the memory.
    pub fn clear(&mut self)
        ensures { self.new ≡ [] }
    {
        self.rows.clear();
        self.ranks.clear();
        self.merged = 0;
    }

    /// Adds the product of a term and of a set of bits, equal to another one or not.
    pub fn push(&mut self, term: &Term<'_>, set: &[u32]) -> Result<(), AllocError>
        ensures pushed { OnOk result (self.new ≡ self.old ++ product_of term.now set.now ∷ []) }
        ensures kept { OnErr result (self.new ≡ self.old) }
    {
        push_row(&mut self.ranks, &mut self.rows, term, set)
    }

    /// Adds up equal terms that a few looks find, which are most of them.
    pub fn merge(&mut self, alloc: Global) -> Result<(), AllocError>
        ensures sums { OnOk result (HaveSameSum self.old self.new) }
        ensures each { (places : List ℕ) (level : ℕ) → AllByRecursion (IsLine places level) self.old → OnOk result (AllByRecursion (IsLine places level) self.new) }
        ensures kept { OnErr result (self.new ≡ self.old) }
    {
        if self.is_merged() {
            return Ok(());
        }
        merge_rows(alloc, self.ranks.as_slice(), &mut self.rows)?;
        self.merged = self.rows.len();
        Ok(())
    }

    /// Puts the bits of the terms together, if more than half of those in the list are of no term any more.
    pub fn pack(&mut self, alloc: Global) -> Result<(), AllocError>
        ensures { self.new ≡ self.old }
    {
        if self.ranks.len() / 2 <= used(self.rows.as_slice()) {
            return Ok(());
        }
        let mut packed = copied(alloc, self.ranks.as_slice(), self.rows.as_slice())?;
        packed.merged = self.merged;
        *self = packed;
        Ok(())
    }

    /// Takes the memory of a spare one in exchange for its own, if no terms stand here and that one has memory. Those of the spare
    /// one are let go.
    pub fn take_memory(&mut self, spare: &mut Bucket)
        ensures { self.new ≡ self.old }
    {
        if self.len() > 0 {
            return;
        }
        if spare.rows.capacity() == 0 {
            return;
        }
        self.clear();
        spare.clear();
        swap(self, spare);
    }

    /// Whether its memory is small enough to be kept for others.
    pub fn is_small(&self) -> bool {
        self.rows.capacity() <= SMALL && self.ranks.capacity() <= SMALL
    }

    // Whether nothing came since equal terms were added up.
    fn is_merged(&self) -> bool {
        self.rows.len() < 2 || self.rows.len() == self.merged
    }
}

// How many bits the terms of rows have, if they stand apart.
fn used(rows: &[Row]) -> usize {
    let mut used: usize = 0;
    for row in rows {
        used = used.saturating_add(row.stop.saturating_sub(row.start));
    }
    used
}

// The same terms, with their bits one behind the other.
fn copied(alloc: Global, ranks: &[u32], rows: &[Row]) -> Result<Bucket, AllocError>
    ensures { IfOk result (λ bucket. bucket ≡ lines_of ranks.now rows.now) }
{
    let mut bucket = Bucket::new(alloc);
    for row in rows {
        let term = Term {
            front: &[],
            back: bits_of(ranks, row),
            hash: row.hash,
            coefficient: row.coefficient,
        };
        bucket.push(&term, &[])?;
    }
    Ok(bucket)
}

// Adds one more row, of the product of a term and of a set of bits.
fn push_row(
    ranks: &mut Vec<u32>,
    rows: &mut Vec<Row>,
    term: &Term<'_>,
    set: &[u32],
) -> Result<(), AllocError>
    requires { AllByRecursion (IsInside ranks.old.items) rows.old.items }
    ensures inside { AllByRecursion (IsInside ranks.new.items) rows.new.items }
    ensures pushed { OnOk result (lines_of ranks.new.items rows.new.items ≡ lines_of ranks.old.items rows.old.items ++ product_of term.now set.now ∷ []) }
    ensures kept { OnErr result (lines_of ranks.new.items rows.new.items ≡ lines_of ranks.old.items rows.old.items) }
{
    let start = ranks.len();
    let added = add_union(ranks, term, set)?;
    let stop = ranks.len();
    rows.push(Row {
        start,
        stop,
        hash: term.hash ^ added,
        coefficient: term.coefficient,
    })?;
    Ok(())
}
