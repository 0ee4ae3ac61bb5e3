//! Terms in lists by the level of their bits. A `Term` has its bits somewhere else, a `PolyTerm` owns them: it is what is given
//! at the end.
ghost use Rattle.std.specs.Prelude.{◌≡◌, ◌≢◌, ◌+◌, ◌++◌, ◌∷◌, ◌<◌, ◌≤◌, ℕ, [], length, take, IsTrue, IfOk, IfSome, IfNone, OnOk, OnErr};
ghost use Rattle.std.specs.List.{AllByRecursion};
ghost use Rattle.std.specs.List.Sorted.{IsStrictlySortedBy};
ghost use Rattle.std.specs.Ordering.{nat_cmp};
ghost use Rattle.poly_mixed.specs.Cofactor.{cofactors, lacking};
ghost use Rattle.poly_mixed.specs.Monomial.{text_cmp};
ghost use Rattle.poly_mixed.specs.Sum.{plus, plus_term};
ghost use Rattle.rato_reduce.specs.private.Buckets.{joined, AreOut, AreUpTo, HasTermAt, AreTaken, IsCounted, IsMerged, IsMergedAt, StayLevelled};
ghost use Rattle.rato_reduce.specs.private.CutTerms.{of_bits, IsBitTerm};
ghost use Rattle.rato_reduce.specs.private.Rows.{product_of, term_bits};

use crate::bucket::Bucket;
use crate::key::{first_below, first_place, place_of};
use crate::listed::sum_of_lists;
use crate::stop::Stop;
use crate::term::Term;
use poly_mixed::Term as PolyTerm;
use std::alloc::{AllocError, Global};
use std::marker::Model;
use std::mem::swap;

// So many times all lists may be merged.
const MERGES: u32 = 64;

/// A polynomial in bits, whose terms stand in lists by the greatest level of their bits: those with the bit that is eliminated
/// first stand in the last list. `places` has the place of each rank in the order of elimination. Equal terms stand apart until
/// their list is taken or merged; the count is that of all, and once it is at its end it says nothing. The memory of a short list
/// that was taken is kept for the next one that gets a term.
#[derive(Drop)]
pub struct Buckets {
    places: Vec<u32>,
    list: Vec<Bucket>,
    spare: Bucket,
    count: u64,
    merges: u32,
    alloc: Global,
}

impl Model for Buckets {
    ghost use Rattle.std.specs.Prelude.{length};
    ghost use Rattle.rato_reduce.specs.private.Buckets.{joined, joined_polynomial, AreLevelled, IsCounted, ListedPolynomial};

    ghost Value = { ListedPolynomial };

    ghost view = { λ b. joined_polynomial b.places.items b.list.items };

    ghost invariant = { λ b. AreLevelled b.places.items 0 b.list.items × IsCounted b.count (length (joined b.list.items)) };
}

impl Buckets {
    /// The polynomial without terms.
    pub fn new(alloc: Global, places: Vec<u32>) -> Buckets
        ensures { result.terms ≡ [] }
    {
        Buckets {
            places,
            list: Vec::new(alloc),
            spare: Bucket::new(alloc),
            count: 0,
            merges: 0,
            alloc,
        }
    }

    /// Whether it is seen at once that it has at most so many terms.
    pub fn is_within(&self, bound: u32) -> bool
        ensures { IsTrue result → length self.now.terms ≤ bound }
    {
        self.count <= u64::from(bound)
    }

    /// Adds a term of rising bits. After running out of memory it is not used again.
    pub fn add(&mut self, bits: &[u32], hash: u64, c: u64) -> Result<(), AllocError>
        requires rising { IsStrictlySortedBy nat_cmp bits.now }
        requires some { c ≢ 0 }
        ensures { OnOk result (self.new.terms ≡ plus_term text_cmp self.old.terms (of_bits bits.now, c)) }
    {
        let level = self.level_for(bits);
        let term = Term {
            front: &[],
            back: bits,
            hash,
            coefficient: c,
        };
        self.add_at(level, &term, &[])
    }

    /// A level up to which these bits are.
    pub fn level_for(&self, bits: &[u32]) -> usize
        ensures { AreUpTo self.now.places result bits.now }
    {
        let places = self.places.as_slice();
        places
            .len()
            .saturating_sub(first_place(places, bits) as usize)
    }

    /// The index of the first bit that is not below a rank, and a level up to which those before it are. Which index it is decides
    /// about time alone.
    pub fn level_below(&self, bits: &[u32], rank: u32) -> (usize, usize)
        ensures within { result.0 ≤ length bits.now }
        ensures up_to { AreUpTo self.now.places result.1 (take result.0 bits.now) }
    {
        let places = self.places.as_slice();
        let (at, first) = first_below(places, bits, rank);
        (at, places.len().saturating_sub(first as usize))
    }

    /// Adds the product of a term of rising bits and of a set of bits, all up to a level. After running out of memory it is not
    /// used again.
    pub fn add_at(&mut self, level: usize, term: &Term<'_>, set: &[u32]) -> Result<(), AllocError>
        requires up_to { AreUpTo self.old.places level (term_bits term.now) }
        requires set { AreUpTo self.old.places level set.now }
        requires rising { IsStrictlySortedBy nat_cmp (term_bits term.now) }
        requires some { term.now.coefficient ≢ 0 }
        ensures sum { OnOk result (self.new.terms ≡ plus_term text_cmp self.old.terms (product_of term.now set.now)) }
        ensures places { self.new.places ≡ self.old.places }
    {
        raise(self.alloc, &mut self.list, level)?;
        self.count = more(self.count, 1);
        push_at(self.list.as_mut_slice(), &mut self.spare, level, term, set)
    }

    /// Takes out the list of the terms with the bit, in place of what `part` held. Equal ones may stand there apart; whether all
    /// have the bit is not seen. After a stop neither is used again.
    pub fn take_list(&mut self, rank: u32, part: &mut Bucket) -> Result<(), Stop>
        ensures left { OnOk result (lacking rank part.new ≡ [] → self.new.terms ≡ lacking rank self.old.terms) }
        ensures part { OnOk result (lacking rank part.new ≡ [] → plus text_cmp [] (cofactors rank part.new) ≡ cofactors rank self.old.terms) }
        ensures each { OnOk result (AllByRecursion IsBitTerm part.new) }
    {
        part.clear();
        let places = self.places.as_slice();
        let level = places.len().saturating_sub(place_of(places, rank) as usize);
        take_last(
            self.alloc,
            &mut self.list,
            &mut self.spare,
            &mut self.count,
            level,
            part,
        )
    }

    /// Adds up equal terms, from the list on that is taken first, until it is seen that there are at most so many, or this was
    /// done too often. After running out of memory it is not used again.
    pub fn merge(&mut self, bound: u32) -> Result<(), AllocError>
        ensures { OnOk result (self.new.terms ≡ self.old.terms) }
    {
        if self.is_within(bound) || self.merges >= MERGES {
            return Ok(());
        }
        self.merges += 1;
        let lists = self.list.len();
        for i in (0..lists).rev() {
            self.merge_list(i, bound)?;
        }
        Ok(())
    }

    // Adds up equal terms of a list, if there is this one and there may be more terms than the bound.
    fn merge_list(&mut self, i: usize, bound: u32) -> Result<(), AllocError>
        ensures { OnOk result (self.new.terms ≡ self.old.terms) }
    {
        if i >= self.list.len() || self.is_within(bound) {
            return Ok(());
        }
        let count = merge_at(self.alloc, self.list.as_mut_slice(), i, self.count)?;
        self.count = count;
        Ok(())
    }

    /// The terms of the polynomial, in the order of a text.
    pub fn to_terms(&self) -> Result<Vec<PolyTerm>, AllocError>
        ensures { IfOk result (λ v. v.items ≡ self.now.terms) }
    {
        let terms = sum_of_lists(self.alloc, self.list.as_slice())?;
        Ok(terms)
    }
}

// Takes the last list, if it is of this level or of a greater one.
fn pop_from(list: &mut Vec<Bucket>, level: usize) -> Option<Bucket>
    ensures some { IfSome result (λ bucket. list.old.items ≡ list.new.items ++ bucket ∷ []) }
    ensures none { IfNone result ((list.new.items ≡ list.old.items) × (length list.old.items ≤ level)) }
{
    if list.len() <= level {
        return None;
    }
    list.pop()
}

// Takes the list of this level, if there is one, in place of the part.
fn take_last(
    alloc: Global,
    list: &mut Vec<Bucket>,
    spare: &mut Bucket,
    count: &mut u64,
    level: usize,
    part: &mut Bucket,
) -> Result<(), Stop>
    requires { part.old ≡ [] }
    ensures taken { OnOk result (AreOut list.old.items list.new.items part.new) }
    ensures rest { OnOk result (length list.new.items ≤ level) }
    ensures levelled { StayLevelled list.old.items list.new.items }
    ensures counted { IsCounted count.old (length (joined list.old.items)) → IsCounted count.new (length (joined list.new.items)) }
{
    match pop_from(list, level) {
        None => Ok(()),
        Some(bucket) => {
            *count = fewer(*count, bucket.len());
            if list.len() > level {
                return Err(Stop::GivesUp);
            }
            take_all(alloc, bucket, spare, part)
        }
    }
}

// Puts a list in place of the part, after equal terms were added up. The part's memory is kept, if it is small.
fn take_all(
    alloc: Global,
    mut bucket: Bucket,
    spare: &mut Bucket,
    part: &mut Bucket,
) -> Result<(), Stop>
    ensures { OnOk result (AreTaken bucket part.new) }
{
    bucket.merge(alloc)?;
    swap(part, &mut bucket);
    keep(spare, bucket);
    Ok(())
}

// Keeps the memory of a list in place of another one's, if it is small.
fn keep(spare: &mut Bucket, bucket: Bucket) {
    if bucket.is_small() {
        *spare = bucket;
    }
}

// The count of more things.
fn more(count: u64, n: usize) -> u64
    ensures { (m : ℕ) → IsCounted count m → IsCounted result (m + n) }
{
    count.saturating_add(n as u64)
}

// The count of fewer things.
fn fewer(count: u64, n: usize) -> u64
    ensures { (m : ℕ) → IsCounted count (m + n) → IsCounted result m }
{
    if count == u64::MAX {
        return count;
    }
    count.saturating_sub(n as u64)
}

// Adds empty lists until there is one of this level.
fn raise(alloc: Global, list: &mut Vec<Bucket>, level: usize) -> Result<(), AllocError>
    ensures high { OnOk result (level < length list.new.items) }
    ensures joined { joined list.new.items ≡ joined list.old.items }
    ensures levelled { StayLevelled list.old.items list.new.items }
{
    while list.len() <= level {
        list.push(Bucket::new(alloc))?;
    }
    Ok(())
}

// Adds the product of a term and of a set of bits to the list at an index.
fn push_at(
    list: &mut [Bucket],
    spare: &mut Bucket,
    i: usize,
    term: &Term<'_>,
    set: &[u32],
) -> Result<(), AllocError>
    requires { i < length list.old }
    ensures pushed { OnOk result (HasTermAt list.old list.new i (product_of term.now set.now)) }
    ensures kept { OnErr result (list.new ≡ list.old) }
{
    push_to(&mut list[i], spare, term, set)
}

// Adds the product of a term and of a set of bits to a list, which may take the memory of a spare one.
fn push_to(
    bucket: &mut Bucket,
    spare: &mut Bucket,
    term: &Term<'_>,
    set: &[u32],
) -> Result<(), AllocError>
    ensures pushed { OnOk result (bucket.new ≡ bucket.old ++ product_of term.now set.now ∷ []) }
    ensures kept { OnErr result (bucket.new ≡ bucket.old) }
{
    bucket.take_memory(spare);
    bucket.push(term, set)
}

// Adds up equal terms of a list, and gives the count after that.
fn merge_counted(alloc: Global, bucket: &mut Bucket, count: u64) -> Result<u64, AllocError>
    ensures merged { IfOk result (λ n. IsMerged bucket.old bucket.new count n) }
    ensures kept { OnErr result (bucket.new ≡ bucket.old) }
{
    let before = bucket.len();
    bucket.pack(alloc)?;
    bucket.merge(alloc)?;
    let others = fewer(count, before);
    Ok(more(others, bucket.len()))
}

// The same of the list at an index.
fn merge_at(alloc: Global, list: &mut [Bucket], i: usize, count: u64) -> Result<u64, AllocError>
    requires { i < length list.old }
    ensures merged { IfOk result (λ n. IsMergedAt list.old list.new i count n) }
    ensures kept { OnErr result (list.new ≡ list.old) }
{
    merge_counted(alloc, &mut list[i], count)
}
