//! Keys of the terms of a cut.
ghost use Rattle.std.specs.Prelude.{◌≡◌, ◌≤◌, ◌∷◌, [], length, take, refl, IsTrue};
ghost use Rattle.std.specs.Cmp.{partial_order_from_total, partial_equiv_from_equiv, eq_by_cmp_equiv};
ghost use Rattle.std.specs.List.{AllByRecursion};
ghost use Rattle.std.specs.Ordering.{eq_by_cmp, as_partial_cmp};
ghost use Rattle.rato_reduce.specs.private.CutKey.{CutKey, place_at, first_from, hash_from, key_of, key_cmp, key_cmp_total};

use crate::ranks::Ranks;
use std::cmp::Ordering;
use std::marker::Model;

/// The bits of a term, with the place in the order of elimination that is the first of theirs, and a hash of them.
#[derive(Drop)]
pub struct Key {
    first: u32,
    hash: u64,
    bits: Ranks,
}

impl Model for Key {
    ghost use Rattle.rato_reduce.specs.private.CutKey.{CutKey};

    ghost Value = { CutKey };

    ghost view = { λ k. record { first = k.first; hash = k.hash; bits = k.bits } };
}

impl Key {
    /// The key of these bits, where `places` has the place of each rank.
    pub fn new(places: &[u32], bits: Ranks) -> Key
        ensures { result ≡ key_of places.now bits }
    {
        Key {
            first: first_place(places, bits.as_slice()),
            hash: hash(bits.as_slice()),
            bits,
        }
    }

    /// The first place of its bits.
    pub fn first(&self) -> u32
        ensures { result ≡ self.now.first }
    {
        self.first
    }

    /// Its bits.
    pub fn bits(&self) -> &Ranks
        ensures { result.now ≡ self.now.bits }
    {
        &self.bits
    }

    /// Whether it is of this bit alone.
    pub fn is_only(&self, rank: u32) -> bool
        ensures { IsTrue result → self.now.bits ≡ rank ∷ [] }
    {
        self.bits.is_only(rank)
    }

    /// Makes that of one bit that of another.
    pub fn set_only(&mut self, places: &[u32], rank: u32)
        requires { length self.old.bits ≡ 1 }
        ensures { self.new ≡ key_of places.now (rank ∷ []) }
    {
        self.bits.set_only(rank);
        self.first = first_place(places, &[rank]);
        self.hash = hash(&[rank]);
    }

    /// Its bits, of a key that is let go.
    pub fn into_bits(self) -> Ranks
        ensures { result ≡ self.bits }
    {
        self.bits
    }
}

/// The place of a rank, and of one without a place the greatest number.
pub fn place_of(places: &[u32], rank: u32) -> u32
    ensures { result ≡ place_at places.now rank }
{
    match places.get(rank as usize) {
        Some(place) => *place,
        None => u32::MAX,
    }
}

/// The first of the places of ranks.
pub fn first_place(places: &[u32], ranks: &[u32]) -> u32
    ensures { result ≡ first_from places.now 4294967295 ranks.now }
{
    let mut first = u32::MAX;
    for rank in ranks {
        let place = place_of(places, *rank);
        if place < first {
            first = place;
        }
    }
    first
}

// The lesser of two places.
fn lesser_of(one: u32, other: u32) -> u32
    ensures one { result ≤ one }
    ensures other { result ≤ other }
{
    if one < other { one } else { other }
}

/// The index of the first rank that is not below another one, and the first of the places of those before it. Which index it is
/// decides about time alone.
pub fn first_below(places: &[u32], ranks: &[u32], rank: u32) -> (usize, u32)
    ensures within { result.0 ≤ length ranks.now }
    ensures each { AllByRecursion (λ r. result.1 ≤ place_at places.now r) (take result.0 ranks.now) }
{
    let mut at = 0;
    let mut first = u32::MAX;
    while at < ranks.len() && ranks[at] < rank {
        first = lesser_of(first, place_of(places, ranks[at]));
        at += 1;
    }
    (at, first)
}

/// A hash of ranks.
pub fn hash(ranks: &[u32]) -> u64
    ensures { result ≡ hash_from 0 ranks.now }
{
    let mut hash = 0;
    for rank in ranks {
        hash = (hash ^ u64::from(*rank)).wrapping_mul(0x9e3779b97f4a7c15);
    }
    hash
}

impl PartialEq for Key {
    ghost eq = { eq_by_cmp key_cmp };

    ghost laws = { partial_equiv_from_equiv (eq_by_cmp_equiv key_cmp_total) };

    fn eq(&self, other: &Key) -> bool {
        self.cmp(other) == Ordering::Equal
    }
}

impl Eq for Key {
    ghost laws = { eq_by_cmp_equiv key_cmp_total };
}

impl Ord for Key {
    ghost cmp = { key_cmp };

    ghost total = { key_cmp_total };

    ghost matches_partial_cmp = { λ x y. refl };

    ghost matches_eq = { λ x y. refl };

    fn cmp(&self, other: &Key) -> Ordering {
        match other.first.cmp(&self.first) {
            Ordering::Equal => {}
            decided => return decided,
        }
        match self.hash.cmp(&other.hash) {
            Ordering::Equal => {}
            decided => return decided,
        }
        self.bits.as_slice().cmp(&other.bits.as_slice())
    }
}

impl PartialOrd for Key {
    ghost partial_cmp = { as_partial_cmp key_cmp };

    ghost laws = { partial_order_from_total key_cmp_total };

    fn partial_cmp(&self, other: &Key) -> Option<Ordering> {
        Some(self.cmp(other))
    }
}
