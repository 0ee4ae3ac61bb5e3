//! Terms that wait to be added to a polynomial, in no order. Most of them meet an equal one before, which a few looks into a
//! table find; so most of what cancels out never walks through an ordered map.
ghost use Rattle.std.specs.Prelude.{◌≡◌, ◌<◌, length, IfSome, IsTrue, OnOk, []};
ghost use Rattle.cert_check.specs.private.Waiting.{AddsAt, GrowsByTerm, HasMonomialAt, HaveRisingRanks, HaveSameSum, nonzero_of};

use crate::summand::Summand;
use poly_mixed::Mono;
use std::alloc::{AllocError, Global};
use std::marker::Model;

// So many places of the table are looked at for a monomial.
const LOOKS: usize = 8;

/// The table has at its places 0, or the number of a term, counted from 1; which of them it has decides how many equal terms
/// are found, and nothing else.
pub(crate) struct Waiting {
    list: Vec<Summand>,
    table: Vec<usize>,
    alloc: Global,
}

// By hand, so that a caller that lets one go makes one call, and not one for each part.
impl Drop for Waiting {
    fn drop(self) {
        let Waiting {
            list,
            table,
            alloc: _,
        } = self;
        drop(list);
        drop(table);
    }
}

impl Model for Waiting {
    ghost use Rattle.poly_mixed.specs.Polynomial.{Terms};
    ghost use Rattle.cert_check.specs.private.Waiting.{HaveRisingRanks};

    ghost Value = { Terms };

    ghost view = { λ w. w.list.items };

    ghost invariant = { λ w. HaveRisingRanks w.list.items };
}

impl Waiting {
    /// None. It takes no memory.
    pub(crate) fn none(alloc: Global) -> Waiting
        ensures { result ≡ [] }
    {
        Waiting {
            list: Vec::new(alloc),
            table: Vec::new(alloc),
            alloc,
        }
    }

    /// How many there are; those whose coefficient is 0 count too.
    pub(crate) fn len(&self) -> usize
        ensures { result ≡ length self.now }
    {
        self.list.len()
    }

    /// The terms.
    pub(crate) fn as_slice(&self) -> &[Summand]
        ensures value { result.now ≡ self.now }
        ensures rising { HaveRisingRanks self.now }
    {
        self.list.as_slice()
    }

    /// Adds a term. After running out of memory it is not used again.
    pub(crate) fn add(&mut self, mono: Mono, c: u64) -> Result<(), AllocError>
        ensures { OnOk result (GrowsByTerm self.old self.new (mono, c)) }
    {
        let hash = hash(&mono);
        match find(self.list.as_slice(), self.table.as_slice(), &mono, hash) {
            Some(i) => {
                add_at(&mut self.list, i, c);
                Ok(())
            }
            None => self.push(mono, c, hash),
        }
    }

    // Adds a term as one of its own.
    fn push(&mut self, mono: Mono, c: u64, hash: u64) -> Result<(), AllocError>
        ensures { OnOk result (GrowsByTerm self.old self.new (mono, c)) }
    {
        let _rising = mono.bits();
        self.list.push(Summand::new(mono, c))?;
        if self.list.len() > self.table.len() / 2 {
            return self.tidy();
        }
        note(self.table.as_mut_slice(), hash, self.list.len());
        Ok(())
    }

    // Lets those go whose coefficient is 0, and notes the others in a table that has room for them.
    fn tidy(&mut self) -> Result<(), AllocError>
        ensures { OnOk result (HaveSameSum self.old self.new) }
    {
        drop_zeros(&mut self.list);
        let size = self.list.len().saturating_mul(4).max(64);
        let mut table = vec![in self.alloc; 0; size]?;
        note_all(self.list.as_slice(), table.as_mut_slice());
        self.table = table;
        Ok(())
    }
}

// A hash of a monomial.
fn hash(mono: &Mono) -> u64 {
    let ranks = hash_of_ranks(mono.bits());
    hash_of_exponents(ranks, mono.exponents())
}

// A hash of ranks.
fn hash_of_ranks(ranks: &[u32]) -> u64 {
    let mut hash = 0;
    for rank in ranks {
        hash = (hash ^ u64::from(*rank)).wrapping_mul(0x9e3779b97f4a7c15);
    }
    hash
}

// A hash of what was hashed and of exponents.
fn hash_of_exponents(start: u64, exponents: &[u64; 8]) -> u64 {
    let mut hash = start;
    for exponent in exponents {
        hash = (hash ^ *exponent).wrapping_mul(0x9e3779b97f4a7c15);
    }
    hash
}

// The first place of a table in which a term of this hash is looked for.
fn first_look(table: &[usize], hash: u64) -> usize {
    (hash >> 32) as usize % table.len().max(1)
}

// Whether the term at an index is seen to be of the monomial.
fn is_at(list: &[Summand], index: usize, mono: &Mono) -> bool
    ensures { IsTrue result → HasMonomialAt list.now index mono.now }
{
    match list.get(index) {
        Some(summand) => summand.is_of(mono),
        None => false,
    }
}

// The index of a term of the monomial, if a few looks into the table find it.
fn find(list: &[Summand], table: &[usize], mono: &Mono, hash: u64) -> Option<usize>
    ensures { IfSome result (λ i. HasMonomialAt list.now i mono.now) }
{
    let mut place = first_look(table, hash);
    for _ in 0..LOOKS {
        let number = match table.get(place) {
            Some(number) => *number,
            None => 0,
        };
        if number == 0 {
            return None;
        }
        if is_at(list, number - 1, mono) {
            return Some(number - 1);
        }
        place = place.wrapping_add(1);
    }
    None
}

// Puts the number of a term into the table, if a few looks find an empty place.
fn note(table: &mut [usize], hash: u64, number: usize) {
    let mut place = first_look(table, hash);
    for _ in 0..LOOKS {
        match table.get_mut(place) {
            Some(there) => {
                if *there == 0 {
                    *there = number;
                    return;
                }
            }
            None => return,
        }
        place = place.wrapping_add(1);
    }
}

// Puts the numbers of all terms into the table.
fn note_all(list: &[Summand], table: &mut [usize]) {
    for i in 0..list.len() {
        note(table, hash(list[i].mono()), i + 1);
    }
}

// Lets those terms go whose coefficient is 0.
fn drop_zeros(list: &mut Vec<Summand>)
    ensures { list.new.items ≡ nonzero_of list.old.items }
{
    list.retain(|summand| summand.coefficient() != 0);
}

// Adds to the coefficient of the term at an index.
fn add_at(list: &mut Vec<Summand>, i: usize, c: u64)
    requires { i < length list.old.items }
    ensures { AddsAt list.old.items list.new.items i c }
{
    list[i].add(c);
}
