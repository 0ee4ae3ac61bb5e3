//! The sum of a word's terms, read from the word: a polynomial in the word for each monomial in other words and bits.
ghost use Rattle.std.specs.Prelude.{◌≡◌, ◌≢◌, ◌<◌, ◌^◌, [], IfOk, OnOk, OnErr};
ghost use Rattle.std.specs.List.{AllByRecursion};
ghost use Rattle.std.specs.List.Sorted.{IsStrictlySortedBy};
ghost use Rattle.std.specs.Map.{keys_of};
ghost use Rattle.poly_mixed.specs.Monomial.{text_cmp};
ghost use Rattle.poly_mixed.specs.Sum.{plus};
ghost use Rattle.word_subst.specs.Univariate.{IsUnivariate};
ghost use Rattle.word_subst.specs.Spread.{total, spread, all_terms, IsGroup, IsRest, IsAdded, AddsGroup};

use crate::univariate::Univariate;
use gf_field::Field;
use poly_mixed::{Mono, Poly};
use std::alloc::{AllocError, Global};
use std::collections::BTreeMap;
use std::collections::btree_map::Entry;
use std::marker::Model;

/// Polynomials in one word, by the monomials that they are multiplied with, and how many terms they have together.
#[derive(Drop)]
pub struct Sums {
    map: BTreeMap<Mono, Univariate>,
    size: usize,
}

impl Model for Sums {
    ghost use Rattle.std.specs.Prelude.{◌≡◌};
    ghost use Rattle.word_subst.specs.Spread.{Groups, total};

    ghost Value = { Groups };

    ghost view = { λ s. s.map.entries };

    ghost invariant = { λ s. s.size ≡ total s.map.entries };
}

// Adds a polynomial to that of its monomial. Gives how many powers there were before and are now.
fn add_to<F: Field>(
    map: &mut BTreeMap<Mono, Univariate>,
    alloc: Global,
    field: &F,
    rest: Mono,
    part: Univariate,
) -> Result<(usize, usize), AllocError>
    requires old { AllByRecursion (λ g. IsUnivariate (F.degree field.now) g.1) map.old.entries }
    requires part { IsUnivariate (F.degree field.now) part }
    ensures added { IfOk result (λ sizes. IsAdded (F.degree field.now) (F.product field.now) rest part map.old.entries map.new.entries sizes.0 sizes.1) }
    ensures unchanged { OnErr result (map.new.entries ≡ map.old.entries) }
{
    match map.entry(rest)? {
        Entry::Vacant(entry) => {
            let after = part.len();
            entry.insert(part);
            Ok((0, after))
        }
        Entry::Occupied(mut entry) => {
            let before = entry.get().len();
            let sum = entry.get().plus(alloc, field, &part)?;
            let after = sum.len();
            entry.insert(sum);
            Ok((before, after))
        }
    }
}

/// Adds each power of the word times a monomial without it.
pub fn add_spread(
    alloc: Global,
    poly: &mut Poly,
    word: u32,
    rest: &Mono,
    powers: &Univariate,
) -> Result<(), AllocError>
    requires word { word < 8 }
    requires some { AllByRecursion (λ t. t.1 ≢ 0) powers.now }
    ensures { OnOk result (poly.new.terms ≡ plus text_cmp poly.old.terms (spread word rest.now powers.now)) }
{
    for (exponent, c) in powers.powers() {
        let mut exponents = *rest.exponents();
        exponents[word as usize] = *exponent;
        let mono = Mono::new(alloc, rest.bits(), &exponents)?;
        poly.add_term(mono, *c)?;
    }
    Ok(())
}

/// The polynomial of each power of the word times a monomial without it.
pub fn spread_poly(
    alloc: Global,
    word: u32,
    rest: &Mono,
    powers: &Univariate,
) -> Result<Poly, AllocError>
    requires word { word < 8 }
    requires some { AllByRecursion (λ t. t.1 ≢ 0) powers.now }
    ensures { IfOk result (λ q. q.terms ≡ plus text_cmp [] (spread word rest.now powers.now)) }
{
    let mut poly = Poly::zero(alloc);
    add_spread(alloc, &mut poly, word, rest, powers)?;
    Ok(poly)
}

impl Sums {
    /// No terms.
    pub fn zero(alloc: Global) -> Sums
        ensures { result ≡ [] }
    {
        Sums {
            map: BTreeMap::new(alloc),
            size: 0,
        }
    }

    /// The size: how many terms all have together.
    pub fn len(&self) -> usize
        ensures { result ≡ total self.now }
    {
        self.size
    }

    /// Adds a polynomial in the word times a monomial without it.
    pub fn add<F: Field>(
        &mut self,
        alloc: Global,
        field: &F,
        word: u32,
        rest: Mono,
        part: Univariate,
    ) -> Result<(), AllocError>
        requires word { word < 8 }
        requires groups { AllByRecursion (IsGroup word (F.degree field.now)) self.old }
        requires rest { IsRest word (F.degree field.now) rest }
        requires part { IsUnivariate (F.degree field.now) part }
        requires few { total self.old < 2 ^ 32 }
        ensures groups { OnOk result (AllByRecursion (IsGroup word (F.degree field.now)) self.new) }
        ensures ordered { OnOk result (IsStrictlySortedBy text_cmp (keys_of self.new)) }
        ensures values { OnOk result (AddsGroup (F.degree field.now) (F.product field.now) word rest part self.old self.new) }
    {
        let _was_ordered = self.map.len();
        let _few = part.len();
        let (before, after) = add_to(&mut self.map, alloc, field, rest, part)?;
        self.size = self.size - before + after;
        let _ordered = self.map.len();
        Ok(())
    }

    /// The polynomial of all terms.
    pub fn to_poly(&self, alloc: Global, word: u32) -> Result<Poly, AllocError>
        requires word { word < 8 }
        requires some { AllByRecursion (λ g. AllByRecursion (λ t. t.1 ≢ 0) g.1) self.now }
        ensures { IfOk result (λ q. q.terms ≡ plus text_cmp [] (all_terms word self.now)) }
    {
        let mut poly = Poly::zero(alloc);
        for (rest, powers) in &self.map {
            add_spread(alloc, &mut poly, word, rest, powers)?;
        }
        Ok(poly)
    }
}
