//! Polynomials as finite maps from monomials to coefficients.
ghost use Rattle.std.specs.Prelude.{◌≡◌, ℕ, ◌<◌, ◌^◌, ◌≢◌, length, IfOk, IfSome, IfNone, OnOk, ◌↔◌, bit_xor, true, []};
ghost use Rattle.std.specs.List.{AllByRecursion, list_any};
ghost use Rattle.std.specs.Option.{option_map};
ghost use Rattle.std.specs.List.Sorted.{IsStrictlySortedBy};
ghost use Rattle.std.specs.Ordering.{nat_cmp};
ghost use Rattle.poly_mixed.specs.Monomial.{Monomial, has_bit, text_cmp};
ghost use Rattle.poly_mixed.specs.private.Indexed.{terms_in, IsIndexed, IsTaken};
ghost use Rattle.poly_mixed.specs.Slots.{AreSlotsOf, IsListOf, term_in};
ghost use Rattle.poly_mixed.specs.Polynomial.{Point, coefficient, IsElement, IsMap, IsReduced, IsTerm, IsPoint, point, value};
ghost use Rattle.poly_mixed.specs.Cofactor.{cofactors, lacking, LacksBit, IsCofactor, HasCofactorValues, IsSubstituted};
ghost use Rattle.poly_mixed.specs.Product.{IsProduct, AddsProduct};
ghost use Rattle.poly_mixed.specs.Sum.{with_coefficient, plus_term, plus};

use crate::evaluate::term_value;
use crate::index::Index;
use crate::place::Place;
use crate::{Mono, Term};
use gf_field::Field;
use std::alloc::{AllocError, Global};
use std::collections::BTreeMap;
use std::collections::btree_map::Entry;
use std::marker::Model;

/// A polynomial over a field, always reduced: a finite map from monomials to elements that are not 0.
pub struct Poly {
    map: BTreeMap<Mono, Place>,
    index: Index,
    alloc: Global,
}

impl Model for Poly {
    ghost use Rattle.poly_mixed.specs.Polynomial.{Polynomial};
    ghost use Rattle.poly_mixed.specs.private.Indexed.{terms_in, IsIndexed};

    ghost Value = { Polynomial };

    ghost view = { λ p. record { terms = terms_in p.map.entries; slots = p.index } };

    ghost invariant = { λ p. IsIndexed p.map.entries p.index };
}

// By hand, so that a caller that lets one go makes one call, and not one for each part.
impl Drop for Poly {
    fn drop(self) {
        let Poly {
            map,
            index,
            alloc: _,
        } = self;
        drop(map);
        drop(index);
    }
}

impl Poly {
    /// The polynomial without terms.
    pub fn zero(alloc: Global) -> Poly
        ensures { result.terms ≡ [] }
    {
        Poly {
            map: BTreeMap::new(alloc),
            index: Index::new(alloc),
            alloc,
        }
    }

    /// The size: how many terms it has.
    pub fn len(&self) -> usize
        ensures { result ≡ length self.now.terms }
    {
        self.map.len()
    }

    /// The polynomial of one term, or of none if the coefficient is 0.
    pub fn term<F: Field>(
        alloc: Global,
        _field: &F,
        coefficient: u64,
        mono: Mono,
    ) -> Result<Poly, AllocError>
        requires { IsTerm (F.degree _field.now) (mono, coefficient) }
        ensures { IfOk result (λ p. p.terms ≡ with_coefficient mono coefficient []) }
    {
        let mut poly = Poly::zero(alloc);
        if coefficient != 0 {
            poly.add_term(mono, coefficient)?;
        }
        Ok(poly)
    }

    /// Adds another polynomial to it; both are over the field, with coefficients and exponents below 2^k.
    /// After running out of memory the polynomial is not used again.
    pub fn add_into<F: Field>(&mut self, _field: &F, other: &Poly) -> Result<(), AllocError>
        requires over { IsReduced (F.degree _field.now) self.old.terms }
        requires other_over { IsReduced (F.degree _field.now) other.now.terms }
        ensures reduced { OnOk result (IsReduced (F.degree _field.now) self.new.terms) }
        ensures map { OnOk result ((m : Monomial) → coefficient self.new.terms m ≡ bit_xor (coefficient self.old.terms m) (coefficient other.now.terms m)) }
        ensures values { OnOk result ((p : Point) → IsPoint (F.degree _field.now) p → value (F.product _field.now) p self.new.terms ≡ bit_xor (value (F.product _field.now) p self.old.terms) (value (F.product _field.now) p other.now.terms)) }
    {
        self.add_terms(other)
    }

    fn add_terms(&mut self, other: &Poly) -> Result<(), AllocError>
        ensures { OnOk result (self.new.terms ≡ plus text_cmp self.old.terms other.now.terms) }
    {
        for (mono, place) in &other.map {
            self.add_term(mono.copied()?, place.coefficient)?;
        }
        Ok(())
    }

    /// Adds a term, whose coefficient is not 0. After running out of memory the polynomial is not used again.
    pub fn add_term(&mut self, mono: Mono, c: u64) -> Result<(), AllocError>
        requires { c ≢ 0 }
        ensures { OnOk result (self.new.terms ≡ plus_term text_cmp self.old.terms (mono, c)) }
    {
        let _rising = mono.bits();
        match add_to(&mut self.map, &mut self.index, mono, c) {
            Ok(()) => Ok(()),
            Err(fault) => {
                self.map.clear();
                self.index = Index::new(self.alloc);
                Err(fault)
            }
        }
    }

    /// The reduced polynomial of the product's values; both are over the field, with coefficients and exponents below 2^k.
    pub fn mul<F: Field>(&self, alloc: Global, field: &F, other: &Poly) -> Result<Poly, AllocError>
        requires over { IsReduced (F.degree field.now) self.now.terms }
        requires other_over { IsReduced (F.degree field.now) other.now.terms }
        ensures reduced { IfOk result (λ q. IsReduced (F.degree field.now) q.terms) }
        ensures values { IfOk result (λ q. IsProduct (F.degree field.now) (F.product field.now) q.terms self.now.terms other.now.terms) }
    {
        let mut out = Poly::zero(alloc);
        for (mono, place) in &self.map {
            out.add_product(field, mono, place.coefficient, other)?;
        }
        Ok(out)
    }

    // Adds the multiple of another polynomial by one coefficient and one monomial. All products of coefficients are made
    // here, by a table of the coefficient.
    fn add_product<F: Field>(
        &mut self,
        field: &F,
        mono: &Mono,
        c: u64,
        other: &Poly,
    ) -> Result<(), AllocError>
        requires over { IsReduced (F.degree field.now) self.old.terms }
        requires other_over { IsReduced (F.degree field.now) other.now.terms }
        requires term { IsTerm (F.degree field.now) (mono.now, c) × (c ≢ 0) }
        ensures reduced { OnOk result (IsReduced (F.degree field.now) self.new.terms) }
        ensures values { OnOk result (AddsProduct (F.degree field.now) (F.product field.now) (mono.now, c) other.now.terms self.old.terms self.new.terms) }
    {
        let k = field.k();
        let table = field.times(c);
        for (n, place) in &other.map {
            let product = field.by(&table, place.coefficient);
            self.add_term(mono.times(n, k)?, product)?;
        }
        Ok(())
    }

    /// The terms with the bit, without it.
    pub fn cofactor(&self, alloc: Global, bit: u32) -> Result<Poly, AllocError>
        ensures map { IfOk result (λ q. IsCofactor bit self.now.terms q.terms) }
        ensures reduced { (k : ℕ) → IsReduced k self.now.terms → IfOk result (λ q. IsReduced k q.terms) }
        ensures values { (mul : ℕ → ℕ → ℕ) → IfOk result (λ q. HasCofactorValues mul bit self.now.terms q.terms) }
        ensures stands { IfOk result (λ q. LacksBit bit self.now.terms ↔ (q.terms ≡ [])) }
    {
        self.with_bit(alloc, bit)
    }

    // The terms with the bit, without it, in their order.
    fn with_bit(&self, alloc: Global, bit: u32) -> Result<Poly, AllocError>
        ensures terms { IfOk result (λ q. q.terms ≡ cofactors bit self.now.terms) }
        ensures map { IsMap self.now.terms }
    {
        let mut out = Poly::zero(alloc);
        for (mono, place) in &self.map {
            if mono.has(bit) {
                out.add_term(mono.without(bit)?, place.coefficient)?;
            }
        }
        Ok(out)
    }

    /// Takes out the terms with the bit, and gives them without it.
    /// After running out of memory the polynomial is not used again.
    pub fn take_cofactor(&mut self, alloc: Global, bit: u32) -> Result<Poly, AllocError>
        ensures map { IfOk result (λ q. IsCofactor bit self.old.terms q.terms) }
        ensures reduced { (k : ℕ) → IsReduced k self.old.terms → IfOk result (λ q. IsReduced k q.terms) }
        ensures values { (mul : ℕ → ℕ → ℕ) → IfOk result (λ q. HasCofactorValues mul bit self.old.terms q.terms) }
        ensures stands { IfOk result (λ q. LacksBit bit self.old.terms ↔ (q.terms ≡ [])) }
        ensures left { OnOk result (self.new.terms ≡ lacking bit self.old.terms) }
    {
        self.take_bit(alloc, bit)
    }

    // The same, term by term.
    fn take_bit(&mut self, alloc: Global, bit: u32) -> Result<Poly, AllocError>
        ensures terms { IfOk result (λ q. q.terms ≡ cofactors bit self.old.terms) }
        ensures left { OnOk result (self.new.terms ≡ lacking bit self.old.terms) }
        ensures map { IsMap self.old.terms }
    {
        let _ = &self.map;
        let mut part = Poly::zero(alloc);
        while let Some((mut mono, c)) = self.take_last(bit) {
            mono.drop_bit(bit);
            part.add_term(mono, c)?;
        }
        Ok(part)
    }

    // Takes out the term with the bit that has the greatest slot.
    fn take_last(&mut self, bit: u32) -> Option<(Mono, u64)>
        ensures taken { IfSome result (λ t. IsTaken self.old.terms t self.new.terms × (has_bit bit t.0 ≡ true)) }
        ensures none { IfNone result (LacksBit bit self.old.terms × (self.new.terms ≡ self.old.terms)) }
        ensures map { IsMap self.old.terms }
    {
        let slot = *self.index.of(bit).last()?;
        let mono = self.index.take(slot)?;
        let place = self.map.remove(&mono)?;
        Some((mono, place.coefficient))
    }

    /// Puts a polynomial in place of a bit; both are over the field, with coefficients and exponents below 2^k.
    /// After running out of memory the polynomial is not used again.
    pub fn substitute_bit<F: Field>(
        &mut self,
        field: &F,
        bit: u32,
        by: &Poly,
    ) -> Result<(), AllocError>
        requires over { IsReduced (F.degree field.now) self.old.terms }
        requires by_over { IsReduced (F.degree field.now) by.now.terms }
        ensures reduced { OnOk result (IsReduced (F.degree field.now) self.new.terms) }
        ensures values { OnOk result (IsSubstituted (F.degree field.now) (F.product field.now) bit by.now.terms self.old.terms self.new.terms) }
    {
        let part = self.take_bit(self.alloc, bit)?;
        let product = part.mul(self.alloc, field, by)?;
        self.add_into(field, &product)
    }

    /// Whether the bit stands in the polynomial.
    pub fn has(&self, bit: u32) -> bool
        ensures { result ≡ list_any (λ t. has_bit bit t.0) self.now.terms }
    {
        !self.index.of(bit).is_empty()
    }

    /// The slots of exactly the terms that have the bit, each once, by rising slot.
    pub fn terms_of(&self, bit: u32) -> &[usize]
        ensures list { IsListOf bit self.now.slots result.now }
        ensures slots { AreSlotsOf self.now.terms self.now.slots }
    {
        self.index.of(bit)
    }

    /// The coefficient and the monomial in a slot, or none where the slot holds no term.
    pub fn term_at(&self, slot: usize) -> Option<(u64, &Mono)>
        ensures term { option_map (λ p. (p.0, p.1.now)) result ≡ term_in self.now slot }
        ensures slots { AreSlotsOf self.now.terms self.now.slots }
    {
        let mono = self.index.at(slot)?;
        let place = self.map.get(mono)?;
        Some((place.coefficient, mono))
    }

    /// The terms in the order of a text: falling lexicographic order of the exponents of all variables.
    pub fn terms(&self, alloc: Global) -> Result<Vec<Term>, AllocError>
        ensures { IfOk result (λ v. v.items ≡ self.now.terms) }
    {
        let mut terms = Vec::with_capacity(alloc, self.map.len())?;
        for (mono, place) in &self.map {
            let mono = mono.copied()?;
            terms.push(Term::new(mono, place.coefficient))?;
        }
        Ok(terms)
    }

    // The terms as a map.
    pub(crate) fn map(&self) -> &BTreeMap<Mono, Place>
        ensures { terms_in result.now.entries ≡ self.now.terms }
    {
        &self.map
    }

    /// The value at the words and the bits; a rank past the end of `bits` is 0.
    pub fn value<F: Field>(&self, field: &F, words: &[u64; 8], bits: &[bool]) -> u64
        requires over { IsReduced (F.degree field.now) self.now.terms }
        requires elements { AllByRecursion (IsElement (F.degree field.now)) words.now }
        ensures { result ≡ value (F.product field.now) (point words.now bits.now) self.now.terms }
    {
        let mut sum = 0;
        for (mono, place) in &self.map {
            sum ^= term_value(field, mono, place.coefficient, words, bits);
        }
        sum
    }
}

// Adds a term to a map of monomials in slots; the sum of two coefficients that is 0 leaves no term.
fn add_to(
    map: &mut BTreeMap<Mono, Place>,
    index: &mut Index,
    mono: Mono,
    c: u64,
) -> Result<(), AllocError>
    requires nonzero { c ≢ 0 }
    requires rising { IsStrictlySortedBy nat_cmp mono.bits }
    requires indexed { IsIndexed map.old.entries index.old }
    ensures added { OnOk result (terms_in map.new.entries ≡ plus_term text_cmp (terms_in map.old.entries) (mono, c)) }
    ensures indexed { OnOk result (IsIndexed map.new.entries index.new) }
{
    match map.entry(mono)? {
        Entry::Vacant(entry) => {
            let slot = index.put(entry.key())?;
            entry.insert(Place {
                coefficient: c,
                slot,
            });
        }
        Entry::Occupied(mut entry) => {
            let place = *entry.get();
            let sum = place.coefficient ^ c;
            if sum == 0 {
                entry.remove();
                index.take(place.slot);
            } else {
                entry.insert(Place {
                    coefficient: sum,
                    slot: place.slot,
                });
            }
        }
    }
    Ok(())
}
