//! Polynomials to which terms are only added: maps from monomials to coefficients, without slots and lists.
ghost use Rattle.std.specs.Prelude.{◌≡◌, ◌≢◌, ◌∷◌, [], length, IfOk, OnOk};
ghost use Rattle.std.specs.List.{AllByRecursion};
ghost use Rattle.std.specs.List.Sorted.{IsStrictlySortedBy};
ghost use Rattle.std.specs.Ordering.{nat_cmp};
ghost use Rattle.poly_mixed.specs.Monomial.{text_cmp};
ghost use Rattle.poly_mixed.specs.Polynomial.{IsMap};
ghost use Rattle.poly_mixed.specs.Sum.{plus, plus_term};
ghost use Rattle.cert_check.specs.private.Waiting.{nonzero_of};

use crate::summand::Summand;
use poly_mixed::{Mono, Poly, Term};
use std::alloc::{AllocError, Global};
use std::collections::BTreeMap;
use std::collections::btree_map::Entry;
use std::marker::Model;

/// A polynomial as a map from monomials to coefficients that are not 0.
#[derive(Drop)]
pub(crate) struct TermMap {
    map: BTreeMap<Mono, u64>,
}

impl Model for TermMap {
    ghost use Rattle.std.specs.Prelude.{[]};
    ghost use Rattle.poly_mixed.specs.Polynomial.{Polynomial, IsMap};

    ghost Value = { Polynomial };

    ghost view = { λ m. record { terms = m.map.entries; slots = [] } };

    ghost invariant = { λ m. IsMap m.map.entries };
}

// Adds a term to a map; the sum of two coefficients that is 0 leaves no term.
fn add_to(map: &mut BTreeMap<Mono, u64>, mono: Mono, c: u64) -> Result<(), AllocError>
    requires nonzero { c ≢ 0 }
    requires rising { IsStrictlySortedBy nat_cmp mono.bits }
    requires is_map { IsMap map.old.entries }
    ensures added { OnOk result (map.new.entries ≡ plus_term text_cmp map.old.entries (mono, c)) }
    ensures is_map { OnOk result (IsMap map.new.entries) }
{
    match map.entry(mono)? {
        Entry::Vacant(entry) => {
            entry.insert(c);
        }
        Entry::Occupied(mut entry) => {
            let before = *entry.get();
            let sum = before ^ c;
            if sum == 0 {
                entry.remove();
            } else {
                entry.insert(sum);
            }
        }
    }
    Ok(())
}

impl TermMap {
    /// The polynomial without terms.
    pub(crate) fn zero(alloc: Global) -> TermMap
        ensures { result.terms ≡ [] }
    {
        TermMap {
            map: BTreeMap::new(alloc),
        }
    }

    /// The terms of a polynomial.
    pub(crate) fn of(alloc: Global, poly: &Poly) -> Result<TermMap, AllocError>
        requires { IsMap poly.now.terms }
        ensures { IfOk result (λ m. m.terms ≡ poly.now.terms) }
    {
        let terms = poly.terms(alloc)?;
        let mut map = TermMap::zero(alloc);
        map.add_terms(alloc, &terms)?;
        Ok(map)
    }

    /// How many terms it has.
    pub(crate) fn len(&self) -> usize
        ensures size { result ≡ length self.now.terms }
        ensures is_map { IsMap self.now.terms }
    {
        self.map.len()
    }

    /// Adds a term, whose coefficient is not 0. After running out of memory the polynomial is not used again.
    pub(crate) fn add_term(&mut self, mono: Mono, c: u64) -> Result<(), AllocError>
        requires { c ≢ 0 }
        ensures { OnOk result (self.new.terms ≡ plus_term text_cmp self.old.terms (mono, c)) }
    {
        let _rising = mono.bits();
        match add_to(&mut self.map, mono, c) {
            Ok(()) => Ok(()),
            Err(fault) => {
                self.map.clear();
                Err(fault)
            }
        }
    }

    // Adds terms, whose coefficients are not 0.
    fn add_terms(&mut self, alloc: Global, terms: &[Term]) -> Result<(), AllocError>
        requires { AllByRecursion (λ t. t.1 ≢ 0) terms.now }
        ensures { OnOk result (self.new.terms ≡ plus text_cmp self.old.terms terms.now) }
    {
        for term in terms {
            let mono = term.mono();
            let copied = Mono::new(alloc, mono.bits(), mono.exponents())?;
            self.add_term(copied, term.coefficient())?;
        }
        Ok(())
    }

    // Adds a term, unless its coefficient is 0.
    fn add_summand(&mut self, alloc: Global, summand: &Summand) -> Result<(), AllocError>
        ensures { OnOk result (self.new.terms ≡ plus text_cmp self.old.terms (nonzero_of (summand.now ∷ []))) }
    {
        let c = summand.coefficient();
        if c == 0 {
            return Ok(());
        }
        let copied = summand.copied(alloc)?;
        self.add_term(copied, c)
    }

    /// Adds terms, but for those whose coefficient is 0.
    pub(crate) fn add_summands(
        &mut self,
        alloc: Global,
        summands: &[Summand],
    ) -> Result<(), AllocError>
        ensures { OnOk result (self.new.terms ≡ plus text_cmp self.old.terms (nonzero_of summands.now)) }
    {
        for summand in summands {
            self.add_summand(alloc, summand)?;
        }
        Ok(())
    }
}
