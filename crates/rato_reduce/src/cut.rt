//! The polynomial of a cut.
ghost use Rattle.std.specs.Prelude.{◌≡◌, ◌≢◌, ◌<◌, ℕ, List, ◌++◌, ◌∷◌, [], length, false, IfOk, IsFalse, IsTrue, OnOk, ◌↔◌, if◌then◌else◌};
ghost use Rattle.std.specs.List.{AllByRecursion};
ghost use Rattle.std.specs.List.Sorted.{IsStrictlySortedBy};
ghost use Rattle.std.specs.Ordering.{nat_cmp};
ghost use Rattle.poly_mixed.specs.Cofactor.{cofactors, lacking, LacksBit};
ghost use Rattle.poly_mixed.specs.Monomial.{text_cmp};
ghost use Rattle.poly_mixed.specs.Polynomial.{IsReduced, IsTerm};
ghost use Rattle.poly_mixed.specs.Sum.{plus, plus_term};
ghost use Rattle.poly_mixed.specs.Product.{union, with_rank};
ghost use Rattle.rato_reduce.specs.private.CutTerms.{of_bits, term_of, ends_up_to, products, AreBitEntries, HasSetsPutIn, IsBitTerm, IsTaken};
ghost use Rattle.rato_reduce.specs.Monomials.{monomials};

use crate::bit_term::BitTerm;
use crate::entries::Entries;
use crate::key::{Key, place_of};
use crate::listed::{constant_terms, sum_in_order};
use crate::monomials::has_place;
use crate::ranks::Ranks;
use poly_mixed::Term;
use std::alloc::{AllocError, Global};
use std::marker::Model;

/// A polynomial in bits, whose terms stand against the order in which nets are eliminated: those with a net come last
/// once each net of an earlier place is gone. `places` has the place of each rank. The places decide how long a call takes
/// and nothing else. The term without bits is kept apart: an inverter adds it each time.
#[derive(Drop)]
pub struct Cut {
    constant: u64,
    map: Entries,
    places: Vec<u32>,
    alloc: Global,
}

impl Model for Cut {
    ghost use Rattle.rato_reduce.specs.private.CutTerms.{CutPolynomial, cut_polynomial, with_constant, AreBitEntries};

    ghost Value = { CutPolynomial };

    ghost view = { λ c. cut_polynomial (with_constant c.constant c.map.entries) };

    ghost invariant = { λ c. AreBitEntries c.places.items c.map.entries };
}

impl Cut {
    /// The polynomial without terms.
    pub fn zero(alloc: Global, places: Vec<u32>) -> Cut
        ensures { result.terms ≡ [] }
    {
        Cut {
            constant: 0,
            map: Entries::new(alloc),
            places,
            alloc,
        }
    }

    /// The size: how many terms it has.
    pub fn len(&self) -> usize
        ensures { result ≡ length self.now.terms }
    {
        let bits = self.map.len();
        if self.constant == 0 { bits } else { bits + 1 }
    }

    /// Adds a term of rising bits. After running out of memory it is not used again.
    pub fn add(&mut self, bits: Ranks, c: u64) -> Result<(), AllocError>
        requires rising { IsStrictlySortedBy nat_cmp bits }
        requires some { c ≢ 0 }
        ensures { OnOk result (self.new.terms ≡ plus_term text_cmp self.old.terms (of_bits bits, c)) }
    {
        if bits.is_empty() {
            self.add_constant(c);
            return Ok(());
        }
        let key = Key::new(self.places.as_slice(), bits);
        self.map.add(key, c)?;
        Ok(())
    }

    // Adds a term without bits.
    fn add_constant(&mut self, c: u64)
        requires { c ≢ 0 }
        ensures { self.new.terms ≡ plus_term text_cmp self.old.terms (of_bits [], c) }
    {
        self.constant ^= c;
    }

    /// Adds the products of a term and of each of these sets of bits. After running out of memory it is not used again.
    pub fn add_products(&mut self, term: &BitTerm, sets: &[Ranks]) -> Result<(), AllocError>
        requires { IsBitTerm term.now }
        ensures { OnOk result (self.new.terms ≡ plus text_cmp self.old.terms (products term.now sets.now)) }
    {
        for set in sets {
            let bits = term.bits().union(set)?;
            self.add(bits, term.coefficient())?;
        }
        Ok(())
    }

    /// Adds the products of a term and of the sum of 1, if the form of a table of one bit has it, and of that bit, if the form
    /// has it. After running out of memory it is not used again.
    pub fn add_line(&mut self, term: &BitTerm, form: u64, rank: u32) -> Result<(), AllocError>
        requires { IsBitTerm term.now }
        ensures { OnOk result (self.new.terms ≡ plus text_cmp self.old.terms (products term.now (monomials form [] (rank ∷ []) 0 1))) }
    {
        let one = has_place(form, 0);
        let bit = has_place(form, 1);
        self.add_same(term, one)?;
        self.add_with(term, rank, bit)
    }

    /// Adds the products of a term and of the sum of 1, two bits and the product of both, each if the form of a table of two
    /// bits has it. After running out of memory it is not used again.
    pub fn add_pair(
        &mut self,
        term: &BitTerm,
        form: u64,
        first: u32,
        second: u32,
        both: &Ranks,
    ) -> Result<(), AllocError>
        requires term { IsBitTerm term.now }
        requires both { both.now ≡ with_rank (first ∷ []) second }
        ensures { OnOk result (self.new.terms ≡ plus text_cmp self.old.terms (products term.now (monomials form [] (first ∷ second ∷ []) 0 1))) }
    {
        let one = has_place(form, 0);
        let low = has_place(form, 1);
        let high = has_place(form, 2);
        let all = has_place(form, 3);
        self.add_same(term, one)?;
        self.add_with(term, second, high)?;
        self.add_with(term, first, low)?;
        self.add_union(term, both, all)
    }

    // Adds a term times bits, if it is to be added.
    fn add_union(&mut self, term: &BitTerm, set: &Ranks, added: bool) -> Result<(), AllocError>
        requires { IsBitTerm term.now }
        ensures { OnOk result (self.new.terms ≡ plus text_cmp self.old.terms (if added then (of_bits (union term.now.0.bits set.now), term.now.1) ∷ [] else [])) }
    {
        if added {
            let bits = term.bits().union(set)?;
            self.add(bits, term.coefficient())?;
        }
        Ok(())
    }

    // Adds a term, if it is to be added.
    fn add_same(&mut self, term: &BitTerm, added: bool) -> Result<(), AllocError>
        requires { IsBitTerm term.now }
        ensures { OnOk result (self.new.terms ≡ plus text_cmp self.old.terms (if added then (of_bits term.now.0.bits, term.now.1) ∷ [] else [])) }
    {
        if !added {
            return Ok(());
        }
        if term.bits().is_empty() {
            self.add_constant(term.coefficient());
            return Ok(());
        }
        let bits = term.bits().copied()?;
        self.add(bits, term.coefficient())
    }

    // Adds a term times a bit, if it is to be added.
    fn add_with(&mut self, term: &BitTerm, rank: u32, added: bool) -> Result<(), AllocError>
        requires { IsBitTerm term.now }
        ensures { OnOk result (self.new.terms ≡ plus text_cmp self.old.terms (if added then (of_bits (with_rank term.now.0.bits rank), term.now.1) ∷ [] else [])) }
    {
        if added {
            let bits = term.bits().with(rank)?;
            self.add(bits, term.coefficient())?;
        }
        Ok(())
    }

    // Adds terms.
    fn add_all(&mut self, terms: &[BitTerm]) -> Result<(), AllocError>
        requires { AllByRecursion IsBitTerm terms.now }
        ensures { OnOk result (self.new.terms ≡ plus text_cmp self.old.terms terms.now) }
    {
        for term in terms {
            self.add_same(term, true)?;
        }
        Ok(())
    }

    /// Puts the sum of 1, if the form of a table of one bit has it, and of that bit in place of another bit, if this is the only
    /// term with bits and the form has that bit.
    pub fn put_line(&mut self, rank: u32, form: u64, by: u32) -> bool
        ensures put { IsTrue result → HasSetsPutIn rank (monomials form [] (by ∷ []) 0 1) self.old.terms self.new.terms }
        ensures kept { IsFalse result → self.new.terms ≡ self.old.terms }
    {
        let one = has_place(form, 0);
        let bit = has_place(form, 1);
        if !bit {
            return false;
        }
        match self.map.exchange(self.places.as_slice(), rank, by) {
            Some(c) => {
                self.constant ^= chosen(c, one);
                true
            }
            None => false,
        }
    }

    /// Takes out the terms with the bit, and puts them, without it, in place of what `part` held. It takes the time of the
    /// terms whose first place is not behind that of the bit. After running out of memory neither is used again.
    pub fn take_with(&mut self, rank: u32, part: &mut Vec<BitTerm>) -> Result<(), AllocError>
        ensures left { OnOk result (self.new.terms ≡ lacking rank self.old.terms) }
        ensures part { OnOk result (plus text_cmp [] part.new.items ≡ cofactors rank self.old.terms) }
        ensures each { OnOk result (AllByRecursion IsBitTerm part.new.items) }
        ensures terms { (k : ℕ) → IsReduced k self.old.terms → OnOk result (AllByRecursion (IsTerm k) part.new.items) }
        ensures stands { OnOk result (LacksBit rank self.old.terms ↔ (part.new.items ≡ [])) }
    {
        part.clear();
        let place = place_of(self.places.as_slice(), rank);
        let others = take_up_to(self.alloc, &mut self.map, place, rank, part)?;
        self.add_all(&others)
    }

    /// The terms of the polynomial, in the order of a text.
    pub fn to_terms(&self) -> Result<Vec<Term>, AllocError>
        ensures { IfOk result (λ v. v.items ≡ self.now.terms) }
    {
        let mut terms = constant_terms(self.alloc, self.constant)?;
        self.map.push_terms(self.alloc, &mut terms)?;
        sum_in_order(self.alloc, terms)
    }
}

// The coefficient, if it is to be added, and else 0.
fn chosen(c: u64, added: bool) -> u64
    ensures { result ≡ (if added then c else 0) }
{
    if added { c } else { 0 }
}

// Puts the term of an entry into the part, without the bit, if it has the bit, and else into the others.
fn sort_out(
    key: Key,
    c: u64,
    rank: u32,
    part: &mut Vec<BitTerm>,
    others: &mut Vec<BitTerm>,
) -> Result<(), AllocError>
    ensures part { OnOk result (part.new.items ≡ part.old.items ++ cofactors rank (term_of (key, c) ∷ [])) }
    ensures others { OnOk result (others.new.items ≡ others.old.items ++ lacking rank (term_of (key, c) ∷ [])) }
{
    let bits = key.into_bits();
    if !bits.has(rank) {
        others.push(BitTerm::new(bits, c))?;
        return Ok(());
    }
    let rest = bits.without(rank);
    part.push(BitTerm::new(rest, c))?;
    Ok(())
}

// Takes the entries from the last on backwards whose first place is not behind this one: their terms with the bit are added
// to the part, without it, and the others are given.
fn take_up_to(
    alloc: Global,
    entries: &mut Entries,
    place: u32,
    rank: u32,
    part: &mut Vec<BitTerm>,
) -> Result<Vec<BitTerm>, AllocError>
    requires { part.old.items ≡ [] }
    ensures taken { IfOk result (λ others. IsTaken rank entries.old.entries entries.new.entries part.new.items others.items) }
    ensures rest { OnOk result (ends_up_to place entries.new.entries ≡ false) }
    ensures entries { (places : List ℕ) → AreBitEntries places entries.old.entries → AreBitEntries places entries.new.entries }
{
    let mut others = Vec::new(alloc);
    while let Some((key, c)) = entries.pop_up_to(place) {
        sort_out(key, c, rank, part, &mut others)?;
    }
    Ok(others)
}
