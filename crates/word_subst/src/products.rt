//! The products of the linear forms of a term's bits of a word, shared by terms that begin with the same bits.
ghost use Rattle.std.specs.Prelude.{◌≡◌, ◌<◌, ◌≤◌, ◌++◌, ◌-◌, ◌*◌, ◌+◌, length, take, [], ◌∷◌, ℕ, List, Some, slice_get, true, IfOk, IfErr, OnOk};
ghost use Rattle.poly_mixed.specs.Polynomial.{IsElement};
ghost use Rattle.word_subst.specs.Forms.{IsForm, AreForms};
ghost use Rattle.gf_basis.specs.BasisParts.{elements_of};
ghost use Rattle.word_subst.specs.Prefix.{AreProducts, IsNextRefusal, IsProductRefusal};
ghost use Rattle.stage_model.specs.WordStage.{is_of_word};
ghost use Rattle.std.specs.List.{AllByRecursion};

use crate::multiple::product;
use crate::univariate::Univariate;
use gf_basis::Basis;
use gf_field::Field;
use poly_mixed::{ReduceFault, Stage, check_size};
use std::alloc::{AllocError, Global};
use std::marker::Model;

/// The products for a term: of its power of the word with none of its bits of the word, with the first, with the first
/// two, and so on.
pub struct BitProducts {
    start: u64,
    ranks: Vec<u32>,
    products: Vec<Univariate>,
}

// By hand, so that a caller that lets one go makes one call, and not one for each part.
impl Drop for BitProducts {
    fn drop(self) {
        let BitProducts {
            start: _,
            ranks,
            products,
        } = self;
        drop(ranks);
        drop(products);
    }
}

impl Model for BitProducts {
    ghost use Rattle.word_subst.specs.Prefix.{Products};

    ghost Value = { Products };

    ghost view = { λ p. record { start = p.start; ranks = p.ranks.items; products = p.products.items } };
}

// The length of the longest list with which both begin.
fn common(a: &[u32], b: &[u32]) -> usize
    ensures first { result ≤ length a.now }
    ensures second { result ≤ length b.now }
    ensures same { take result a.now ≡ take result b.now }
{
    let mut n = 0;
    while n < a.len() && n < b.len() && a[n] == b[n] {
        n += 1;
    }
    n
}

impl BitProducts {
    /// Those of a term with this power of the word and none of its bits.
    pub fn new<F: Field>(
        alloc: Global,
        field: &F,
        word: u32,
        start: u64,
        bound: u32,
    ) -> Result<BitProducts, AllocError>
        requires start { IsElement (F.degree field.now) start }
        ensures products { (elements : List ℕ) → IfOk result (AreProducts (F.degree field.now) (F.product field.now) elements word bound) }
        ensures start { IfOk result (λ p. p.start ≡ start) }
        ensures ranks { IfOk result (λ p. p.ranks ≡ []) }
    {
        let mut one = Univariate::zero(alloc);
        one.push(start, field.one())?;
        let mut products = Vec::new(alloc);
        products.push(one)?;
        Ok(BitProducts {
            start,
            ranks: Vec::new(alloc),
            products,
        })
    }

    /// The power of the word in the terms.
    pub fn start(&self) -> u64
        ensures { result ≡ self.now.start }
    {
        self.start
    }

    /// The ranks of the term's bits of the word.
    pub fn ranks(&self) -> &[u32]
        ensures { result.now ≡ self.now.ranks }
    {
        &self.ranks
    }

    /// The product with the first `j` bits.
    pub fn at(&self, j: usize) -> &Univariate
        requires { j < length self.now.products }
        ensures { slice_get self.now.products j ≡ Some result.now }
    {
        &self.products[j]
    }

    // Keeps what a term with these bits shares, and gives how many of its bits that is.
    fn keep(&mut self, own: &[u32]) -> usize
        ensures within { result ≤ length own.now }
        ensures ranks { self.new.ranks ≡ take result own.now }
        ensures start { self.new.start ≡ self.old.start }
        ensures products { (k : ℕ) (mul : ℕ → ℕ → ℕ) (elements : List ℕ) (word bound : ℕ) → AreProducts k mul elements word bound self.old → AreProducts k mul elements word bound self.new }
    {
        let n = common(&self.ranks, own);
        self.ranks.truncate(n);
        self.products.truncate(n + 1);
        n
    }

    // One bit more; the fault is its product of more than `bound` powers, as this stage.
    fn extend<F: Field>(
        &mut self,
        alloc: Global,
        field: &F,
        _basis: &Basis,
        _word: u32,
        form: &Univariate,
        rank: u32,
        bound: u32,
        stage: Stage,
    ) -> Result<(), ReduceFault>
        requires products { AreProducts (F.degree field.now) (F.product field.now) (elements_of _basis.now) _word bound self.old }
        requires form { IsForm (F.degree field.now) (F.product field.now) (elements_of _basis.now) (rank - F.degree field.now * _word) form.now }
        ensures products { OnOk result (AreProducts (F.degree field.now) (F.product field.now) (elements_of _basis.now) _word bound self.new) }
        ensures ranks { OnOk result (self.new.ranks ≡ self.old.ranks ++ rank ∷ []) }
        ensures start { OnOk result (self.new.start ≡ self.old.start) }
        ensures fault { IfErr result (IsNextRefusal (F.degree field.now) (F.product field.now) (elements_of _basis.now) _word self.old.start self.old.ranks rank bound stage) }
    {
        let last = &self.products[self.ranks.len()];
        let next = product(alloc, field, last, form)?;
        check_size(next.len(), bound, stage)?;
        self.products.push(next)?;
        self.ranks.push(rank)?;
        Ok(())
    }

    /// Goes on to the term of this number with these bits of the word. The fault is its first product of more than
    /// `bound` powers.
    pub fn follow<F: Field>(
        &mut self,
        alloc: Global,
        field: &F,
        basis: &Basis,
        forms: &[Univariate],
        word: u32,
        own: &[u32],
        number: u32,
        bound: u32,
    ) -> Result<(), ReduceFault>
        requires word { word < 8 }
        requires forms { AreForms (F.degree field.now) (F.product field.now) (elements_of basis.now) forms.now }
        requires own { AllByRecursion (λ r. is_of_word (F.degree field.now) word r ≡ true) own.now }
        requires few { length own.now ≤ 64 }
        requires products { AreProducts (F.degree field.now) (F.product field.now) (elements_of basis.now) word bound self.old }
        ensures products { OnOk result (AreProducts (F.degree field.now) (F.product field.now) (elements_of basis.now) word bound self.new) }
        ensures ranks { OnOk result (self.new.ranks ≡ own.now) }
        ensures start { OnOk result (self.new.start ≡ self.old.start) }
        ensures fault { IfErr result (IsProductRefusal (F.degree field.now) (F.product field.now) (elements_of basis.now) word self.old.start own.now number bound) }
    {
        let k = field.k();
        let n = self.keep(own);
        for j in n..own.len() {
            let place = own[j] - k * word;
            let form = &forms[place as usize];
            let stage = Stage::WordProduct {
                word,
                term: number,
                bit: j as u32 + 1,
            };
            self.extend(alloc, field, basis, word, form, own[j], bound, stage)?;
        }
        Ok(())
    }
}
