//! Rows: a monomial times a sum of multiples of the linear forms of a word's bits.
ghost use Rattle.std.specs.Prelude.{◌≡◌, ℕ, ◌<◌, replicate, IfOk, OnOk};
ghost use Rattle.poly_mixed.specs.Polynomial.{IsElement};
ghost use Rattle.cert_check.specs.private.Held.{power_of, square_term, with_term, GrowsBy, IsRow};

use crate::monomial::product;
use crate::term_sum::TermSum;
use gf_basis::Basis;
use gf_field::Field;
use net_words::Combinational;
use poly_mixed::Mono;
use std::alloc::{AllocError, Global};

/// A monomial times the forms of a word's bits: entry i is the coefficient of the form of bit i.
pub(crate) struct Row {
    pub(crate) mono: Mono,
    pub(crate) word: u32,
    pub(crate) coefficients: Vec<u64>,
}

// By hand, so that a caller that lets one go makes one call, and not one for each part.
impl Drop for Row {
    fn drop(self) {
        let Row {
            mono,
            word: _,
            coefficients,
        } = self;
        drop(mono);
        drop(coefficients);
    }
}

impl Row {
    /// The row of a monomial without forms of the word.
    pub(crate) fn new(alloc: Global, k: u32, mono: &Mono, word: u32) -> Result<Row, AllocError>
        ensures mono { IfOk result (λ row. row.mono ≡ mono.now) }
        ensures word { IfOk result (λ row. row.word ≡ word) }
        ensures none { IfOk result (λ row. row.coefficients.items ≡ replicate k 0) }
    {
        let coefficients = vec![in alloc; 0; k as usize]?;
        let mono = Mono::new(alloc, mono.bits(), mono.exponents())?;
        Ok(Row {
            mono,
            word,
            coefficients,
        })
    }

    /// Adds a multiple of the form of a bit.
    pub(crate) fn add<F: Field>(
        &mut self,
        _field: &F,
        _circuit: &Combinational,
        _bases: &[Basis],
        place: u32,
        c: u64,
    )
        requires row { IsRow _circuit.now _bases.now (F.degree _field.now) self.old }
        requires place { place < F.degree _field.now }
        requires element { IsElement (F.degree _field.now) c }
        ensures row { IsRow _circuit.now _bases.now (F.degree _field.now) self.new }
        ensures value { (dual : ℕ → ℕ → ℕ) → GrowsBy (F.degree _field.now) (F.product _field.now) dual self.old self.new place c }
    {
        let i = place as usize;
        let sum = self.coefficients[i] ^ c;
        self.coefficients[i] = sum;
    }

    // The power of the word with this exponent.
    fn power(&self, alloc: Global, exponent: u64) -> Result<Mono, AllocError>
        requires { self.now.word < 8 }
        ensures { IfOk result (λ m. m ≡ power_of self.now.word exponent) }
    {
        let mut exponents = [0; 8];
        exponents[self.word as usize] = exponent;
        Mono::new(alloc, &[], &exponents)
    }

    /// Adds the term of the word squared j times, with this coefficient, to a polynomial.
    pub(crate) fn add_square<F: Field>(
        &self,
        alloc: Global,
        field: &F,
        _circuit: &Combinational,
        _bases: &[Basis],
        j: u32,
        c: u64,
        poly: &mut TermSum,
    ) -> Result<(), AllocError>
        requires row { IsRow _circuit.now _bases.now (F.degree field.now) self.now }
        requires j { j < F.degree field.now }
        ensures { OnOk result (poly.new.terms ≡ with_term poly.old.terms (square_term (F.degree field.now) self.now j c)) }
    {
        if c != 0 {
            let power = self.power(alloc, 1 << j)?;
            let mono = product(alloc, field.k(), &self.mono, &power)?;
            poly.add_term(mono, c)?;
        }
        Ok(())
    }
}
