//! Terms without words.
ghost use Rattle.std.specs.Prelude.{◌≡◌, OnOk};
ghost use Rattle.std.specs.List.{AllByRecursion};
ghost use Rattle.poly_mixed.specs.Monomial.{text_cmp};
ghost use Rattle.poly_mixed.specs.Sum.{plus};
ghost use Rattle.rato_reduce.specs.private.CutTerms.{of_bits, IsBitTerm};

use crate::ranks::Ranks;
use poly_mixed::{Mono, Poly};
use std::alloc::{AllocError, Global};
use std::marker::Model;

/// A product of bits with its coefficient.
#[derive(Drop)]
pub struct BitTerm {
    bits: Ranks,
    coefficient: u64,
}

impl Model for BitTerm {
    ghost use Rattle.std.specs.Prelude.{ℕ};
    ghost use Rattle.poly_mixed.specs.Monomial.{Monomial};
    ghost use Rattle.rato_reduce.specs.private.CutTerms.{of_bits};

    ghost Value = { Monomial × ℕ };

    ghost view = { λ t. (of_bits t.bits, t.coefficient) };
}

impl BitTerm {
    /// The term of these bits, rising, with this coefficient.
    pub fn new(bits: Ranks, coefficient: u64) -> BitTerm
        ensures { result ≡ (of_bits bits, coefficient) }
    {
        BitTerm { bits, coefficient }
    }

    /// Its bits, rising.
    pub fn bits(&self) -> &Ranks
        ensures bits { result.now ≡ self.now.0.bits }
        ensures no_words { self.now.0 ≡ of_bits result.now }
    {
        &self.bits
    }

    /// Its coefficient.
    pub fn coefficient(&self) -> u64
        ensures { result ≡ self.now.1 }
    {
        self.coefficient
    }
}

/// Adds terms to a polynomial.
pub fn add_terms(alloc: Global, sum: &mut Poly, terms: &[BitTerm]) -> Result<(), AllocError>
    requires { AllByRecursion IsBitTerm terms.now }
    ensures { OnOk result (sum.new.terms ≡ plus text_cmp sum.old.terms terms.now) }
{
    for term in terms {
        let mono = Mono::new(alloc, term.bits().as_slice(), &[0; 8])?;
        sum.add_term(mono, term.coefficient())?;
    }
    Ok(())
}
