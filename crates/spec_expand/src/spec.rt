//! Specifications as values.
ghost use Rattle.std.specs.Prelude.{◌≡◌, ◌<◌, ◌^◌, length};

use crate::SpecTerm;
use std::marker::Model;

/// A specification: its terms in the order of the text, fewer than 2^32.
#[derive(Drop)]
pub struct Spec {
    terms: Vec<SpecTerm>,
}

impl Model for Spec {
    ghost use Rattle.std.specs.Prelude.{length, ◌<◌, ◌^◌};
    ghost use Rattle.spec_expand.specs.Specification.{SpecTerms};

    ghost Value = { SpecTerms };

    ghost view = { λ s. s.terms.items };

    ghost invariant = { λ s. length s.terms.items < 2 ^ 32 };
}

impl Spec {
    /// The specification of these terms, fewer than 2^32.
    pub fn new(terms: Vec<SpecTerm>) -> Spec
        requires { length terms.items < 2 ^ 32 }
        ensures { result ≡ terms.items }
    {
        Spec { terms }
    }

    /// The terms, fewer than 2^32.
    pub fn terms(&self) -> &[SpecTerm]
        ensures value { result.now ≡ self.now }
        ensures few { length result.now < 2 ^ 32 }
    {
        &self.terms
    }
}
