//! Terms of polynomials.
ghost use Rattle.std.specs.Prelude.{◌≡◌};

use crate::Mono;
use std::marker::Model;

/// A monomial with its coefficient.
#[derive(Drop)]
pub struct Term {
    coefficient: u64,
    mono: Mono,
}

impl Model for Term {
    ghost use Rattle.std.specs.Prelude.{ℕ};
    ghost use Rattle.poly_mixed.specs.Monomial.{Monomial};

    ghost Value = { Monomial × ℕ };

    ghost view = { λ t. (t.mono, t.coefficient) };
}

impl Term {
    /// A monomial with this coefficient.
    pub fn new(mono: Mono, coefficient: u64) -> Term
        ensures { result ≡ (mono, coefficient) }
    {
        Term { coefficient, mono }
    }

    /// The coefficient; of a term of a polynomial it is not 0.
    pub fn coefficient(&self) -> u64
        ensures { result ≡ self.now.1 }
    {
        self.coefficient
    }

    /// The monomial.
    pub fn mono(&self) -> &Mono
        ensures { result.now ≡ self.now.0 }
    {
        &self.mono
    }
}
