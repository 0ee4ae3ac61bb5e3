//! Terms of sums of products, as values.
ghost use Rattle.std.specs.Prelude.{◌≡◌, ◌<◌, ◌^◌, length};

use std::marker::Model;

/// A term: a coefficient, and fewer than 2^26 pairs of a word's number and an exponent. So it has fewer than 2^32 factors.
#[derive(Drop)]
pub struct SumTerm {
    coefficient: u64,
    powers: Vec<(u32, u64)>,
}

impl Model for SumTerm {
    ghost use Rattle.std.specs.Prelude.{ℕ, List, length, ◌<◌, ◌^◌};

    ghost Value = { ℕ × List (ℕ × ℕ) };

    ghost view = { λ t. (t.coefficient, t.powers.items) };

    ghost invariant = { λ t. length t.powers.items < 2 ^ 26 };
}

impl SumTerm {
    /// The term with this coefficient and these powers, fewer than 2^26.
    pub fn new(coefficient: u64, powers: Vec<(u32, u64)>) -> SumTerm
        requires { length powers.items < 2 ^ 26 }
        ensures { result ≡ (coefficient, powers.items) }
    {
        SumTerm {
            coefficient,
            powers,
        }
    }

    /// The coefficient.
    pub fn coefficient(&self) -> u64
        ensures { result ≡ self.now.0 }
    {
        self.coefficient
    }

    /// The pairs of word and exponent, fewer than 2^26.
    pub fn powers(&self) -> &[(u32, u64)]
        ensures value { result.now ≡ self.now.1 }
        ensures few { length result.now < 2 ^ 26 }
    {
        &self.powers
    }
}
