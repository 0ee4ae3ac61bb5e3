//! Terms of sums in which equal ones may meet: the coefficient may become 0.
ghost use Rattle.std.specs.Prelude.{◌≡◌, IfOk, IsTrue, bit_xor};

use poly_mixed::Mono;
use std::alloc::{AllocError, Global};
use std::marker::Model;

/// A monomial with its coefficient.
pub(crate) struct Summand {
    mono: Mono,
    coefficient: u64,
}

// By hand, so that a caller that lets one go makes one call, and not one for each part.
impl Drop for Summand {
    fn drop(self) {
        let Summand {
            mono,
            coefficient: _,
        } = self;
        drop(mono);
    }
}

impl Model for Summand {
    ghost use Rattle.std.specs.Prelude.{ℕ};
    ghost use Rattle.poly_mixed.specs.Monomial.{Monomial};

    ghost Value = { Monomial × ℕ };

    ghost view = { λ s. (s.mono, s.coefficient) };
}

impl Summand {
    /// A monomial with this coefficient.
    pub(crate) fn new(mono: Mono, coefficient: u64) -> Summand
        ensures { result ≡ (mono, coefficient) }
    {
        Summand { mono, coefficient }
    }

    /// Another monomial that is the same.
    pub(crate) fn copied(&self, alloc: Global) -> Result<Mono, AllocError>
        ensures { IfOk result (λ m. m ≡ self.now.0) }
    {
        let mono = &self.mono;
        Mono::new(alloc, mono.bits(), mono.exponents())
    }

    /// The monomial.
    pub(crate) fn mono(&self) -> &Mono
        ensures { result.now ≡ self.now.0 }
    {
        &self.mono
    }

    /// The coefficient.
    pub(crate) fn coefficient(&self) -> u64
        ensures { result ≡ self.now.1 }
    {
        self.coefficient
    }

    /// Whether it is of this monomial.
    pub(crate) fn is_of(&self, mono: &Mono) -> bool
        ensures { IsTrue result → self.now.0 ≡ mono.now }
    {
        self.mono == *mono
    }

    /// Adds to the coefficient.
    pub(crate) fn add(&mut self, c: u64)
        ensures { self.new ≡ (self.old.0, bit_xor self.old.1 c) }
    {
        self.coefficient ^= c;
    }
}
