//! Sums of monomials, as gates and bits of words are: each coefficient is 1.
ghost use Rattle.std.specs.Prelude.{◌≡◌, ◌∷◌, ◌++◌, [], OnOk};
ghost use Rattle.cert_check.specs.private.Units.{units};

use poly_mixed::Mono;
use std::alloc::{AllocError, Global};
use std::marker::Model;

/// A sum of monomials, of which one may come more than once.
#[derive(Drop)]
pub(crate) struct MonoSum {
    list: Vec<Mono>,
}

impl Model for MonoSum {
    ghost use Rattle.std.specs.Prelude.{[]};
    ghost use Rattle.poly_mixed.specs.Polynomial.{Polynomial};
    ghost use Rattle.cert_check.specs.private.Units.{units};

    ghost Value = { Polynomial };

    ghost view = { λ s. record { terms = units s.list.items; slots = [] } };
}

impl MonoSum {
    /// The sum of none.
    pub(crate) fn zero(alloc: Global) -> MonoSum
        ensures { result.terms ≡ [] }
    {
        MonoSum {
            list: Vec::new(alloc),
        }
    }

    /// Adds a monomial. After running out of memory the sum is not used again.
    pub(crate) fn push(&mut self, mono: Mono) -> Result<(), AllocError>
        ensures { OnOk result (self.new.terms ≡ self.old.terms ++ (mono, 1) ∷ []) }
    {
        self.list.push(mono)?;
        Ok(())
    }

    /// Its monomials.
    pub(crate) fn monos(&self) -> &[Mono]
        ensures { units result.now ≡ self.now.terms }
    {
        self.list.as_slice()
    }
}
