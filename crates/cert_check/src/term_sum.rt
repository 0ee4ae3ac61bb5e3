//! Polynomials to which terms are only added, and whose size is seldom asked: a map, and terms that wait to be added to it.
ghost use Rattle.std.specs.Prelude.{◌≡◌, ◌≢◌, ◌↔◌, ◌≤◌, length, IsTrue, OnOk};
ghost use Rattle.poly_mixed.specs.Monomial.{text_cmp};
ghost use Rattle.poly_mixed.specs.Sum.{plus_term};
ghost use Rattle.cert_check.specs.private.Waiting.{most_of};

use crate::term_map::TermMap;
use crate::waiting::Waiting;
use poly_mixed::Mono;
use std::alloc::{AllocError, Global};
use std::marker::Model;

// So many terms wait at most, so that what equal ones take that no look finds is bounded.
const MOST: usize = 1 << 20;

/// A map from monomials to coefficients that are not 0, and terms that wait to be added to it.
pub(crate) struct TermSum {
    map: TermMap,
    waiting: Waiting,
    alloc: Global,
}

// By hand, so that a caller that lets one go makes one call, and not one for each part.
impl Drop for TermSum {
    fn drop(self) {
        let TermSum {
            map,
            waiting,
            alloc: _,
        } = self;
        drop(map);
        drop(waiting);
    }
}

impl Model for TermSum {
    ghost use Rattle.std.specs.Prelude.{length};
    ghost use Rattle.poly_mixed.specs.Monomial.{text_cmp};
    ghost use Rattle.poly_mixed.specs.Sum.{plus};
    ghost use Rattle.cert_check.specs.private.Waiting.{Gathered, nonzero_of};

    ghost Value = { Gathered };

    ghost view = { λ s. record { terms = plus text_cmp s.map.terms (nonzero_of s.waiting); counted = length s.map.terms; waiting = length s.waiting } };
}

impl TermSum {
    /// A polynomial, and no terms that wait.
    pub(crate) fn of(alloc: Global, map: TermMap) -> TermSum
        ensures { result.terms ≡ map.terms }
    {
        TermSum {
            map,
            waiting: Waiting::none(alloc),
            alloc,
        }
    }

    /// Adds a term, whose coefficient is not 0. After running out of memory the polynomial is not used again.
    pub(crate) fn add_term(&mut self, mono: Mono, c: u64) -> Result<(), AllocError>
        requires { c ≢ 0 }
        ensures { OnOk result (self.new.terms ≡ plus_term text_cmp self.old.terms (mono, c)) }
    {
        self.put(mono, c)?;
        if self.waiting.len() < MOST {
            return Ok(());
        }
        self.gather()?;
        Ok(())
    }

    // Adds a term to those that wait.
    fn put(&mut self, mono: Mono, c: u64) -> Result<(), AllocError>
        requires { c ≢ 0 }
        ensures { OnOk result (self.new.terms ≡ plus_term text_cmp self.old.terms (mono, c)) }
    {
        let _rising = mono.bits();
        let _map = self.map.len();
        let _before = self.waiting.as_slice();
        self.waiting.add(mono, c)?;
        let _after = self.waiting.as_slice();
        Ok(())
    }

    /// Adds the terms that wait to the map. After running out of memory the polynomial is not used again.
    pub(crate) fn gather(&mut self) -> Result<(), AllocError>
        ensures terms { OnOk result (self.new.terms ≡ self.old.terms) }
        ensures none { OnOk result (self.new.waiting ≡ 0) }
    {
        self.map.add_summands(self.alloc, self.waiting.as_slice())?;
        self.waiting = Waiting::none(self.alloc);
        Ok(())
    }

    /// Whether it is seen without adding those that wait that there are at most so many terms.
    pub(crate) fn has_at_most(&self, most: usize) -> bool
        ensures seen { IsTrue result ↔ (most_of self.now ≤ most) }
        ensures few { length self.now.terms ≤ most_of self.now }
    {
        let waiting = self.waiting.len();
        waiting <= most && self.map.len() <= most - waiting
    }

    /// The size, where no terms wait.
    pub(crate) fn len(&self) -> usize
        requires { self.now.waiting ≡ 0 }
        ensures size { result ≡ length self.now.terms }
        ensures counted { result ≡ self.now.counted }
    {
        self.map.len()
    }
}
