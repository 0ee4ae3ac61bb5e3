//! Polynomials that are only read: lists of terms.
ghost use Rattle.std.specs.Prelude.{◌≡◌, ◌<◌, [], length, get_or, IfOk};
ghost use Rattle.cert_check.specs.private.Kept.{terms_of};

use poly_mixed::{Poly, Term};
use std::alloc::{AllocError, Global};
use std::marker::Model;

/// A polynomial as the list of its terms.
#[derive(Drop)]
pub(crate) struct TermList {
    list: Vec<Term>,
}

impl Model for TermList {
    ghost use Rattle.std.specs.Prelude.{[]};
    ghost use Rattle.poly_mixed.specs.Polynomial.{Polynomial};

    ghost Value = { Polynomial };

    ghost view = { λ l. record { terms = l.list.items; slots = [] } };
}

impl TermList {
    /// The terms of a polynomial.
    pub(crate) fn of(alloc: Global, poly: &Poly) -> Result<TermList, AllocError>
        ensures { IfOk result (λ l. l.terms ≡ poly.now.terms) }
    {
        let list = poly.terms(alloc)?;
        Ok(TermList { list })
    }

    /// The terms.
    pub(crate) fn terms(&self) -> &[Term]
        ensures { result.now ≡ self.now.terms }
    {
        self.list.as_slice()
    }
}

/// The terms of the list with this number.
pub(crate) fn shared_terms(shared: &[TermList], number: u32) -> &[Term]
    requires { number < length shared.now }
    ensures { result.now ≡ get_or (terms_of shared.now) number [] }
{
    shared[number as usize].terms()
}
