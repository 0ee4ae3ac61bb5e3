//! A polynomial between two words.
ghost use Rattle.std.specs.Prelude.{◌≡◌, IfOk};
ghost use Rattle.poly_mixed.specs.Polynomial.{IsMap};
ghost use Rattle.word_subst.specs.private.Held.{terms_of};

use crate::listed::poly_of;
use poly_mixed::{Poly, Term};
use std::alloc::{AllocError, Global};

/// A polynomial as the list of its terms in the order of a text, as it comes, or as a map, as a word leaves it.
#[derive(Drop)]
pub enum Held {
    Listed(Vec<Term>),
    Mapped(Poly),
}

impl Held {
    /// The terms in the order of a text. A list is handed on as it is.
    pub fn terms(self, alloc: Global) -> Result<Vec<Term>, AllocError>
        ensures { IfOk result (λ v. v.items ≡ terms_of self) }
    {
        match self {
            Held::Listed(terms) => Ok(terms),
            Held::Mapped(poly) => {
                let terms = poly.terms(alloc)?;
                Ok(terms)
            }
        }
    }

    /// The polynomial. A map is handed on as it is.
    pub fn into_poly(self, alloc: Global) -> Result<Poly, AllocError>
        requires { IsMap (terms_of self) }
        ensures { IfOk result (λ poly. poly.terms ≡ terms_of self) }
    {
        match self {
            Held::Listed(terms) => {
                let poly = poly_of(alloc, &terms)?;
                Ok(poly)
            }
            Held::Mapped(poly) => Ok(poly),
        }
    }
}
