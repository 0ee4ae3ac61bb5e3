//! The square of a polynomial. In a field of 2^k elements the square of a sum is the sum of the squares.
ghost use Rattle.std.specs.Prelude.{IfOk};
ghost use Rattle.poly_mixed.specs.Polynomial.{IsReduced, IsTerm, term_value, value};
ghost use Rattle.term_expand.specs.private.Square.{IsSquareOf};

use gf_field::Field;
use poly_mixed::{Mono, Poly, Term};
use std::alloc::{AllocError, Global};

// The square of one term.
fn square_of_term<F: Field>(alloc: Global, field: &F, term: &Term) -> Result<Poly, AllocError>
    requires { IsTerm (F.degree field.now) term.now }
    ensures { IfOk result (λ q. IsSquareOf (F.degree field.now) (F.product field.now) (λ p. term_value (F.product field.now) p term.now) q.terms) }
{
    let mono = term.mono();
    let copy = Mono::new(alloc, mono.bits(), mono.exponents())?;
    let single = Poly::term(alloc, field, term.coefficient(), copy)?;
    single.mul(alloc, field, &single)
}

/// The square of a polynomial, which has the squares of its terms.
pub(crate) fn squared<F: Field>(alloc: Global, field: &F, poly: &Poly) -> Result<Poly, AllocError>
    requires { IsReduced (F.degree field.now) poly.now.terms }
    ensures { IfOk result (λ q. IsSquareOf (F.degree field.now) (F.product field.now) (λ p. value (F.product field.now) p poly.now.terms) q.terms) }
{
    let terms = poly.terms(alloc)?;
    let mut sum = Poly::zero(alloc);
    for i in 0..terms.len() {
        let square = square_of_term(alloc, field, &terms[i])?;
        sum.add_into(field, &square)?;
    }
    Ok(sum)
}
