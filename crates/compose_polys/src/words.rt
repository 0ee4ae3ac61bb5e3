//! The words of a top as polynomials.
ghost use Rattle.std.specs.Prelude.{◌≡◌, ◌<◌, ◌≤◌, length, map, slice_index, IfOk};
ghost use Rattle.poly_mixed.specs.Polynomial.{IsPolynomialOf};
ghost use Rattle.compose_polys.specs.Words.{AreWordPolys};

use gf_field::Field;
use poly_mixed::{Poly, scaled_power};
use std::alloc::{AllocError, Global};

// The polynomial of a word.
fn word_poly<F: Field>(alloc: Global, field: &F, word: usize) -> Result<Poly, AllocError>
    requires { word < 8 }
    ensures { IfOk result (λ q. IsPolynomialOf (F.degree field.now) (F.product field.now) (λ p. slice_index p.words word) q.terms) }
{
    scaled_power(alloc, field, 1, word, 1)
}

/// The polynomials of the first words, at most eight: each is the word itself.
pub fn word_polys<F: Field>(alloc: Global, field: &F, count: usize) -> Result<Vec<Poly>, AllocError>
    requires { count ≤ 8 }
    ensures count { IfOk result (λ polys. length polys.items ≡ count) }
    ensures words { IfOk result (λ polys. AreWordPolys (F.degree field.now) (F.product field.now) (map (λ q. q.terms) polys.items)) }
{
    let mut polys = Vec::new(alloc);
    for word in 0..count {
        polys.push(word_poly(alloc, field, word)?)?;
    }
    Ok(polys)
}
