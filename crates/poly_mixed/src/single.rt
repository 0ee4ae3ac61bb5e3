//! Polynomials of one term.
ghost use Rattle.std.specs.Prelude.{◌<◌, cond, slice_index, IfOk};
ghost use Rattle.gf_field.specs.Power.{power};
ghost use Rattle.poly_mixed.specs.Polynomial.{IsElement, IsPolynomialOf};

use crate::{Mono, Poly};
use gf_field::Field;
use std::alloc::{AllocError, Global};

/// The polynomial of an element, below 2^k.
pub fn constant<F: Field>(alloc: Global, field: &F, c: u64) -> Result<Poly, AllocError>
    requires { IsElement (F.degree field.now) c }
    ensures { IfOk result (λ q. IsPolynomialOf (F.degree field.now) (F.product field.now) (λ p. c) q.terms) }
{
    let mono = Mono::new(alloc, &[], &[0; 8])?;
    Poly::term(alloc, field, c, mono)
}

/// The polynomial of a bit times an element, below 2^k.
pub fn scaled_bit<F: Field>(alloc: Global, field: &F, c: u64, rank: u32) -> Result<Poly, AllocError>
    requires { IsElement (F.degree field.now) c }
    ensures { IfOk result (λ q. IsPolynomialOf (F.degree field.now) (F.product field.now) (λ p. cond (p.is_one rank) c 0) q.terms) }
{
    let mono = Mono::new(alloc, &[rank], &[0; 8])?;
    Poly::term(alloc, field, c, mono)
}

/// The polynomial of a power of a word, 0 to 7, times an element, below 2^k; the exponent is below 2^k too.
pub fn scaled_power<F: Field>(
    alloc: Global,
    field: &F,
    c: u64,
    word: usize,
    exponent: u64,
) -> Result<Poly, AllocError>
    requires element { IsElement (F.degree field.now) c }
    requires word { word < 8 }
    requires exponent { IsElement (F.degree field.now) exponent }
    ensures { IfOk result (λ q. IsPolynomialOf (F.degree field.now) (F.product field.now) (λ p. F.product field.now c (power (F.product field.now) (slice_index p.words word) exponent)) q.terms) }
{
    let mut exponents = [0; 8];
    exponents[word] = exponent;
    let mono = Mono::new(alloc, &[], &exponents)?;
    Poly::term(alloc, field, c, mono)
}
