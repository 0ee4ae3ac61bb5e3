//! Exponents of products of powers of a word.
ghost use Rattle.poly_mixed.specs.Polynomial.{IsElement, IsReduced};

use crate::circuits::field_of;
use gf_field::{Field, is_element};
use poly_mixed::{Poly, scaled_power};
use std::alloc::{AllocError, Global};

// a polynomial times a power of word 0
fn times<F: Field>(alloc: Global, field: &F, poly: &Poly, exponent: u64) -> Result<Poly, AllocError>
    requires one { IsElement (F.degree field.now) 1 }
    requires exponent { IsElement (F.degree field.now) exponent }
    requires over { IsReduced (F.degree field.now) poly.now.terms }
{
    let power = scaled_power(alloc, field, 1, 0, exponent)?;
    poly.mul(alloc, field, &power)
}

// the product of two powers of word 0
fn product<F: Field>(alloc: Global, field: &F, i: u64, j: u64) -> Result<Poly, AllocError>
    requires one { IsElement (F.degree field.now) 1 }
    requires first { IsElement (F.degree field.now) i }
    requires second { IsElement (F.degree field.now) j }
{
    let power = scaled_power(alloc, field, 1, 0, i)?;
    times(alloc, field, &power, j)
}

// whether this is the exponent of word 0 in the only term
fn has_exponent(alloc: Global, poly: &Poly, want: u64) -> bool {
    match poly.terms(alloc) {
        Ok(terms) => match terms.as_slice() {
            [term] => term.mono().exponents()[0] == want,
            _ => false,
        },
        Err(_) => false,
    }
}

// whether the product of two powers over a field has this exponent
fn multiplies<F: Field>(alloc: Global, field: &F, i: u64, j: u64, want: u64) -> bool {
    if !is_element(field, 1) || !is_element(field, i) || !is_element(field, j) {
        return false;
    }
    match product(alloc, field, i, j) {
        Ok(product) => has_exponent(alloc, &product, want),
        Err(_) => false,
    }
}

// over 2, 4 and 2^64 elements
static PRODUCTS: [(u128, u64, u64, u64); 10] = [
    (0x2, 1, 1, 1),
    (0x2, 0, 0, 0),
    (0x7, 1, 2, 3),
    (0x7, 3, 1, 1),
    (0x7, 3, 3, 3),
    (0x7, 2, 2, 1),
    (0x1000000000000001b, u64::MAX, 0, u64::MAX),
    (0x1000000000000001b, u64::MAX, 1, 1),
    (0x1000000000000001b, u64::MAX, u64::MAX, u64::MAX),
    (0x1000000000000001b, 1 << 63, 1 << 63, 1),
];

#[test]
fn products_of_powers(rt: HostRuntime) {
    for (modulus, i, j, want) in &PRODUCTS {
        assert!(rt;
            multiplies(rt.alloc(), &field_of(&rt, *modulus), *i, *j, *want),
            "{i} and {j}"
        );
    }
}
