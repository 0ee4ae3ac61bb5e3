//! Bits that are replaced and taken out.
ghost use Rattle.poly_mixed.specs.Polynomial.{IsReduced};

use super::common::{has_text, read};
use crate::circuits::field;
use gf_field::Field;
use poly_mixed::{Generator, NoSteps, Poly, Steps, table_poly};
use std::alloc::{AllocError, Global};
use std::process::Abort;

// the exclusive or of bits 2 and 3 in place of bit 1
fn replace<F: Field>(alloc: Global, field: &F, poly: &mut Poly) -> Result<(), AllocError>
    requires { IsReduced (F.degree field.now) poly.old.terms }
{
    let by = table_poly(alloc, field, &[2, 3], 0b0110)?;
    poly.substitute_bit(field, 1, &by)
}

// bit 0 times bit 1, with the exclusive or of bits 2 and 3 in place of bit 1
fn replaced<F: Field>(alloc: Global, field: &F) -> Result<Poly, AllocError> {
    let mut poly = table_poly(alloc, field, &[0, 1], 0b1000)?;
    replace(alloc, field, &mut poly)?;
    Ok(poly)
}

// whether the terms with bit 3 are these without it; nothing is recorded
fn has_cofactor(rt: &impl Abort, alloc: Global, poly: &Poly, text: &[u8]) -> bool {
    match poly.cofactor(alloc, 3) {
        Ok(part) => {
            NoSteps.step(Generator::Net(3), &part).is_ok() && has_text(rt, alloc, &part, text)
        }
        Err(_) => false,
    }
}

#[test]
fn a_bit_is_replaced(rt: HostRuntime) {
    let alloc = rt.alloc();
    let is_replaced = match replaced(alloc, &field(&rt)) {
        Ok(poly) => {
            poly.len() == 2
                && !poly.has(1)
                && poly.has(3)
                && has_cofactor(&rt, alloc, &poly, b"A[0]")
        }
        Err(_) => false,
    };
    assert!(rt; is_replaced);
}

// whether a bit taken out leaves these two polynomials: the terms with it, and the others
fn leaves(
    rt: &impl Abort,
    alloc: Global,
    poly: &mut Poly,
    bit: u32,
    taken: &[u8],
    left: &[u8],
) -> bool {
    match poly.take_cofactor(alloc, bit) {
        Ok(part) => {
            !poly.has(bit) && has_text(rt, alloc, &part, taken) && has_text(rt, alloc, poly, left)
        }
        Err(_) => false,
    }
}

// whether of twice bit 1 and 2 the terms with the bit and those without it are these
fn takes(rt: &impl Abort, alloc: Global, bit: u32, taken: &[u8], left: &[u8]) -> bool {
    match read(rt, alloc, &field(rt), b"0x2*A[1] + 0x2") {
        Some(mut poly) => leaves(rt, alloc, &mut poly, bit, taken, left),
        None => false,
    }
}

// the second bit stands nowhere
#[test]
fn the_terms_with_a_bit_are_taken_out(rt: HostRuntime) {
    let alloc = rt.alloc();
    assert!(rt; takes(&rt, alloc, 1, b"0x2", b"0x2"));
    assert!(rt; takes(&rt, alloc, 2, b"0", b"0x2*A[1] + 0x2"));
}
