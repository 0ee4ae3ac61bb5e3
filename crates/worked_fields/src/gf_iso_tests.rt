//! Isomorphisms whose images come from outside.
use gf_field::{Ring, Ring2k, is_element};
use gf_iso::{Iso, IsoFault};
use gf_tower::{AnyField, Tower};
use irreducible::Proved;
use std::process::Abort;

fn field(rt: &impl Abort, modulus: u128) -> Proved<Ring2k> {
    match AnyField::new(modulus, &[], &[]) {
        Ok(AnyField::Base(field)) => field,
        _ => panic!(rt; "no field"),
    }
}

fn tower(rt: &impl Abort, modulus: u128, coefficients: &[u64]) -> Proved<Tower<Proved<Ring2k>>> {
    match AnyField::new(modulus, coefficients, &[]) {
        Ok(AnyField::Tower(field)) => field,
        _ => panic!(rt; "no tower"),
    }
}

// whether 2^i has the image that is given for each place i, and comes back
fn has_images(
    rt: &impl Abort,
    big: u128,
    modulus: u128,
    coefficients: &[u64],
    want: &[u64],
) -> bool {
    let big = field(rt, big);
    let iso = Iso::find(&big, &tower(rt, modulus, coefficients)).expect(rt, "an isomorphism");
    assert!(rt; want.len() == big.k() as usize);
    for (i, image) in want.iter().enumerate() {
        let unit = 1 << i;
        assert!(rt; is_element(&big, unit) && is_element(&big, *image));
        if iso.to_big(unit) != *image || iso.to_tower(*image) != unit {
            return false;
        }
    }
    true
}

fn is_unfit(rt: &impl Abort, big: u128, modulus: u128, coefficients: &[u64]) -> bool {
    match Iso::find(&field(rt, big), &tower(rt, modulus, coefficients)) {
        Ok(_) => false,
        Err(IsoFault::Unfit) => true,
    }
}

// the modulus of a field, the modulus and the coefficients of a tower, and the images
static IMAGES: [(u128, u128, &[u64], &[u64]); 5] = [
    (0x13, 0x7, &[0x2, 0x1], &[0x1, 0x6, 0x2, 0xc]),
    (0x7, 0x2, &[0x1, 0x1], &[0x1, 0x2]),
    (0x7, 0x3, &[0x1, 0x1], &[0x1, 0x2]),
    (0x43, 0xb, &[0x1, 0x2], &[0x1, 0xe, 0x17, 0x14, 0x1d, 0x20]),
    (
        0x11b,
        0x13,
        &[0x9, 0x1],
        &[0x1, 0x5c, 0xe0, 0x50, 0x1e, 0xb2, 0xb5, 0x3a],
    ),
];

#[test]
fn least_roots(rt: HostRuntime) {
    for (big, modulus, coefficients, want) in &IMAGES {
        assert!(rt;
            has_images(&rt, *big, *modulus, coefficients, want),
            "at {big} and {modulus}"
        );
    }
}

// the fourth tower has degree 3 over GF(4), and fits no field; the base of the last has 17 bits
static UNFIT: [(u128, u128, &[u64], bool); 5] = [
    (0x13, 0x7, &[0x2, 0x1], false),
    (0x7, 0x7, &[0x2, 0x1], true),
    (0x11b, 0x7, &[0x2, 0x1], true),
    (0x43, 0x7, &[0x2, 0x0, 0x0], true),
    (0x400000081, 0x20009, &[0x1, 0x1], true),
];

#[test]
fn refusals(rt: HostRuntime) {
    for (big, modulus, coefficients, is) in &UNFIT {
        assert!(rt;
            is_unfit(&rt, *big, *modulus, coefficients) == *is,
            "at {big}"
        );
    }
}
