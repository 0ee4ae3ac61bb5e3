//! Ranks, inverses and irreducible moduli whose values come from outside.

use gf_field::{Field, Ring, Ring2k, is_element, trace};
use irreducible::{BitMatrix, Proved};
use std::process::Abort;

// the field of this modulus, if it is one
fn field(modulus: u128) -> Option<Proved<Ring2k>> {
    match Ring2k::new(modulus) {
        Ok(ring) => Proved::new(ring).ok(),
        Err(_) => None,
    }
}

// an inverse in the field of this modulus
fn inverse(rt: &impl Abort, modulus: u128, a: u64) -> u64 {
    let field = field(modulus).expect(rt, "a field");
    assert!(rt; is_element(&field, a) && a != 0);
    field.inv(a)
}

// how many moduli from `low` to below `high` are irreducible
fn count(low: u128, high: u128) -> u32 {
    let mut found = 0u32;
    for modulus in low..high {
        if field(modulus).is_some() {
            found = found.wrapping_add(1);
        }
    }
    found
}

// a trace in the field of this modulus
fn trace_in(rt: &impl Abort, modulus: u128, a: u64) -> u64 {
    let field = field(modulus).expect(rt, "a field");
    assert!(rt; is_element(&field, a));
    trace(&field, a)
}

// whether the field of this modulus exists and has it
fn is_modulus(modulus: u128) -> bool {
    match field(modulus) {
        Some(field) => field.ring().modulus() == modulus,
        None => false,
    }
}

static MODULI: [(u128, bool); 16] = [
    (0x15, false),
    (0x9, false),
    (0x5, false),
    (0x11, false),
    (0x4, false),
    (0x6, false),
    (0x101, false),
    (0x10000000000000001, false),
    (0x2, true),
    (0x3, true),
    (0x7, true),
    (0xb, true),
    (0x13, true),
    (0x1f, true),
    (0x11b, true),
    (0x1000000000000001b, true),
];

#[test]
fn irreducible_moduli(rt: HostRuntime) {
    for (modulus, is) in &MODULI {
        assert!(rt; is_modulus(*modulus) == *is, "at {modulus}");
    }
}

static COUNTS: [(u128, u128, u32); 8] = [
    (0x2, 0x4, 2),
    (0x4, 0x8, 1),
    (0x8, 0x10, 2),
    (0x10, 0x20, 3),
    (0x20, 0x40, 6),
    (0x40, 0x80, 9),
    (0x80, 0x100, 18),
    (0x100, 0x200, 30),
];

#[test]
fn irreducible_polynomials(rt: HostRuntime) {
    for (low, high, want) in &COUNTS {
        assert!(rt; count(*low, *high) == *want, "from {low}");
    }
}

static INVERSES: [(u128, u64, u64); 8] = [
    (0x2, 1, 1),
    (0x3, 1, 1),
    (0x7, 2, 3),
    (0xb, 2, 5),
    (0x13, 2, 9),
    (0x11b, 0x53, 0xca),
    (0x11b, 0x02, 0x8d),
    (0x1000000000000001b, 2, 0x800000000000000d),
];

#[test]
fn inverses_in_fields(rt: HostRuntime) {
    for (modulus, a, want) in &INVERSES {
        assert!(rt; inverse(&rt, *modulus, *a) == *want, "at {modulus} and {a}");
    }
}

static TRACES: [(u128, u64, u64); 8] = [
    (0x2, 1, 1),
    (0x3, 1, 1),
    (0x7, 1, 0),
    (0x7, 2, 1),
    (0xb, 1, 1),
    (0xb, 2, 0),
    (0x13, 1, 0),
    (0x13, 8, 1),
];

#[test]
fn traces_in_fields(rt: HostRuntime) {
    for (modulus, a, want) in &TRACES {
        assert!(rt;
            trace_in(&rt, *modulus, *a) == *want,
            "at {modulus} and {a}"
        );
    }
}

#[test]
fn empty_matrices(rt: HostRuntime) {
    assert!(rt; BitMatrix::new(&[]).rank() == 0);
    assert!(rt; BitMatrix::new(&[0]).rank() == 0);
}

// rows 011, 110, 101 add up to 0
#[test]
fn dependent_rows(rt: HostRuntime) {
    let dependent = BitMatrix::new(&[3, 6, 5]);
    assert!(rt; dependent.rank() == 2 && dependent.inverse().is_none());
    let kernel = dependent.kernel();
    assert!(rt; kernel[2] == 7 && kernel[0] == 0);
    assert!(rt; dependent.solve(5) == Some(3) && dependent.solve(0) == Some(0));
    assert!(rt; dependent.solve(1).is_none());
}

// rows 011, 110, 100 do not
#[test]
fn independent_rows(rt: HostRuntime) {
    let matrix = BitMatrix::new(&[3, 6, 4]);
    assert!(rt; matrix.rank() == 3 && matrix.apply(5) == 7);
    assert!(rt; matrix.kernel()[2] == 0);
    assert!(rt; matrix.solve(1) == Some(7));
}

#[test]
fn inverse_of_a_matrix(rt: HostRuntime) {
    let matrix = BitMatrix::new(&[3, 6, 4]);
    let inverse = matrix.inverse().expect(&rt, "an inverse");
    assert!(rt; inverse.apply(1) == 7 && inverse.apply(2) == 6);
    assert!(rt; inverse.apply(4) == 4 && inverse.apply(7) == 5);
}
