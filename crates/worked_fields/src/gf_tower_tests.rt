//! Towers whose products and refusals come from outside.

use gf_field::{Field, Ring, is_element};
use gf_tower::{AnyField, FieldFault, Tower};
use std::process::Abort;

// a product in any field
fn product_in<F: Field>(rt: &impl Abort, field: &F, a: u64, b: u64) -> u64 {
    assert!(rt; is_element(field, a) && is_element(field, b));
    field.mul(a, b)
}

// an inverse in any field
fn inverse_in<F: Field>(rt: &impl Abort, field: &F, a: u64) -> u64 {
    assert!(rt; is_element(field, a) && a != 0);
    field.inv(a)
}

fn product(rt: &impl Abort, field: &AnyField, a: u64, b: u64) -> u64 {
    match field {
        AnyField::Base(field) => product_in(rt, field, a, b),
        AnyField::Tower(field) => product_in(rt, field, a, b),
        AnyField::Upper(field) => product_in(rt, field, a, b),
    }
}

fn inverse(rt: &impl Abort, field: &AnyField, a: u64) -> u64 {
    match field {
        AnyField::Base(field) => inverse_in(rt, field, a),
        AnyField::Tower(field) => inverse_in(rt, field, a),
        AnyField::Upper(field) => inverse_in(rt, field, a),
    }
}

// a field that is known to exist
fn field(rt: &impl Abort, modulus: u128, tower: &[u64], upper: &[u64]) -> AnyField {
    assert!(rt; !tower.is_empty() || upper.is_empty());
    AnyField::new(modulus, tower, upper).expect(rt, "a field")
}

// a modulus, the coefficients of one step or two, two elements and their product; the towers are Y^2 + Y + x over GF(4),
// and Z^2 + Z + 8 over that one
static PRODUCTS: [(u128, &[u64], &[u64], u64, u64, u64); 11] = [
    (0x7, &[0x2, 0x1], &[], 0x4, 0x4, 0x6),
    (0x7, &[0x2, 0x1], &[], 0x4, 0x5, 0x2),
    (0x7, &[0x2, 0x1], &[], 0x2, 0x2, 0x3),
    (0x7, &[0x2, 0x1], &[], 0x2, 0x4, 0x8),
    (0x7, &[0x2, 0x1], &[], 0x8, 0x8, 0xd),
    (0x7, &[0x2, 0x1], &[], 0xf, 0x1, 0xf),
    (0x7, &[0x2, 0x1], &[0x8, 0x1], 0x10, 0x10, 0x18),
    (0x7, &[0x2, 0x1], &[0x8, 0x1], 0x10, 0x11, 0x8),
    (0x7, &[0x2, 0x1], &[0x8, 0x1], 0x53, 0xca, 0xd),
    (0x7, &[0x2, 0x1], &[0x8, 0x1], 0xff, 0x2, 0x55),
    (0x11b, &[], &[], 0x53, 0xca, 1),
];

#[test]
fn products_in_towers(rt: HostRuntime) {
    for (modulus, tower, upper, a, b, want) in &PRODUCTS {
        let field = field(&rt, *modulus, tower, upper);
        assert!(rt; product(&rt, &field, *a, *b) == *want, "at {a} and {b}");
        assert!(rt; product(&rt, &field, *b, *a) == *want, "at {b} and {a}");
    }
}

#[test]
fn inverses_in_towers(rt: HostRuntime) {
    let tower = field(&rt, 0x7, &[0x2, 0x1], &[]);
    for a in 1..16 {
        assert!(rt;
            product(&rt, &tower, a, inverse(&rt, &tower, a)) == 1,
            "at {a}"
        );
    }
    let upper = field(&rt, 0x7, &[0x2, 0x1], &[0x8, 0x1]);
    assert!(rt; product(&rt, &upper, 0x35, inverse(&rt, &upper, 0x35)) == 1);
}

// whether the field is the tower of Y^2 + Y + x over GF(4)
fn is_tower(field: &AnyField) -> bool {
    match field {
        AnyField::Base(_) | AnyField::Upper(_) => false,
        AnyField::Tower(field) => {
            field.k() == 4
                && field.ring().coefficients() == [0x2, 0x1].as_slice()
                && field.ring().base().ring().modulus() == 0x7
        }
    }
}

#[test]
fn parts(rt: HostRuntime) {
    assert!(rt; is_tower(&field(&rt, 0x7, &[0x2, 0x1], &[])));
}

// the number that stands for a fault
fn fault(rt: &impl Abort, modulus: u128, tower: &[u64], upper: &[u64]) -> u32 {
    assert!(rt; !tower.is_empty() || upper.is_empty());
    match AnyField::new(modulus, tower, upper) {
        Ok(_) => 0,
        Err(FieldFault::BadDegree) => 1,
        Err(FieldFault::NotIrreducible) => 2,
        Err(FieldFault::BadLength) => 3,
        Err(FieldFault::BadCoefficient { place }) => 40u32.wrapping_add(place),
        Err(FieldFault::TowerNotIrreducible) => 5,
        Err(FieldFault::UpperBadLength) => 6,
        Err(FieldFault::UpperBadCoefficient { place }) => 70u32.wrapping_add(place),
        Err(FieldFault::UpperNotIrreducible) => 8,
    }
}

// a modulus, the coefficients of one step or two, and the number of the fault
static FAULTS: [(u128, &[u64], &[u64], u32); 18] = [
    (0x1, &[], &[], 1),
    (0x20000000000000000, &[], &[], 1),
    (0x5, &[], &[], 2),
    (0x15, &[0x9], &[], 2),
    (0x7, &[0x2], &[], 3),
    (0x1000000000000001b, &[0x2, 0x1], &[], 3),
    (0x11b, &[0; 9], &[], 3),
    (0x7, &[0x2, 0x4], &[], 41),
    (0x7, &[0x4, 0x4], &[], 40),
    (0x7, &[0x1, 0x1], &[], 5),
    (0x7, &[0x2, 0x1], &[], 0),
    (0x3, &[0x1, 0x1], &[], 0),
    (0x7, &[0x2, 0x1], &[0x8, 0x1], 0),
    (0x7, &[0x2, 0x1], &[0x8], 6),
    (0x7, &[0x2, 0x1], &[0; 17], 6),
    (0x7, &[0x2, 0x1], &[0x8, 0x10], 71),
    (0x7, &[0x2, 0x1], &[0x2, 0x1], 8),
    (0x7, &[0x1, 0x1], &[0x8], 5),
];

#[test]
fn refusals(rt: HostRuntime) {
    for (modulus, tower, upper, want) in &FAULTS {
        assert!(rt;
            fault(&rt, *modulus, tower, upper) == *want,
            "at {modulus}, {tower:?} and {upper:?}"
        );
    }
}
