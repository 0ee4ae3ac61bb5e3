//! Products, powers and traces whose values come from outside.

ghost use Rattle.std.specs.Prelude.{◌<◌, ◌^◌};
ghost use Rattle.gf_field.specs.Ring2k.{degree_of};

use gf_field::{Ring, Ring2k, filled, first_outside, frobenius, is_element, power};
use std::process::Abort;

// a ring that is known to exist
fn ring(rt: &impl Abort, modulus: u128) -> Ring2k {
    Ring2k::new(modulus).expect(rt, "a modulus")
}

// a product in the ring of this modulus
fn product(rt: &impl Abort, modulus: u128, a: u64, b: u64) -> u64 {
    let ring = ring(rt, modulus);
    assert!(rt; is_element(&ring, a) && is_element(&ring, b));
    ring.mul(a, b)
}

// a power in the ring of this modulus
fn power_in(rt: &impl Abort, modulus: u128, a: u64, e: u64) -> u64 {
    let ring = ring(rt, modulus);
    assert!(rt; is_element(&ring, a));
    power(&ring, a, e)
}

static PRODUCTS: [(u128, u64, u64, u64); 12] = [
    (0x2, 1, 1, 1),
    (0x3, 1, 1, 1),
    (0x7, 2, 2, 3),
    (0x7, 2, 3, 1),
    (0xb, 2, 4, 3),
    (0xb, 6, 3, 1),
    (0x13, 8, 2, 3),
    (0x13, 2, 9, 1),
    (0x11b, 0x53, 0xca, 1),
    (0x11b, 0x57, 0x83, 0xc1),
    (0x1000000000000001b, 0x8000000000000000, 2, 0x1b),
    (0x1000000000000001b, 2, 0x800000000000000d, 1),
];

#[test]
fn modular_products(rt: HostRuntime) {
    for (modulus, a, b, want) in &PRODUCTS {
        assert!(rt;
            product(&rt, *modulus, *a, *b) == *want,
            "at {modulus}, {a} and {b}"
        );
    }
}

// a modulus, an element, an exponent and the power; 2, 3 and 2 have these orders in the first six rows
static POWERS: [(u128, u64, u64, u64); 10] = [
    (0x7, 2, 3, 1),
    (0xb, 2, 7, 1),
    (0x13, 2, 15, 1),
    (0x1f, 2, 5, 1),
    (0x11b, 3, 255, 1),
    (0x11b, 2, 51, 1),
    (0x11b, 0, 0, 1),
    (0x11b, 0, 5, 0),
    (0x1000000000000001b, 2, 0xffffffffffffffff, 1),
    (0x11b, 3, 85, 0xbd),
];

#[test]
fn orders(rt: HostRuntime) {
    for (modulus, a, e, want) in &POWERS {
        assert!(rt;
            power_in(&rt, *modulus, *a, *e) == *want,
            "at {modulus}, {a} and {e}"
        );
    }
}

static NO_MODULI: [u128; 4] = [
    0,
    1,
    0x20000000000000000,
    0xffffffffffffffffffffffffffffffff,
];

static DEGREES: [(u128, u32); 6] = [
    (0x2, 1),
    (0x3, 1),
    (0x7, 2),
    (0x9, 3),
    (0x1000000000000001b, 64),
    (0x1ffffffffffffffff, 64),
];

fn has_degree(rt: &impl Abort, modulus: u128, k: u32) -> bool {
    let ring = ring(rt, modulus);
    ring.k() == k && ring.modulus() == modulus && ring.one() == 1
}

#[test]
fn moduli_and_degrees(rt: HostRuntime) {
    for modulus in &NO_MODULI {
        assert!(rt; Ring2k::new(*modulus).is_err(), "at {modulus}");
    }
    for (modulus, k) in &DEGREES {
        assert!(rt; has_degree(&rt, *modulus, *k), "at {modulus}");
    }
}

// a sum and a square in the ring of 0x11b
fn sum_and_square(rt: &impl Abort, a: u64, b: u64) -> (u64, u64) {
    let ring = ring(rt, 0x11b);
    assert!(rt; is_element(&ring, a) && is_element(&ring, b));
    (ring.add(a, b), ring.square(a))
}

// the power of 0x53 in that ring whose exponent is 2 to the j
fn frobenius_at(rt: &impl Abort, j: u32) -> u64 {
    let ring = ring(rt, 0x11b);
    assert!(rt; is_element(&ring, 0x53));
    frobenius(&ring, 0x53, j)
}

#[test]
fn squares(rt: HostRuntime) {
    assert!(rt; sum_and_square(&rt, 0x53, 0xca) == (0x99, 0xb5));
    for (j, want) in [(0, 0x53), (1, 0xb5), (8, 0x53)] {
        assert!(rt; frobenius_at(&rt, j) == want, "at {j}");
    }
    assert!(rt; !is_element(&ring(&rt, 0x11b), 0x100));
}

// a product by a table
fn by_table(ring: &Ring2k, a: u64, b: u64) -> u64
    requires first { a < 2 ^ degree_of ring.now }
    requires second { b < 2 ^ degree_of ring.now }
{
    ring.by(&ring.times(a), b)
}

fn product_by_table(rt: &impl Abort, modulus: u128, a: u64, b: u64) -> u64 {
    let ring = ring(rt, modulus);
    assert!(rt; is_element(&ring, a) && is_element(&ring, b));
    by_table(&ring, a, b)
}

// an entry of an element's table
fn multiple(rt: &impl Abort, modulus: u128, a: u64, n: u32) -> u64
    requires { n < 16 }
{
    let ring = ring(rt, modulus);
    assert!(rt; is_element(&ring, a));
    ring.times(a).multiples()[n as usize]
}

static MULTIPLES: [u64; 8] = [0, 2, 3, 1, 1, 3, 2, 0];

#[test]
fn tables(rt: HostRuntime) {
    assert!(rt; product_by_table(&rt, 0x7, 0x2, 0x3) == 1);
    for n in 0..8u32 {
        assert!(rt;
            multiple(&rt, 0x7, 0x2, n) == MULTIPLES[n as usize],
            "at {n}"
        );
    }
    for n in 0..16u32 {
        assert!(rt;
            multiple(&rt, 0x3, 1, n) == u64::from(n.count_ones() % 2),
            "at {n}"
        );
    }
}

#[test]
fn elements(rt: HostRuntime) {
    let ring = ring(&rt, 0x7);
    assert!(rt; first_outside(&ring, &[1, 3, 4, 5]) == Some(2));
    assert!(rt; first_outside(&ring, &[1, 3]).is_none());
    let numbers = filled(&[1, 3]);
    assert!(rt; numbers[1] == 3 && numbers[2] == 0);
}
