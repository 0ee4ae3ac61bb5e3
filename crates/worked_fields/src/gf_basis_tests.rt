//! Bases whose duals, bits and linear forms come from outside.

ghost use Rattle.std.specs.Prelude.{◌<◌};
ghost use Rattle.gf_basis.specs.BasisParts.{IsBasisOver};

use gf_basis::{Basis, BasisFault};
use gf_field::{Field, Ring, Ring2k, is_element};
use irreducible::Proved;
use std::process::Abort;

// a field that is known to exist
fn field(rt: &impl Abort, modulus: u128) -> Proved<Ring2k> {
    let ring = Ring2k::new(modulus).expect(rt, "a modulus");
    Proved::new(ring).ok().expect(rt, "a field")
}

// the bits of an element, from which the element comes back
fn bits<F: Field>(rt: &impl Abort, field: &F, basis: &Basis, element: u64) -> u64
    requires { IsBasisOver (F.degree field.now) (F.product field.now) basis.now }
{
    assert!(rt; is_element(field, element));
    let bits = basis.bits_of(field, element);
    assert!(rt; basis.element_of(bits) == element);
    bits
}

fn dual<F: Field>(rt: &impl Abort, field: &F, basis: &Basis, i: u32) -> u64
    requires { IsBasisOver (F.degree field.now) (F.product field.now) basis.now }
{
    assert!(rt; i < field.k());
    basis.dual(i)
}

fn element<F: Field>(rt: &impl Abort, field: &F, basis: &Basis, i: u32) -> u64
    requires { IsBasisOver (F.degree field.now) (F.product field.now) basis.now }
{
    assert!(rt; i < field.k());
    basis.element(i)
}

// a dual of a polynomial basis
fn poly_dual(rt: &impl Abort, modulus: u128, i: u32) -> u64 {
    let field = field(rt, modulus);
    dual(rt, &field, &Basis::poly(&field), i)
}

static POLY_DUALS: [(u128, u32, u64); 11] = [
    (0x2, 0, 0x1),
    (0x3, 0, 0x1),
    (0x7, 0, 0x3),
    (0x7, 1, 0x1),
    (0xb, 0, 0x1),
    (0xb, 1, 0x4),
    (0xb, 2, 0x2),
    (0x13, 0, 0x9),
    (0x13, 1, 0x4),
    (0x13, 2, 0x2),
    (0x13, 3, 0x1),
];

#[test]
fn duals_of_polynomial_bases(rt: HostRuntime) {
    for (modulus, i, want) in &POLY_DUALS {
        assert!(rt;
            poly_dual(&rt, *modulus, *i) == *want,
            "at {modulus} and {i}"
        );
    }
}

// the bits of an element in a polynomial basis
fn poly_bits(rt: &impl Abort, modulus: u128, element: u64) -> u64 {
    let field = field(rt, modulus);
    bits(rt, &field, &Basis::poly(&field), element)
}

// elements that are their own bits
static POLY_ELEMENTS: [(u128, u64); 9] = [
    (0x2, 1),
    (0x3, 1),
    (0x1000000000000001b, 0),
    (0x1000000000000001b, 1),
    (0x1000000000000001b, 2),
    (0x1000000000000001b, 0x1b),
    (0x1000000000000001b, 0x8000000000000000),
    (0x1000000000000001b, 0xffffffffffffffff),
    (0x1000000000000001b, 0x0123456789abcdef),
];

#[test]
fn bits_in_polynomial_bases(rt: HostRuntime) {
    for (modulus, element) in &POLY_ELEMENTS {
        assert!(rt;
            poly_bits(&rt, *modulus, *element) == *element,
            "at {modulus} and {element}"
        );
    }
}

// whether this is an element of the normal basis of 3 in GF(8), and its own dual
fn is_own_dual(rt: &impl Abort, i: u32, want: u64) -> bool {
    let field = field(rt, 0xb);
    let basis = Basis::normal(&field, 0x3).expect(rt, "a basis");
    element(rt, &field, &basis, i) == want && dual(rt, &field, &basis, i) == want
}

// the bits of an element in that basis
fn normal_bits(rt: &impl Abort, element: u64) -> u64 {
    let field = field(rt, 0xb);
    let basis = Basis::normal(&field, 0x3).expect(rt, "a basis");
    bits(rt, &field, &basis, element)
}

static OWN_DUALS: [(u32, u64); 3] = [(0, 0x3), (1, 0x5), (2, 0x7)];

static BITS_OF_ELEMENTS: [(u64, u64); 3] = [(1, 0b111), (0x6, 0b011), (0x4, 0b101)];

#[test]
fn normal_bases(rt: HostRuntime) {
    for (i, want) in &OWN_DUALS {
        assert!(rt; is_own_dual(&rt, *i, *want), "at {i}");
    }
    for (element, want) in &BITS_OF_ELEMENTS {
        assert!(rt; normal_bits(&rt, *element) == *want, "at {element}");
    }
}

// the number that stands for a fault
fn number_of(outcome: Result<Basis, BasisFault>) -> u32 {
    match outcome {
        Ok(_) => 0,
        Err(BasisFault::WrongCount { count }) => 100u32.wrapping_add(count),
        Err(BasisFault::BadElement { place }) => 200u32.wrapping_add(place),
        Err(BasisFault::Dependent) => 300,
    }
}

// elements of GF(8) with the number of the fault of their list
static LIST_FAULTS: [(&[u64], u32); 8] = [
    (&[1, 2, 4, 8], 104),
    (&[1, 2], 102),
    (&[1, 9, 8], 201),
    (&[1, 1, 8], 202),
    (&[1, 2, 3], 300),
    (&[3, 5, 6], 300),
    (&[3, 5, 7], 0),
    (&[], 100),
];

#[test]
fn lists(rt: HostRuntime) {
    let field = field(&rt, 0xb);
    for (elements, want) in &LIST_FAULTS {
        assert!(rt;
            number_of(Basis::list(&field, elements)) == *want,
            "at {elements:?}"
        );
    }
    assert!(rt; number_of(Basis::normal(&field, 0x2)) == 300);
    assert!(rt; number_of(Basis::normal(&field, 0x8)) == 200);
}

// whether the linear form of a bit in the polynomial basis of GF(4) begins so
fn is_linear(rt: &impl Abort, i: u32, want: [u64; 3]) -> bool
    requires { i < 2 }
{
    let field = field(rt, 0x7);
    assert!(rt; field.k() == 2);
    let form = Basis::poly(&field).linear_of(&field, i);
    form[0] == want[0] && form[1] == want[1] && form[2] == want[2]
}

#[test]
fn linear_forms(rt: HostRuntime) {
    assert!(rt; is_linear(&rt, 0, [3, 2, 0]));
    assert!(rt; is_linear(&rt, 1, [1, 1, 0]));
}
