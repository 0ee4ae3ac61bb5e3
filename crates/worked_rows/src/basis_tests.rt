//! Bases of a tower.
ghost use Rattle.gf_basis.specs.BasisParts.{IsBasisOver};

use gf_basis::Basis;
use gf_field::{Field, Ring, is_element};
use gf_tower::AnyField;
use std::process::Abort;

// Whether an element comes back from its bits.
fn comes_back<F: Field>(rt: &impl Abort, field: &F, basis: &Basis, x: u64) -> bool
    requires { IsBasisOver (F.degree field.now) (F.product field.now) basis.now }
{
    assert!(rt; is_element(field, x));
    basis.element_of(basis.bits_of(field, x)) == x
}

// Of 16 elements, how many come back from their bits.
fn coming_back<F: Field>(rt: &impl Abort, field: &F, basis: &Basis) -> u32
    requires { IsBasisOver (F.degree field.now) (F.product field.now) basis.now }
{
    let mut count: u32 = 0;
    for x in 0..16 {
        if comes_back(rt, field, basis, x) {
            count = count.wrapping_add(1);
        }
    }
    count
}

// Of 16 elements, how many have conjugates that are a basis.
fn normal_elements<F: Field>(field: &F) -> u32 {
    let mut count: u32 = 0;
    for gamma in 0..16 {
        if Basis::normal(field, gamma).is_ok() {
            count = count.wrapping_add(1);
        }
    }
    count
}

// The least element whose conjugates are a basis.
fn normal_basis<F: Field>(rt: &impl Abort, field: &F) -> Basis
    ensures { IsBasisOver (F.degree field.now) (F.product field.now) result }
{
    for gamma in 0..16 {
        if let Ok(basis) = Basis::normal(field, gamma) {
            return basis;
        }
    }
    panic!(rt; "no normal basis")
}

fn check_bases<F: Field>(rt: &impl Abort, field: &F) {
    assert_eq!(rt; field.k(), 4);
    let poly = Basis::poly(field);
    assert_eq!(rt; coming_back(rt, field, &poly), 16);
    assert_eq!(rt; normal_elements(field), 8);
    let normal = normal_basis(rt, field);
    assert_eq!(rt; coming_back(rt, field, &normal), 16);
}

// The tower of Y^2 + Y + x over GF(4), in which 8 of the 16 elements have independent conjugates.
#[test]
fn bases_of_a_tower(rt: HostRuntime) {
    let field = AnyField::new(0x7, &[2, 1], &[]).expect(&rt, "a tower");
    match field {
        AnyField::Base(_field) => panic!(rt; "no tower"),
        AnyField::Upper(_field) => panic!(rt; "a second step"),
        AnyField::Tower(field) => check_bases(&rt, &field),
    }
}
