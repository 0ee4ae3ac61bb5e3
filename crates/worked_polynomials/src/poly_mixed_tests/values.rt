//! Values at points.
ghost use Rattle.std.specs.Prelude.{IfOk, OnOk};
ghost use Rattle.poly_mixed.specs.Polynomial.{IsElement, IsReduced};

use crate::circuits::field_of;
use gf_field::{Field, is_element};
use poly_mixed::{Poly, scaled_bit, scaled_power};
use std::alloc::{AllocError, Global};

// c times bit 1 added to a polynomial
fn add_bit<F: Field>(alloc: Global, field: &F, c: u64, sum: &mut Poly) -> Result<(), AllocError>
    requires c { IsElement (F.degree field.now) c }
    requires over { IsReduced (F.degree field.now) sum.old.terms }
    ensures { OnOk result (IsReduced (F.degree field.now) sum.new.terms) }
{
    let bit = scaled_bit(alloc, field, c, 1)?;
    sum.add_into(field, &bit)
}

// c times word 7 to the power 3 plus c times bit 1
fn sum_of<F: Field>(alloc: Global, field: &F, c: u64) -> Result<Poly, AllocError>
    requires three { IsElement (F.degree field.now) 3 }
    requires c { IsElement (F.degree field.now) c }
    ensures { IfOk result (λ q. IsReduced (F.degree field.now) q.terms) }
{
    let mut sum = scaled_power(alloc, field, c, 7, 3)?;
    add_bit(alloc, field, c, &mut sum)?;
    Ok(sum)
}

// whether it has this value at a point
fn has_value<F: Field>(alloc: Global, field: &F, c: u64, x: u64, bit: bool, want: u64) -> bool {
    if !is_element(field, 3) || !is_element(field, c) || !is_element(field, x) {
        return false;
    }
    match sum_of(alloc, field, c) {
        Ok(sum) => sum.value(field, &[0, 0, 0, 0, 0, 0, 0, x], &[false, bit]) == want,
        Err(_) => false,
    }
}

// over sixteen elements
static VALUES: [(u64, u64, bool, u64); 5] = [
    (1, 2, false, 8),
    (1, 2, true, 9),
    (2, 2, false, 3),
    (2, 0, true, 2),
    (0, 5, true, 0),
];

#[test]
fn values(rt: HostRuntime) {
    for (c, x, bit, want) in &VALUES {
        assert!(rt;
            has_value(rt.alloc(), &field_of(&rt, 0x13), *c, *x, *bit, *want),
            "{c} at {x}"
        );
    }
}
