//! Constants, their sums, and how they are written.
ghost use Rattle.std.specs.Prelude.{OnOk};
ghost use Rattle.poly_mixed.specs.Polynomial.{IsElement, IsReduced};

use super::common::has_text;
use crate::circuits::field;
use gf_field::{Field, is_element};
use poly_mixed::{Poly, constant};
use std::alloc::{AllocError, Global};
use std::process::Abort;

// an element added to a polynomial
fn add_constant<F: Field>(
    alloc: Global,
    field: &F,
    c: u64,
    sum: &mut Poly,
) -> Result<(), AllocError>
    requires c { IsElement (F.degree field.now) c }
    requires over { IsReduced (F.degree field.now) sum.old.terms }
    ensures { OnOk result (IsReduced (F.degree field.now) sum.new.terms) }
{
    let constant = constant(alloc, field, c)?;
    sum.add_into(field, &constant)
}

// whether the sum of two elements has this text
fn sum_is<F: Field>(
    rt: &impl Abort,
    alloc: Global,
    field: &F,
    c: u64,
    d: u64,
    text: &[u8],
) -> bool {
    if !is_element(field, c) || !is_element(field, d) {
        return false;
    }
    match constant(alloc, field, c) {
        Ok(mut sum) => {
            add_constant(alloc, field, d, &mut sum).is_ok() && has_text(rt, alloc, &sum, text)
        }
        Err(_) => false,
    }
}

// a sum of 0 leaves no term
#[test]
fn constants_are_written(rt: HostRuntime) {
    let field = field(&rt);
    assert!(rt; sum_is(&rt, rt.alloc(), &field, 3, 0, b"0x3"));
    assert!(rt; sum_is(&rt, rt.alloc(), &field, 1, 1, b"0"));
}
