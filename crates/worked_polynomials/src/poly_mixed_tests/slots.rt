//! Terms by slot.
ghost use Rattle.std.specs.Prelude.{IfSome};
ghost use Rattle.poly_mixed.specs.Polynomial.{IsReduced};

use super::common::{has_text, read};
use crate::circuits::field;
use gf_field::Field;
use poly_mixed::Poly;
use std::alloc::{AllocError, Global};
use std::process::Abort;

// a linear form times one of bits 2 and 3
fn times_form<F: Field>(rt: &impl Abort, alloc: Global, field: &F, form: &Poly) -> Option<Poly>
    requires { IsReduced (F.degree field.now) form.now.terms }
    ensures { IfSome result (λ q. IsReduced (F.degree field.now) q.terms) }
{
    match read(rt, alloc, field, b"B[0] + 0x2*B[1]") {
        Some(other) => form.mul(alloc, field, &other).ok(),
        None => None,
    }
}

// the product of linear forms of bits 0 and 1 and of bits 2 and 3
fn product_of_words<F: Field>(rt: &impl Abort, alloc: Global, field: &F) -> Option<Poly>
    ensures { IfSome result (λ q. IsReduced (F.degree field.now) q.terms) }
{
    match read(rt, alloc, field, b"A[0] + 0x2*A[1]") {
        Some(form) => times_form(rt, alloc, field, &form),
        None => None,
    }
}

// whether its terms stand in the first four slots, two of them with bit 0
fn has_slots(poly: &Poly) -> bool {
    poly.terms_of(0).len() == 2
        && poly.terms_of(4).is_empty()
        && poly.term_at(3).is_some()
        && poly.term_at(4).is_none()
}

#[test]
fn terms_in_slots(rt: HostRuntime) {
    let has_slots = match product_of_words(&rt, rt.alloc(), &field(&rt)) {
        Some(poly) => has_slots(&poly),
        None => false,
    };
    assert!(rt; has_slots);
}

// 0 in place of bit 0
fn replace<F: Field>(alloc: Global, field: &F, poly: &mut Poly) -> Result<(), AllocError>
    requires { IsReduced (F.degree field.now) poly.old.terms }
{
    poly.substitute_bit(field, 0, &Poly::zero(alloc))
}

// whether it then has two terms, both with bit 1
fn is_replaced<F: Field>(rt: &impl Abort, alloc: Global, field: &F, poly: &mut Poly) -> bool
    requires { IsReduced (F.degree field.now) poly.old.terms }
{
    replace(alloc, field, poly).is_ok()
        && poly.terms_of(0).is_empty()
        && poly.terms_of(1).len() == 2
        && has_text(rt, alloc, poly, b"0x2*A[1]*B[0] + 0x3*A[1]*B[1]")
}

#[test]
fn slots_after_a_bit_is_replaced(rt: HostRuntime) {
    let field = field(&rt);
    let is_replaced = match product_of_words(&rt, rt.alloc(), &field) {
        Some(mut poly) => is_replaced(&rt, rt.alloc(), &field, &mut poly),
        None => false,
    };
    assert!(rt; is_replaced);
}
