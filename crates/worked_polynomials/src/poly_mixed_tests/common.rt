//! What the tests share: labels, and polynomials as their texts. A polynomial that is not had, for lack of memory too, is
//! none, and has no text.
ghost use Rattle.std.specs.Prelude.{◌≡◌, [], IfOk, IfSome};
ghost use Rattle.poly_mixed.specs.Polynomial.{IsReduced};

use gf_field::Field;
use poly_mixed::{Labels, Poly, is_named, read_poly, write_poly};
use std::alloc::{AllocError, Global};
use std::process::Abort;
use text_core::is_name;

// labels without a word
fn no_words(rt: &impl Abort, alloc: Global) -> Result<Labels, AllocError>
    ensures words { IfOk result (λ l. l.words ≡ []) }
    ensures nets { IfOk result (λ l. l.nets ≡ []) }
{
    assert!(rt; is_name(b"Z"));
    Labels::new(alloc, "Z")
}

// words of 2 bits with two different names
fn two_words(rt: &impl Abort, alloc: Global, a: &str, b: &str) -> Result<Labels, AllocError>
    ensures { IfOk result (λ l. l.nets ≡ []) }
{
    assert!(rt; is_name(a.as_bytes()) && is_name(b.as_bytes()) && a.as_bytes() != b.as_bytes());
    let mut labels = no_words(rt, alloc)?;
    labels.word(a, 2)?;
    labels.word(b, 2)?;
    Ok(labels)
}

// words `A` and `B` of 2 bits, and the nets 9 and 12
pub(crate) fn labels(rt: &impl Abort, alloc: Global) -> Result<Labels, AllocError> {
    let mut labels = two_words(rt, alloc, "A", "B")?;
    labels.net(9)?;
    labels.net(12)?;
    Ok(labels)
}

// the polynomial of a text over a field
pub(crate) fn read<F: Field>(rt: &impl Abort, alloc: Global, field: &F, text: &[u8]) -> Option<Poly>
    ensures { IfSome result (λ q. IsReduced (F.degree field.now) q.terms) }
{
    match labels(rt, alloc) {
        Ok(labels) => read_poly(alloc, text, field.k(), &labels).ok(),
        Err(_) => None,
    }
}

// whether the labels name a polynomial's variables, and this is its text
pub(crate) fn is_written(alloc: Global, poly: &Poly, labels: &Labels, text: &[u8]) -> bool {
    if !is_named(poly, labels) {
        return false;
    }
    match write_poly(alloc, poly, labels) {
        Ok(written) => written.as_slice() == text,
        Err(_) => false,
    }
}

// whether this is the text of a polynomial
pub(crate) fn has_text(rt: &impl Abort, alloc: Global, poly: &Poly, text: &[u8]) -> bool {
    match labels(rt, alloc) {
        Ok(labels) => is_written(alloc, poly, &labels, text),
        Err(_) => false,
    }
}
