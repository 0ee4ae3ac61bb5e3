//! Values of monomials.
ghost use Rattle.std.specs.Prelude.{◌≡◌, ◌<◌, false, slice_index_or};
ghost use Rattle.std.specs.List.{AllByRecursion, list_all};
ghost use Rattle.poly_mixed.specs.Polynomial.{IsElement, powers as powers_of, point, term_value as value_of_term};

use crate::Mono;
use gf_field::{Field, power};

// The coefficient times the powers of the words, where all bits of the monomial are 1.
pub(crate) fn term_value<F: Field>(
    field: &F,
    mono: &Mono,
    c: u64,
    words: &[u64; 8],
    bits: &[bool],
) -> u64
    requires term { IsElement (F.degree field.now) c }
    requires elements { AllByRecursion (IsElement (F.degree field.now)) words.now }
    ensures { result ≡ value_of_term (F.product field.now) (point words.now bits.now) (mono.now, c) }
{
    if holds(mono.bits(), bits) {
        field.mul(c, powers(field, mono.exponents(), words))
    } else {
        0
    }
}

fn powers<F: Field>(field: &F, exponents: &[u64; 8], words: &[u64; 8]) -> u64
    requires { AllByRecursion (IsElement (F.degree field.now)) words.now }
    ensures value { result ≡ powers_of (F.product field.now) exponents.now words.now }
    ensures element { IsElement (F.degree field.now) result }
{
    let mut out = 1;
    let mut i = 8;
    while i > 0 {
        i -= 1;
        out = field.mul(power(field, words[i], exponents[i]), out);
    }
    out
}

// Whether all ranks are 1; a rank past the end is 0.
fn holds(ranks: &[u32], bits: &[bool]) -> bool
    ensures { result ≡ list_all (λ r. slice_index_or bits.now r false) ranks.now }
{
    for r in ranks {
        if !bits.get(*r as usize).copied().unwrap_or(false) {
            return false;
        }
    }
    true
}
