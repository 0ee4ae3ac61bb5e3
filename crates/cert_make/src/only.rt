//! Polynomials of one term without words and with at most one bit.
ghost use Rattle.std.specs.Prelude.{◌≡◌, ◌≢◌, ◌∷◌, [], IfSome};
ghost use Rattle.cert_make.specs.private.Kept.{bits_kept, monomial_kept};

use crate::short::has_no_words;
use poly_mixed::{Mono, Poly};

// The rank, where there is at most one.
fn rank_among(bits: &[u32]) -> Option<Option<u32>>
    ensures { IfSome result (λ rank. bits.now ≡ bits_kept rank) }
{
    match bits {
        [] => Some(None),
        [rank] => Some(Some(*rank)),
        _ => None,
    }
}

// The bit of a monomial without words, where it has at most one.
fn rank_in(mono: &Mono) -> Option<Option<u32>>
    ensures { IfSome result (λ rank. mono.now ≡ monomial_kept rank) }
{
    if has_no_words(mono) {
        rank_among(mono.bits())
    } else {
        None
    }
}

/// The coefficient and the bit of the only term, if it stands in the first slot and has no word and at most one bit. What is
/// left of the sum A + B + A, read from a text, stands in the second slot, and is not found.
pub(crate) fn only_term(poly: &Poly) -> Option<(u64, Option<u32>)>
    ensures terms { IfSome result (λ s. poly.now.terms ≡ (monomial_kept s.1, s.0) ∷ []) }
    ensures some { IfSome result (λ s. s.0 ≢ 0) }
{
    if poly.len() != 1 {
        return None;
    }
    let (coefficient, mono) = poly.term_at(0)?;
    let rank = rank_in(mono)?;
    Some((coefficient, rank))
}
