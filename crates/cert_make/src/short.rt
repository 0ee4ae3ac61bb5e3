//! Multipliers of one term without words and with at most one bit, a bit of a word.
ghost use Rattle.std.specs.Prelude.{◌≡◌, replicate};
ghost use Rattle.std.specs.Str.{bytes_eq};
ghost use Rattle.poly_mixed.specs.Labels.{bit_count};
ghost use Rattle.cert_make.specs.private.Keys.{place_below as place_of_rank, place_of_bits, place_of_monomial, short_form};

use poly_mixed::{Labels, Mono, Term};

/// How many bits the words have.
pub(crate) fn word_bits(labels: &Labels) -> u64
    ensures { result ≡ bit_count labels.now.words }
{
    let mut bits = 0;
    for word in 0..labels.words() {
        bits += u64::from(labels.bits(word));
    }
    bits
}

// The place of a rank, where it is below a bound.
pub(crate) fn place_below(rank: u32, bound: u64) -> Option<u64>
    ensures { result ≡ place_of_rank bound rank }
{
    let wide = u64::from(rank);
    if wide < bound { Some(wide + 1) } else { None }
}

// The place of at most one rank.
fn place_among(bits: &[u32], bound: u64) -> Option<u64>
    ensures { result ≡ place_of_bits bound bits.now }
{
    if bits.is_empty() {
        return Some(0);
    }
    if bits.len() != 1 {
        return None;
    }
    place_below(bits[0], bound)
}

/// Whether no word stands in a monomial.
pub(crate) fn has_no_words(mono: &Mono) -> bool
    ensures { result ≡ bytes_eq mono.now.exponents (replicate 8 0) }
{
    *mono.exponents() == [0; 8]
}

// The place of a monomial without words.
fn place_in(mono: &Mono, bound: u64) -> Option<u64>
    ensures { result ≡ place_of_monomial bound mono.now }
{
    if has_no_words(mono) {
        place_among(mono.bits(), bound)
    } else {
        None
    }
}

/// The coefficient and the place of the only term, where its monomial has a place for ranks below a bound. Of terms that were
/// kept it finds those that stood in another slot than the first.
pub(crate) fn short_of(terms: &[Term], bound: u64) -> Option<(u64, u64)>
    ensures { result ≡ short_form bound terms.now }
{
    if terms.len() != 1 {
        return None;
    }
    let term = &terms[0];
    match place_in(term.mono(), bound) {
        Some(place) => Some((term.coefficient(), place)),
        None => None,
    }
}
