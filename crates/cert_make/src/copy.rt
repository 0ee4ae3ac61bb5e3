//! What the multipliers of recorded pairs are known by.
ghost use Rattle.std.specs.Prelude.{◌≡◌, ◌≢◌, ◌∷◌, ℕ, [], Some, IfOk};
ghost use Rattle.std.specs.List.{AllByRecursion};
ghost use Rattle.poly_mixed.specs.Labels.{bit_count};
ghost use Rattle.poly_mixed.specs.Polynomial.{IsMap};
ghost use Rattle.poly_mixed.specs.Text.{HasNames, HasWordNames, text};
ghost use Rattle.cert_make.specs.Writable.{IsWritablePair};
ghost use Rattle.cert_make.specs.private.Kept.{monomial_kept, pair_of, pairs_of};
ghost use Rattle.cert_make.specs.private.Keys.{key_by, keys};

use crate::certificate::Entry;
use crate::key::Key;
use crate::short::{place_below, short_of, word_bits};
use poly_mixed::{Labels, Mono, Poly, Term, write_poly};
use std::alloc::{AllocError, Global};

// The polynomial of these terms.
fn poly_of(alloc: Global, terms: &[Term]) -> Result<Poly, AllocError>
    requires { IsMap terms.now }
    ensures { IfOk result (λ p. p.terms ≡ terms.now) }
{
    let mut poly = Poly::zero(alloc);
    for term in terms {
        let mono = term.mono();
        let copied = Mono::new(alloc, mono.bits(), mono.exponents())?;
        poly.add_term(copied, term.coefficient())?;
    }
    Ok(poly)
}

// The text of the polynomial of these terms, whose variables all have names in the labels.
fn text_of(alloc: Global, terms: &[Term], labels: &Labels) -> Result<Vec<u8>, AllocError>
    requires terms { IsMap terms.now }
    requires named { HasNames labels.now terms.now }
    requires words_named { HasWordNames labels.now terms.now }
    ensures { IfOk result (λ v. v.items ≡ text labels.now terms.now) }
{
    let poly = poly_of(alloc, terms)?;
    write_poly(alloc, &poly, labels)
}

// What the multiplier of these terms is known by, where the words have so many bits.
fn key_of(alloc: Global, terms: &[Term], labels: &Labels, bits: u64) -> Result<Key, AllocError>
    requires terms { IsMap terms.now }
    requires named { HasNames labels.now terms.now }
    requires words_named { HasWordNames labels.now terms.now }
    requires bits { bits ≡ bit_count labels.now.words }
    ensures { IfOk result (λ k. k ≡ key_by labels.now terms.now) }
{
    match short_of(terms, bits) {
        Some(form) => Ok(Key::short(alloc, form.0, form.1)),
        None => {
            let bytes = text_of(alloc, terms, labels)?;
            Ok(Key::long(bytes))
        }
    }
}

// The polynomial of a coefficient, which is not 0, and of a bit.
fn scaled(alloc: Global, coefficient: u64, rank: u32) -> Result<Poly, AllocError>
    requires { coefficient ≢ 0 }
    ensures { IfOk result (λ p. p.terms ≡ (monomial_kept (Some rank), coefficient) ∷ []) }
{
    let mut poly = Poly::zero(alloc);
    let mono = Mono::new(alloc, &[rank], &[0; 8])?;
    poly.add_term(mono, coefficient)?;
    Ok(poly)
}

// What a coefficient, which is not 0, and a bit are known by.
fn key_of_bit(
    alloc: Global,
    coefficient: u64,
    rank: u32,
    labels: &Labels,
    bits: u64,
) -> Result<Key, AllocError>
    requires some { coefficient ≢ 0 }
    requires named { HasNames labels.now ((monomial_kept (Some rank), coefficient) ∷ []) }
    requires words_named { HasWordNames labels.now ((monomial_kept (Some rank), coefficient) ∷ []) }
    requires bits { bits ≡ bit_count labels.now.words }
    ensures { IfOk result (λ k. k ≡ key_by labels.now ((monomial_kept (Some rank), coefficient) ∷ [])) }
{
    match place_below(rank, bits) {
        Some(place) => Ok(Key::short(alloc, coefficient, place)),
        None => {
            let poly = scaled(alloc, coefficient, rank)?;
            let bytes = write_poly(alloc, &poly, labels)?;
            Ok(Key::long(bytes))
        }
    }
}

// What the multiplier of a pair is known by, where the words have so many bits.
fn key_of_entry(alloc: Global, entry: &Entry, labels: &Labels, bits: u64) -> Result<Key, AllocError>
    requires terms { IsMap (pair_of entry.now).1 }
    requires named { HasNames labels.now (pair_of entry.now).1 }
    requires words_named { HasWordNames labels.now (pair_of entry.now).1 }
    requires bits { bits ≡ bit_count labels.now.words }
    ensures { IfOk result (λ k. k ≡ key_by labels.now (pair_of entry.now).1) }
{
    if entry.coefficient == 0 {
        return key_of(alloc, entry.terms.as_slice(), labels, bits);
    }
    match entry.rank {
        None => Ok(Key::short(alloc, entry.coefficient, 0)),
        Some(rank) => key_of_bit(alloc, entry.coefficient, rank, labels, bits),
    }
}

/// What the multipliers of pairs are known by.
pub(crate) fn keys_of(
    alloc: Global,
    entries: &[Entry],
    labels: &Labels,
) -> Result<Vec<Key>, AllocError>
    requires { (k : ℕ) × AllByRecursion (IsWritablePair labels.now k) (pairs_of entries.now) }
    ensures { IfOk result (λ v. v.items ≡ keys labels.now (pairs_of entries.now)) }
{
    let bits = word_bits(labels);
    let mut list = Vec::with_capacity(alloc, entries.len())?;
    for entry in entries {
        let key = key_of_entry(alloc, entry, labels, bits)?;
        list.push(key)?;
    }
    Ok(list)
}
