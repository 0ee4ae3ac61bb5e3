//! The text of a polynomial.
ghost use Rattle.std.specs.Prelude.{◌≡◌, ◌<◌, ◌+◌, ◌==◌, ◌&&◌, not, cond, length, map, ◌++◌, codes, [], IfOk, OnOk, string_bytes};
ghost use Rattle.std.specs.List.{AllByRecursion};
ghost use Rattle.poly_mixed.specs.Labels.{bit_count};
ghost use Rattle.poly_mixed.specs.Parts.{part_after, parts_after};
ghost use Rattle.poly_mixed.specs.Text.{HasNames, HasWordNames, text, is_none, term_text as text_of_term, variable_texts, power_texts, joined};
ghost use Rattle.text_core.specs.Numbers.{hex_text};

use crate::{Labels, Mono, Poly};
use std::alloc::{AllocError, Global};
use text_core::push_hex;

/// The text of a polynomial whose variables all have names in the labels, as `is_named` says: terms joined by ` + `, or `0`.
pub fn write_poly(alloc: Global, poly: &Poly, labels: &Labels) -> Result<Vec<u8>, AllocError>
    requires named { HasNames labels.now poly.now.terms }
    requires words_named { HasWordNames labels.now poly.now.terms }
    ensures { IfOk result (λ v. v.items ≡ text labels.now poly.now.terms) }
{
    if poly.len() == 0 {
        return Vec::from_slice(alloc, b"0");
    }
    let mut out = Vec::new(alloc);
    let mut is_first = true;
    for (mono, place) in poly.map() {
        let term = term_text(alloc, mono, place.coefficient, labels)?;
        add_part(&mut out, is_first, b" + ", &term)?;
        is_first = false;
    }
    Ok(out)
}

// The text of a term.
fn term_text(alloc: Global, mono: &Mono, c: u64, labels: &Labels) -> Result<Vec<u8>, AllocError>
    requires { AllByRecursion (λ r. r < bit_count labels.now.words + length labels.now.nets) mono.now.bits }
    ensures { IfOk result (λ v. v.items ≡ text_of_term labels.now (mono.now, c)) }
{
    let variables = variables(alloc, mono, labels)?;
    let bare = is_bare(c, &variables);
    let mut out = coefficient_text(alloc, bare, c)?;
    add_parts(&mut out, bare, &variables)?;
    Ok(out)
}

// Whether the coefficient is left out: it is 1, and there is a variable.
fn is_bare(c: u64, variables: &[String]) -> bool
    ensures { result ≡ ((c == 1) && not (is_none (map (λ s. string_bytes s) variables.now))) }
{
    c == 1 && !variables.is_empty()
}

// A coefficient, or nothing where the term has none.
fn coefficient_text(alloc: Global, bare: bool, c: u64) -> Result<Vec<u8>, AllocError>
    ensures { IfOk result (λ v. v.items ≡ cond bare [] (hex_text c)) }
{
    let mut text = Vec::new(alloc);
    if !bare {
        push_hex(&mut text, u128::from(c))?;
    }
    Ok(text)
}

// The variables of a monomial, in their order.
fn variables(alloc: Global, mono: &Mono, labels: &Labels) -> Result<Vec<String>, AllocError>
    requires { AllByRecursion (λ r. r < bit_count labels.now.words + length labels.now.nets) mono.now.bits }
    ensures { IfOk result (λ v. map (λ s. string_bytes s) v.items ≡ variable_texts labels.now mono.now) }
{
    let mut texts = Vec::new(alloc);
    for word in 0..labels.words() {
        add_power(
            alloc,
            &mut texts,
            labels.name(word),
            mono.exponents()[word as usize],
        )?;
    }
    for rank in mono.bits() {
        texts.push(labels.rank(alloc, *rank)?)?;
    }
    Ok(texts)
}

// A power of a word: nothing for the exponent 0.
fn add_power(
    alloc: Global,
    texts: &mut Vec<String>,
    name: &str,
    exponent: u64,
) -> Result<(), AllocError>
    ensures { OnOk result (map (λ s. string_bytes s) texts.new.items ≡ map (λ s. string_bytes s) texts.old.items ++ power_texts name.now exponent) }
{
    if exponent == 0 {
        return Ok(());
    }
    let text = if exponent == 1 {
        String::from_str(alloc, name)?
    } else {
        format!(in alloc; "{}^{}", name, exponent)?
    };
    texts.push(text)?;
    Ok(())
}

// Appends a part, after a separator where it is not the first.
fn add_part(out: &mut Vec<u8>, first: bool, separator: &[u8], part: &[u8]) -> Result<(), AllocError>
    ensures { OnOk result (out.new.items ≡ part_after separator.now first out.old.items part.now) }
{
    if !first {
        out.extend_from_slice(separator)?;
    }
    out.extend_from_slice(part)?;
    Ok(())
}

// Appends variables, each after a `*` but for a first part.
fn add_parts(out: &mut Vec<u8>, first: bool, parts: &[String]) -> Result<(), AllocError>
    ensures { OnOk result (out.new.items ≡ parts_after (codes "*") first out.old.items (map (λ s. string_bytes s) parts.now)) }
{
    let mut is_first = first;
    for part in parts {
        add_part(out, is_first, b"*", part.as_bytes())?;
        is_first = false;
    }
    Ok(())
}
