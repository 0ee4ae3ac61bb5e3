//! The output of a circuit without latches, gate by gate.
ghost use Rattle.std.specs.Prelude.{◌≡◌, ◌==◌, ◌≤◌, ◌<◌, ◌^◌, ◌↔◌, ℕ, [], Some, length, IfOk, IfSome, IsSome, IsTrue, slice_get, false};
ghost use Rattle.std.specs.Int.{bit_at};
ghost use Rattle.lists.specs.Lists.{Has, times};
ghost use Rattle.gf_basis.specs.BasisParts.{IsBasisOver};
ghost use Rattle.circuit_model.specs.Word.{HasElement};
ghost use Rattle.circuit_model.specs.WellFormed.{IsWellFormed};
ghost use Rattle.circuit_model.specs.Out.{IsOut};
ghost use Rattle.circuit_model.specs.Flat.{AreOver, circuit_of_parts, word_of};
ghost use Rattle.circuit_model.specs.private.Found.{HaveAll, HaveBits, HaveZeros, IsBitIn, IsOnce, IsUnnamed};

use crate::circuit_word::CircuitWord;
use crate::net_bits::number_of_bits;
use gf_field::Field;
use net_core::{Net, eval};
use std::alloc::{AllocError, Global};

/// The element of a word, if it has k nets.
pub fn element<F: Field>(field: &F, bits: &[bool], word: &CircuitWord) -> Option<u64>
    requires { IsBasisOver (F.degree field.now) (F.product field.now) word.now.basis }
    ensures element { IfSome result (λ e. HasElement bits.now (word_of word.now) e) }
    ensures some { length word.now.nets.items ≡ F.degree field.now → IsSome result }
{
    if word.nets.len() == field.k() as usize {
        Some(word.basis.element_of(number_of_bits(bits, &word.nets)))
    } else {
        None
    }
}

// Whether each word has its element.
fn have_elements<F: Field>(field: &F, bits: &[bool], words: &[CircuitWord], xs: &[u64]) -> bool
    requires over { AreOver (F.degree field.now) (F.product field.now) words.now }
    requires long { length xs.now ≡ length words.now }
    ensures { IsTrue result ↔ HaveAll words.now xs.now bits.now }
{
    match words {
        [] => true,
        [first, rest @ ..] => {
            element(field, bits, first) == Some(xs[0]) && have_elements(field, bits, rest, &xs[1..])
        }
    }
}

/// The bit of a net of a word whose bits these are, and another where it is no net of the word.
pub fn bit_in_word(nets: &[u32], bits: u64, net: u32, other: bool) -> bool
    ensures other { (Has nets.now net → ⊥) → result ≡ other }
    ensures bit { (place : ℕ) → slice_get nets.now place ≡ Some net → times net nets.now ≤ 1 → result ≡ (bit_at bits place == 1) }
{
    match nets {
        [] => other,
        [first, rest @ ..] => {
            if *first == net {
                bits % 2 == 1
            } else {
                bit_in_word(rest, bits / 2, net, other)
            }
        }
    }
}

// The bit of a net where the words have these elements, and 0 where no word has the net.
fn bit_in_words<F: Field>(field: &F, words: &[CircuitWord], xs: &[u64], net: u32) -> bool
    requires over { AreOver (F.degree field.now) (F.product field.now) words.now }
    requires long { length xs.now ≡ length words.now }
    requires elements { (x : ℕ) → Has xs.now x → x < 2 ^ F.degree field.now }
    ensures zero { IsUnnamed words.now net → result ≡ false }
    ensures bit { IsOnce words.now net → IsBitIn words.now xs.now net result }
{
    match words {
        [] => false,
        [first, rest @ ..] => {
            let other = bit_in_words(field, rest, &xs[1..], net);
            bit_in_word(&first.nets, first.basis.bits_of(field, xs[0]), net, other)
        }
    }
}

// The values of the primary inputs where the words have these elements.
fn input_values<F: Field>(
    alloc: Global,
    field: &F,
    net: &Net,
    words: &[CircuitWord],
    xs: &[u64],
) -> Result<Vec<bool>, AllocError>
    requires over { AreOver (F.degree field.now) (F.product field.now) words.now }
    requires long { length xs.now ≡ length words.now }
    requires elements { (x : ℕ) → Has xs.now x → x < 2 ^ F.degree field.now }
    ensures long { IfOk result (λ v. length v.items ≡ length net.now.inputs) }
    ensures zeros { IfOk result (λ v. HaveZeros words.now net.now.inputs v.items) }
    ensures bits { IfOk result (λ v. HaveBits words.now xs.now net.now.inputs v.items) }
{
    let mut values = vec![in alloc; false; net.inputs().len()]?;
    for (i, input) in net.inputs().iter().enumerate() {
        values[i] = bit_in_words(field, words, xs, *input);
    }
    Ok(values)
}

/// The output of a circuit without latches at an input, by evaluation gate by gate: slow, and no more than the
/// definition. Where the circuit is well-formed it is the output; elsewhere it may be none, as where a word has not
/// k nets, or its nets can't have the bits of its element.
pub fn output<F: Field>(
    alloc: Global,
    field: &F,
    net: &Net,
    words: &[CircuitWord],
    output: &CircuitWord,
    xs: &[u64],
) -> Result<Option<u64>, AllocError>
    requires flat { net.now.latches ≡ [] }
    requires over { AreOver (F.degree field.now) (F.product field.now) words.now }
    requires over_output { IsBasisOver (F.degree field.now) (F.product field.now) output.now.basis }
    requires long { length xs.now ≡ length words.now }
    requires elements { (x : ℕ) → Has xs.now x → x < 2 ^ F.degree field.now }
    ensures output { IfOk result (λ found. IfSome found (λ e. IsOut (circuit_of_parts (F.degree field.now) (F.product field.now) net.now words.now output.now) xs.now e)) }
    ensures complete { IfOk result (λ found. IsWellFormed (circuit_of_parts (F.degree field.now) (F.product field.now) net.now words.now output.now) → IsSome found) }
{
    let values = input_values(alloc, field, net, words, xs)?;
    let bits = eval(alloc, net, &values)?;
    if have_elements(field, &bits, words, xs) {
        Ok(element(field, &bits, output))
    } else {
        Ok(None)
    }
}
