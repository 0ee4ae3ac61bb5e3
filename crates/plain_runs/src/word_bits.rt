//! The bits of nets where words have elements, and the elements of words where nets have bits.
ghost use Rattle.std.specs.Prelude.{◌≡◌, ◌<◌, ◌^◌, ◌↔◌, ℕ, length, IsTrue};
ghost use Rattle.lists.specs.Lists.{Has};
ghost use Rattle.gf_basis.specs.BasisParts.{IsBasisOver};
ghost use Rattle.circuit_model.specs.Word.{HasElement};
ghost use Rattle.circuit_model.specs.Flat.{AreOver, word_of};
ghost use Rattle.circuit_model.specs.private.Found.{IsBitIn, IsOnce, IsUnnamed};
ghost use Rattle.plain_runs.specs.private.Cycle.{HaveAsked, IsAsked};

use circuit_model::{CircuitWord, bit_in_word, element};
use gf_field::Field;
use net_words::Role;

// Whether a role is that of state words, where these are asked for, or else of input words.
fn is_asked(role: Role, states: bool) -> bool
    ensures { IsTrue result ↔ IsAsked states role }
{
    match role {
        Role::Input => !states,
        Role::State => states,
        Role::Fed => false,
        Role::Output => false,
    }
}

// Whether the word has this element, if it is asked for.
fn has_element<F: Field>(field: &F, bits: &[bool], word: &CircuitWord, x: u64, states: bool) -> bool
    requires { IsBasisOver (F.degree field.now) (F.product field.now) word.now.basis }
    ensures { IsTrue result ↔ (IsAsked states word.now.role → HasElement bits.now (word_of word.now) x) }
{
    if is_asked(word.role, states) {
        element(field, bits, word) == Some(x)
    } else {
        true
    }
}

/// Whether each state word has its element, where these are asked for, or else each input word.
pub fn have_elements<F: Field>(
    field: &F,
    bits: &[bool],
    words: &[CircuitWord],
    xs: &[u64],
    states: bool,
) -> bool
    requires over { AreOver (F.degree field.now) (F.product field.now) words.now }
    requires long { length xs.now ≡ length words.now }
    ensures { IsTrue result ↔ HaveAsked states words.now xs.now bits.now }
{
    match words {
        [] => true,
        [first, rest @ ..] => {
            if has_element(field, bits, first, xs[0], states) {
                have_elements(field, bits, rest, &xs[1..], states)
            } else {
                false
            }
        }
    }
}

/// The bit of a net where the words have these elements, and another where no word has the net.
pub fn bit_in_words<F: Field>(
    field: &F,
    words: &[CircuitWord],
    xs: &[u64],
    net: u32,
    other: bool,
) -> bool
    requires over { AreOver (F.degree field.now) (F.product field.now) words.now }
    requires long { length xs.now ≡ length words.now }
    requires elements { (x : ℕ) → Has xs.now x → x < 2 ^ F.degree field.now }
    ensures other { IsUnnamed words.now net → result ≡ other }
    ensures bit { IsOnce words.now net → IsBitIn words.now xs.now net result }
{
    match words {
        [] => other,
        [first, rest @ ..] => {
            let other = bit_in_words(field, rest, &xs[1..], net, other);
            bit_in_word(&first.nets, first.basis.bits_of(field, xs[0]), net, other)
        }
    }
}
