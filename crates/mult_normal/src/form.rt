//! The signatures that a multiplier in a normal basis fits.
ghost use Rattle.std.specs.Prelude.{◌≡◌, ◌≤◌, ◌↔◌, All, IsTrue, IfSome, Some, ℕ, length};
ghost use Rattle.net_words.specs.declared.word.BasisText.TheVariants.{Normal};
ghost use Rattle.mult_normal.specs.private.But.{IsNormalBut};

use make_nets::has_words;
use net_signature::Signature;
use net_words::{BasisText, Role, WordText};

// Whether the basis is the normal basis of an element.
fn is_normal(basis: &BasisText, gamma: u64) -> bool
    ensures { IsTrue result ↔ (basis.now ≡ Normal gamma) }
{
    match basis {
        BasisText::Normal { gamma: other } => *other == gamma,
        _ => false,
    }
}

// The element whose normal basis this is.
fn gamma_of(basis: &BasisText) -> Option<u64>
    ensures some { IfSome result (λ gamma. basis.now ≡ Normal gamma) }
    ensures none { (gamma : ℕ) → basis.now ≡ Normal gamma → result ≡ Some gamma }
{
    match basis {
        BasisText::Normal { gamma } => Some(*gamma),
        _ => None,
    }
}

// Whether all words have the normal basis of an element.
fn are_all_normal(words: &[WordText], gamma: u64) -> bool
    ensures { IsTrue result ↔ All (λ word. word.basis ≡ Normal gamma) words.now }
{
    words.iter().all(|word| is_normal(&word.basis, gamma))
}

// Whether all words have the normal basis of one element; there is a word.
fn have_common_basis(words: &[WordText]) -> bool
    requires { 1 ≤ length words.now }
    ensures { IsTrue result ↔ (gamma : ℕ) × All (λ word. word.basis ≡ Normal gamma) words.now }
{
    match gamma_of(&words[0].basis) {
        Some(gamma) => are_all_normal(words, gamma),
        None => false,
    }
}

/// Whether a signature has the form, but for the names of its nets.
pub(crate) fn has_form(signature: &Signature) -> bool
    ensures { IsTrue result ↔ IsNormalBut signature.now }
{
    signature.feeds().is_empty()
        && signature.blocks().is_empty()
        && has_words(signature.words(), Role::State, 2)
        && have_common_basis(signature.words())
}
