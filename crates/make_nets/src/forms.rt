//! Forms of the words of a signature.
ghost use Rattle.std.specs.Prelude.{◌≡◌, ◌<◌, ◌↔◌, IsTrue};
ghost use Rattle.net_words.specs.declared.word.BasisText.TheVariants.{Poly};
ghost use Rattle.make_nets.specs.Form.{AllAlike, AllPoly, HasWords, role_count as count_with};

use crate::ports::is_same;
use net_words::{BasisText, Role, WordText};

// How many words have the role.
fn role_count(words: &[WordText], role: Role) -> usize
    ensures { result ≡ count_with role words.now }
{
    words.iter().filter(|word| is_same(word.role, role)).count()
}

/// Whether one word is the output word, and there are `count` others, fewer than 8, which all have the role.
pub fn has_words(words: &[WordText], role: Role, count: usize) -> bool
    requires { count < 8 }
    ensures { IsTrue result ↔ HasWords role count words.now }
{
    words.len() == count + 1
        && role_count(words, role) == count
        && role_count(words, Role::Output) == 1
}

// Whether a word has the basis of powers.
fn is_poly(word: &WordText) -> bool
    ensures { IsTrue result ↔ (word.now.basis ≡ Poly) }
{
    match &word.basis {
        BasisText::Poly => true,
        BasisText::Normal { .. } => false,
        BasisText::Elements { .. } => false,
    }
}

/// Whether each word has the basis of powers.
pub fn all_poly(words: &[WordText]) -> bool
    ensures { IsTrue result ↔ AllPoly words.now }
{
    words.iter().all(|word| is_poly(word))
}

// Whether two bases are one by their texts' values.
fn is_alike(basis: &BasisText, other: &BasisText) -> bool
    ensures { IsTrue result ↔ (basis.now ≡ other.now) }
{
    match (basis, other) {
        (BasisText::Poly, BasisText::Poly) => true,
        (BasisText::Normal { gamma }, BasisText::Normal { gamma: another }) => gamma == another,
        (BasisText::Elements { list }, BasisText::Elements { list: another }) => {
            list.as_slice() == another.as_slice()
        }
        _ => false,
    }
}

/// Whether the bases of all words are one by their texts' values.
pub fn all_alike(words: &[WordText]) -> bool
    ensures { IsTrue result ↔ AllAlike words.now }
{
    match words {
        [] => true,
        [first, rest @ ..] => rest.iter().all(|word| is_alike(&first.basis, &word.basis)),
    }
}
