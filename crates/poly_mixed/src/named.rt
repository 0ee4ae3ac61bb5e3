//! Whether labels name the variables of a polynomial.
ghost use Rattle.std.specs.Prelude.{◌≡◌, ◌↔◌, ◌<◌, ◌≤◌, drop, IsTrue};
ghost use Rattle.std.specs.List.{AllByRecursion};
ghost use Rattle.poly_mixed.specs.Text.{HasNames, HasWordNames};

use crate::{Labels, Mono, Poly};

/// Whether labels name every variable of a polynomial: each rank is below that of the labels' last net, and a word
/// past the labels' words has the exponent 0 in each term.
pub fn is_named(poly: &Poly, labels: &Labels) -> bool
    ensures { IsTrue result ↔ HasNames labels.now poly.now.terms × HasWordNames labels.now poly.now.terms }
{
    has_names(poly, labels) && has_word_names(poly, labels)
}

// Whether each rank has a name.
fn has_names(poly: &Poly, labels: &Labels) -> bool
    ensures { IsTrue result ↔ HasNames labels.now poly.now.terms }
{
    let count = labels.ranks();
    for (mono, _) in poly.map() {
        if !are_below(mono.bits(), count) {
            return false;
        }
    }
    true
}

// Whether all ranks are below a count.
fn are_below(ranks: &[u32], count: u64) -> bool
    ensures { IsTrue result ↔ AllByRecursion (λ r. r < count) ranks.now }
{
    for rank in ranks {
        if u64::from(*rank) >= count {
            return false;
        }
    }
    true
}

// Whether a word that has no name has the exponent 0.
fn has_word_names(poly: &Poly, labels: &Labels) -> bool
    ensures { IsTrue result ↔ HasWordNames labels.now poly.now.terms }
{
    let words = labels.words();
    for (mono, _) in poly.map() {
        if !lacks_later(mono, words) {
            return false;
        }
    }
    true
}

// Whether the words from this one on have the exponent 0.
fn lacks_later(mono: &Mono, word: u32) -> bool
    requires { word ≤ 8 }
    ensures { IsTrue result ↔ AllByRecursion (λ e. e ≡ 0) (drop word mono.now.exponents) }
{
    are_zero(&mono.exponents()[word as usize..])
}

// Whether all numbers are 0.
fn are_zero(numbers: &[u64]) -> bool
    ensures { IsTrue result ↔ AllByRecursion (λ e. e ≡ 0) numbers.now }
{
    for number in numbers {
        if *number != 0 {
            return false;
        }
    }
    true
}
