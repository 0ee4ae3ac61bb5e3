//! The bases of the words.
ghost use Rattle.std.specs.Prelude.{◌≡◌, ◌⊎◌, ◌<◌, ◌-◌, true, false, map, length, slice_get, Some, IfSome, IfNone};
ghost use Rattle.lists.specs.Lists.{Has};
ghost use Rattle.gf_basis.specs.BasisParts.{duals_of};
ghost use Rattle.circuit_model.specs.OfBinding.{words_of};

use circuit_model::is_output;
use gf_basis::Basis;
use net_words::Bound;

// How many words are to be passed after this one, or none where this one is the word.
fn left_after(is_output: bool, left: u32) -> Option<u32>
    ensures found { IfNone result ((is_output ≡ false) × (left ≡ 0)) }
    ensures passed { IfSome result (λ more. ((is_output ≡ true) × (more ≡ left)) ⊎ ((is_output ≡ false) × (0 < left) × (more ≡ left - 1))) }
{
    if is_output {
        Some(left)
    } else if left == 0 {
        None
    } else {
        Some(left - 1)
    }
}

/// The basis of an input, state or fed word, by its number among these, out of one basis for each word.
pub(crate) fn input_basis<'a>(binding: &Bound, bases: &'a [Basis], word: u32) -> &'a Basis
    requires word { word < length (words_of binding.now.words (map duals_of bases.now)) }
    requires long { length bases.now ≡ length binding.now.words }
    ensures basis { (w : _) → slice_get (words_of binding.now.words (map duals_of bases.now)) word ≡ Some w → w.basis ≡ duals_of result.now }
    ensures among { Has bases.now result.now }
{
    let mut left = word;
    for w in 0..binding.words() {
        match left_after(is_output(binding.role(w)), left) {
            Some(more) => left = more,
            None => return &bases[w as usize],
        }
    }
    unreachable!()
}
