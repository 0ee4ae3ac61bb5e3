//! The input, state and fed words of a binding.
ghost use Rattle.std.specs.Prelude.{◌≡◌, ◌<◌, ◌++◌, length, slice_get, IfOk, OnOk, Some};
ghost use Rattle.circuit_model.specs.Places.{place_with, places_from};

use net_words::{Bound, Role};
use std::alloc::{AllocError, Global};

// Adds the number of a word, unless it is the output word.
fn add_place(binding: &Bound, v: u32, list: &mut Vec<u32>) -> Result<(), AllocError>
    requires { v < length binding.now.words }
    ensures { OnOk result ((word : _) → slice_get binding.now.words v ≡ Some word → list.new.items ≡ list.old.items ++ place_with word.role v) }
{
    match binding.role(v) {
        Role::Input | Role::State | Role::Fed => {
            list.push(v)?;
            Ok(())
        }
        Role::Output => Ok(()),
    }
}

/// The numbers of the input, state and fed words, in the order of the binding.
pub fn word_places(alloc: Global, binding: &Bound) -> Result<Vec<u32>, AllocError>
    ensures { IfOk result (λ list. list.items ≡ places_from 0 binding.now.words) }
{
    let mut list = Vec::new(alloc);
    for v in 0..binding.words() {
        add_place(binding, v, &mut list)?;
    }
    Ok(list)
}
