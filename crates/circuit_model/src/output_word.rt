//! The basis and the nets of the output word.
ghost use Rattle.std.specs.Prelude.{◌≡◌, ◌<◌, ◌++◌, map, length, slice_get, IfOk, OnOk, Some};
ghost use Rattle.lists.specs.Lists.{Has};
ghost use Rattle.gf_basis.specs.BasisParts.{elements_of};
ghost use Rattle.net_words.specs.Binding.{IsBinding};
ghost use Rattle.net_words.specs.BoundTo.{output_bits, output_bits_with};
ghost use Rattle.net_words.specs.Roles.{same_role};
ghost use Rattle.net_words.specs.declared.word.Role.TheVariants.{Output};
ghost use Rattle.circuit_model.specs.OfBinding.{output_basis as basis_of_output};

use gf_basis::Basis;
use net_words::{Bound, Role};
use std::alloc::{AllocError, Global};

/// Whether a word with this role is the output.
pub fn is_output(role: Role) -> bool
    ensures { result ≡ same_role role Output }
{
    match role {
        Role::Output => true,
        Role::Input | Role::State | Role::Fed => false,
    }
}

/// The basis of the output word, out of one basis for each word.
pub fn output_basis<'a>(binding: &Bound, bases: &'a [Basis]) -> &'a Basis
    requires one { IsBinding binding.now }
    requires long { length bases.now ≡ length binding.now.words }
    ensures basis { elements_of result.now ≡ basis_of_output binding.now.words (map elements_of bases.now) }
    ensures among { Has bases.now result.now }
{
    for w in 0..binding.words() {
        if is_output(binding.role(w)) {
            return &bases[w as usize];
        }
    }
    unreachable!()
}

// Adds the nets of a word, if it is the output word.
fn add_word(binding: &Bound, w: u32, list: &mut Vec<u32>) -> Result<(), AllocError>
    requires { w < length binding.now.words }
    ensures { OnOk result ((word : _) → slice_get binding.now.words w ≡ Some word → list.new.items ≡ list.old.items ++ output_bits_with word.role word.nets) }
{
    match binding.role(w) {
        Role::Input | Role::State | Role::Fed => Ok(()),
        Role::Output => {
            for place in 0..binding.k() {
                list.push(binding.net(w, place))?;
            }
            Ok(())
        }
    }
}

/// The nets of the output word, place 0 first.
pub fn output_nets(alloc: Global, binding: &Bound) -> Result<Vec<u32>, AllocError>
    ensures { IfOk result (λ list. list.items ≡ output_bits binding.now.words) }
{
    let mut list = Vec::new(alloc);
    for w in 0..binding.words() {
        add_word(binding, w, &mut list)?;
    }
    Ok(list)
}
