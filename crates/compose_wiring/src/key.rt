//! The key of a word: equal nets with an equal basis have an equal key, and a key is as long as the word.
ghost use Rattle.std.specs.Prelude.{◌≡◌, ◌++◌, ◌∷◌, [], IfOk, OnOk, length, map, string_bytes};
ghost use Rattle.gf_basis.specs.BasisParts.{elements_of};
ghost use Rattle.compose_wiring.specs.private.Keys.{hex_of, key_of as key_by, spaced};

use crate::nets::Nets;
use gf_basis::Basis;
use std::alloc::{AllocError, Global};

/// The key of nets and a basis of `size` elements: the names of the nets and then the elements in hexadecimal, a space behind each.
pub(crate) fn key_of(
    alloc: Global,
    nets: &Nets<'_>,
    basis: &Basis,
    size: u32,
) -> Result<String, AllocError>
    requires { length (elements_of basis.now) ≡ size }
    ensures { IfOk result (λ key. string_bytes key ≡ key_by nets.now (elements_of basis.now)) }
{
    let mut key = String::new(alloc);
    nets.add_to(&mut key)?;
    add_elements(alloc, &mut key, basis, size)?;
    Ok(key)
}

// Adds the elements of a basis to a text.
fn add_elements(
    alloc: Global,
    text: &mut String,
    basis: &Basis,
    size: u32,
) -> Result<(), AllocError>
    requires { length (elements_of basis.now) ≡ size }
    ensures { OnOk result (string_bytes text.new ≡ string_bytes text.old ++ spaced (map hex_of (elements_of basis.now))) }
{
    for place in 0..size {
        add_element(alloc, text, basis.element(place))?;
    }
    Ok(())
}

// Adds an element to a text.
fn add_element(alloc: Global, text: &mut String, element: u64) -> Result<(), AllocError>
    ensures { OnOk result (string_bytes text.new ≡ string_bytes text.old ++ (hex_of element ++ 32 ∷ [])) }
{
    let number = format!(in alloc; "{:x} ", element)?;
    text.push_str(number.as_str())?;
    Ok(())
}
