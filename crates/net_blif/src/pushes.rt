//! One more element of a list.
ghost use Rattle.std.specs.Prelude.{◌≡◌, ◌++◌, ◌∷◌, [], OnOk, OnErr};

use std::alloc::AllocError;

/// One more element at the end. Always inlined: the list's own `push` is a call that hands the element back through memory
/// where there is no room.
#[inline(always)]
pub fn push_one<T: Copy>(list: &mut Vec<T>, element: T) -> Result<(), AllocError>
    ensures made { OnOk result (list.new.items ≡ list.old.items ++ element ∷ []) }
    ensures unchanged { OnErr result (list.new.items ≡ list.old.items) }
{
    list.reserve(1)?;
    list.push_reserved(element);
    Ok(())
}
