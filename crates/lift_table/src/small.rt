//! Which tables are small enough to be written out, and how many rows they have.
ghost use Rattle.std.specs.Prelude.{◌≡◌, ◌≤◌, ◌*◌, ◌^◌, ◌↔◌, IsTrue};
ghost use Rattle.lift_table.specs.Small.{IsSmall};

use gf_field::Field;

/// Whether words of k bits, so many, have a table of at most 65,536 rows, and k is at most 8.
pub fn is_small(k: u32, words: u32) -> bool
    ensures { IsTrue result ↔ IsSmall k words }
{
    k <= 8 && u64::from(k) * u64::from(words) <= 16
}

/// A power of 2.
pub(crate) fn two_to(bits: u32) -> u32
    requires { bits ≤ 16 }
    ensures { result ≡ 2 ^ bits }
{
    1 << bits
}

/// How many rows a table of so many words has.
pub(crate) fn rows_of<F: Field>(field: &F, words: u32) -> usize
    requires { IsSmall (F.degree field.now) words }
    ensures { result ≡ 2 ^ (F.degree field.now * words) }
{
    two_to(field.k() * words) as usize
}

/// How many elements the field has.
pub(crate) fn elements_of<F: Field>(field: &F) -> usize
    requires { F.degree field.now ≤ 8 }
    ensures { result ≡ 2 ^ F.degree field.now }
{
    two_to(field.k()) as usize
}
