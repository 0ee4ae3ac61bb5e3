//! Which numbers are elements.

ghost use Rattle.std.specs.Prelude.{◌≡◌, ℕ, ◌<◌, ◌≤◌, ◌^◌, ◌↔◌, IsTrue, IsNone, IfSome, length, slice_index, take};
ghost use Rattle.gf_field.specs.Element.{AreElements, IsFirstOutside};

use super::rings::Ring;

/// Whether `a` is below `2^k`, and so an element of the ring.
pub fn is_element<R: Ring>(ring: &R, a: u64) -> bool
    ensures { IsTrue result ↔ (a < 2 ^ R.degree ring.now) }
{
    let k = ring.k();
    k >= 64 || a >> k == 0
}

/// The place of the first number that is no element of the ring; none where all are elements.
pub fn first_outside<R: Ring>(ring: &R, numbers: &[u64]) -> Option<usize>
    ensures none { IsNone result ↔ AreElements (R.degree ring.now) numbers.now }
    ensures first { IfSome result (λ place. IsFirstOutside (R.degree ring.now) numbers.now place) }
{
    for (i, number) in numbers.iter().enumerate() {
        if !is_element(ring, *number) {
            return Some(i);
        }
    }
    None
}

/// The numbers, of which there are at most 64, and then zeros.
pub fn filled(numbers: &[u64]) -> [u64; 64]
    requires { length numbers.now ≤ 64 }
    ensures numbers { take (length numbers.now) result ≡ numbers.now }
    ensures zeros { (i : ℕ) → length numbers.now ≤ i → slice_index result i ≡ 0 }
{
    let mut all = [0; 64];
    for (i, number) in numbers.iter().enumerate() {
        all[i] = *number;
    }
    all
}
