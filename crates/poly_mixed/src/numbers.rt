//! The numbers that stand in the text of a polynomial.
ghost use Rattle.std.specs.Prelude.{◌≡◌, ◌≤◌, ◌^◌, nat_lt};
ghost use Rattle.poly_mixed.specs.private.Reading.{number_at, exponent_at, IsScanned};

use crate::PolyFault;
use text_core::{Class, after, front, skip_blanks, value_in_base};

// An exponent from 1 to 2^k - 1 after `^`, or 1 where none stands.
pub(crate) fn exponent(k: u32, bytes: &[u8]) -> Result<(u64, &[u8]), PolyFault>
    requires { (1 ≤ k) × (k ≤ 64) }
    ensures { IsScanned (exponent_at k bytes.now) result }
{
    match skip_blanks(bytes) {
        [b'^', rest @ ..] => number(k, skip_blanks(rest)),
        _ => Ok((1, bytes)),
    }
}

// A decimal number from 1 to 2^k - 1.
fn number(k: u32, bytes: &[u8]) -> Result<(u64, &[u8]), PolyFault>
    requires { (1 ≤ k) × (k ≤ 64) }
    ensures { IsScanned (number_at k bytes.now) result }
{
    match value_in_base(front(bytes, Class::Digit), 10) {
        Some(n) if 0 < n && is_below(n, k) => Ok((n, after(bytes, Class::Digit))),
        _ => Err(PolyFault::Syntax),
    }
}

// Whether a number is below 2^k.
pub(crate) fn is_below(n: u64, k: u32) -> bool
    requires { (1 ≤ k) × (k ≤ 64) }
    ensures { result ≡ nat_lt n (2 ^ k) }
{
    n <= u64::MAX >> (64 - k)
}
