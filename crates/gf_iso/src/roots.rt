//! The least roots, in a field, of polynomials over smaller fields.

ghost use Rattle.std.specs.Prelude.{◌≡◌, ℕ, suc, ◌<◌, ◌≤◌, ◌*◌, ◌^◌, [], length, slice_index};
ghost use Rattle.gf_field.specs.Polynomial.{coefficient};
ghost use Rattle.gf_field.specs.Power.{power as power_of};
ghost use Rattle.gf_iso.specs.Root.{value_at, IsLeastRoot};
ghost use Rattle.gf_iso.specs.private.Fields.{IsBaseField, IsTowerField, carried_over};
ghost use Rattle.gf_iso.specs.private.Search.{IsLeastOf, IsLesserOf};

use super::matrices::{fixed_matrix, powers, quadratic_matrix};
use gf_field::Field;
use irreducible::combined;

// The value at `y` of the polynomial of degree n whose coefficients are the bits of `modulus`.
fn value<F: Field>(field: &F, n: u32, modulus: u64, y: u64) -> u64
    requires element { y < 2 ^ F.degree field.now }
    requires small { n ≤ 16 }
    ensures { result ≡ value_at (F.product field.now) (suc n) (coefficient 1 modulus) y }
{
    let count = n as usize + 1;
    combined(&powers(field, y, count)[..count], modulus)
}

// The lesser of two numbers, where there are any.
fn lesser(first: Option<u64>, second: Option<u64>) -> Option<u64>
    ensures { IsLesserOf first second result }
{
    match first {
        None => second,
        Some(a) => match second {
            None => Some(a),
            Some(b) => { if b < a { Some(b) } else { Some(a) } }
        },
    }
}

// The start, where it is a root of that polynomial.
fn tested<F: Field>(field: &F, n: u32, modulus: u64, start: u64) -> Option<u64>
    requires start { start < 2 ^ F.degree field.now }
    requires small { n ≤ 16 }
    ensures { IsLeastOf (F.degree field.now) (value_at (F.product field.now) (suc n) (coefficient 1 modulus)) [] start result }
{
    if value(field, n, modulus, start) == 0 {
        Some(start)
    } else {
        None
    }
}

// The least root of that polynomial among the start plus the sums of the vectors.
fn least_root<F: Field>(field: &F, n: u32, modulus: u64, vectors: &[u64], start: u64) -> Option<u64>
    requires start { start < 2 ^ F.degree field.now }
    requires vectors { (i : ℕ) → slice_index vectors.now i < 2 ^ F.degree field.now }
    requires small { n ≤ 16 }
    ensures { IsLeastOf (F.degree field.now) (value_at (F.product field.now) (suc n) (coefficient 1 modulus)) vectors.now start result }
{
    match vectors {
        [] => tested(field, n, modulus, start),
        [first, rest @ ..] => {
            let without = least_root(field, n, modulus, rest, start);
            if *first == 0 {
                return without;
            }
            lesser(without, least_root(field, n, modulus, rest, start ^ *first))
        }
    }
}

/// The least root of the modulus of a field of `2^n` elements in one of `2^(2n)`. A root is its own power by `2^n`, so
/// that only the subfield is searched.
pub fn base_root<F: Field>(field: &F, n: u32, modulus: u64) -> u64
    requires base { IsBaseField n modulus }
    requires double { F.degree field.now ≡ n * 2 }
    ensures { IsLeastRoot (F.degree field.now) (F.product field.now) (suc n) (coefficient 1 modulus) result }
{
    let vectors = fixed_matrix(field, n).kernel();
    least_root(field, n, modulus, &vectors, 0).unwrap()
}

/// The least root of `Y^2 + c1 * Y + c0`, with its coefficients carried over by `powers`, the powers of the image of x:
/// a solution of linear equations, since squares are additive.
pub fn tower_root<F: Field>(
    field: &F,
    modulus: u64,
    powers: &[u64],
    s: u64,
    c0: u64,
    c1: u64,
) -> u64
    requires tower { IsTowerField (length powers.now) modulus c0 c1 }
    requires double { F.degree field.now ≡ length powers.now * 2 }
    requires root { IsLeastRoot (F.degree field.now) (F.product field.now) (suc (length powers.now)) (coefficient 1 modulus) s }
    requires powers { (j : ℕ) → j < length powers.now → slice_index powers.now j ≡ power_of (F.product field.now) s j }
    ensures { IsLeastRoot (F.degree field.now) (F.product field.now) 3 (carried_over (F.product field.now) (length powers.now) s c0 c1) result }
{
    let constant = combined(powers, c0);
    quadratic_matrix(field, combined(powers, c1))
        .solve(constant)
        .unwrap()
}
