//! Powers, and matrices of additive maps of a field.

ghost use Rattle.std.specs.Prelude.{◌≡◌, ℕ, ◌<◌, ◌≤◌, ◌^◌, length, slice_index};
ghost use Rattle.gf_field.specs.Power.{power as power_of};
ghost use Rattle.irreducible.specs.BitMatrix.{rows_of};
ghost use Rattle.gf_iso.specs.private.Fields.{fixed, quadratic};

use gf_field::{Field, frobenius};
use irreducible::BitMatrix;

/// The powers of `y` from 0 to below `count`, which is at most 64, and then zeros.
pub fn powers<F: Field>(field: &F, y: u64, count: usize) -> [u64; 64]
    requires element { y < 2 ^ F.degree field.now }
    requires few { count ≤ 64 }
    ensures powers { (j : ℕ) → j < count → slice_index result j ≡ power_of (F.product field.now) y j }
    ensures zeros { (j : ℕ) → count ≤ j → slice_index result j ≡ 0 }
    ensures elements { (j : ℕ) → slice_index result j < 2 ^ F.degree field.now }
    ensures whole { length result ≡ 64 }
{
    let table = field.times(y);
    let mut all = [0; 64];
    let mut power = field.one();
    for i in 0..count {
        all[i] = power;
        power = field.by(&table, power);
    }
    all
}

/// The matrix of the map that squares n times and adds the element itself. It takes to 0 the elements of the subfield of
/// `2^n` elements, where there is one.
pub fn fixed_matrix<F: Field>(field: &F, n: u32) -> BitMatrix
    ensures size { length (rows_of result) ≡ F.degree field.now }
    ensures rows { (j : ℕ) → j < F.degree field.now → slice_index (rows_of result) j ≡ fixed (F.product field.now) n (2 ^ j) }
{
    let k = field.k() as usize;
    let mut rows = [0; 64];
    for i in 0..k {
        let unit = 1 << i;
        rows[i] = frobenius(field, unit, n) ^ unit;
    }
    BitMatrix::new(&rows[..k])
}

/// The matrix of the map that takes y to the square of y plus b times y.
pub fn quadratic_matrix<F: Field>(field: &F, b: u64) -> BitMatrix
    requires { b < 2 ^ F.degree field.now }
    ensures size { length (rows_of result) ≡ F.degree field.now }
    ensures rows { (j : ℕ) → j < F.degree field.now → slice_index (rows_of result) j ≡ quadratic (F.product field.now) b (2 ^ j) }
{
    let k = field.k() as usize;
    let mut rows = [0; 64];
    for i in 0..k {
        let unit = 1 << i;
        rows[i] = field.square(unit) ^ field.mul(b, unit);
    }
    BitMatrix::new(&rows[..k])
}
