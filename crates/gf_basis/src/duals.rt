//! Conjugates, traces as words, and the matrix that gives a dual basis.

ghost use Rattle.std.specs.Prelude.{◌≡◌, ℕ, ◌<◌, ◌≤◌, ◌^◌, length, slice_index};
ghost use Rattle.gf_field.specs.Element.{AreElements};
ghost use Rattle.gf_field.specs.Trace.{frobenius as frobenius_of};
ghost use Rattle.irreducible.specs.BitMatrix.{rows_of};
ghost use Rattle.irreducible.specs.Matrix.{IsSquare};
ghost use Rattle.irreducible.specs.Span.{IsIndependent};
ghost use Rattle.gf_basis.specs.private.Coordinates.{AreCoordinates};
ghost use Rattle.gf_basis.specs.private.TraceWord.{trace_word, AreUnitSquares, IsTraceMask, IsTraceMatrix};

use super::parities::{parities, parity};
use gf_field::Field;
use irreducible::BitMatrix;

/// `a` squared 0 to k - 1 times, and then zeros.
pub fn conjugates<F: Field>(field: &F, a: u64) -> [u64; 64]
    requires { a < 2 ^ F.degree field.now }
    ensures squares { (j : ℕ) → j < F.degree field.now → slice_index result j ≡ frobenius_of (F.product field.now) j a }
    ensures zeros { (j : ℕ) → F.degree field.now ≤ j → slice_index result j ≡ 0 }
    ensures elements { (j : ℕ) → slice_index result j < 2 ^ F.degree field.now }
{
    let mut all = [0; 64];
    let mut square = a;
    for i in 0..field.k() as usize {
        all[i] = square;
        square = field.square(square);
    }
    all
}

// The squares of the numbers `2^i`, for i below k.
fn unit_squares<F: Field>(field: &F) -> [u64; 64]
    ensures { AreUnitSquares (F.product field.now) (F.degree field.now) result }
{
    let mut all = [0; 64];
    for i in 0..field.k() as usize {
        all[i] = field.square(1 << i);
    }
    all
}

/// The number with which an element shares as many bits, modulo 2, as its trace says. The lowest bit of an element
/// squared i times is such a parity, and the trace, which is 0 or 1, is the sum of these bits.
pub fn trace_mask<F: Field>(field: &F) -> u64
    ensures { IsTraceMask (F.product field.now) (F.degree field.now) result }
{
    let squares = unit_squares(field);
    let squares = &squares[..field.k() as usize];
    let mut form = 1;
    let mut mask = 0;
    for _ in 0..field.k() {
        mask ^= form;
        form = parities(squares, form);
    }
    mask
}

/// The word whose bit i is the trace of element i times `x`.
pub fn traces<F: Field>(field: &F, mask: u64, elements: &[u64], x: u64) -> u64
    requires mask { IsTraceMask (F.product field.now) (F.degree field.now) mask }
    requires few { length elements.now ≤ 64 }
    requires inside { AreElements (F.degree field.now) elements.now }
    requires element { x < 2 ^ F.degree field.now }
    ensures word { result ≡ trace_word (F.product field.now) (F.degree field.now) elements.now x }
    ensures short { result < 2 ^ length elements.now }
{
    let table = field.times(x);
    let mut word = 0;
    for i in (0..elements.len()).rev() {
        word = (word << 1) | parity(mask, field.by(&table, elements[i]));
    }
    word
}

/// The matrix of the traces of all products of two elements.
pub fn trace_matrix<F: Field>(field: &F, mask: u64, elements: &[u64]) -> BitMatrix
    requires mask { IsTraceMask (F.product field.now) (F.degree field.now) mask }
    requires few { length elements.now ≤ 64 }
    requires inside { AreElements (F.degree field.now) elements.now }
    ensures { IsTraceMatrix (F.product field.now) (F.degree field.now) elements.now (rows_of result) }
{
    let mut rows = [0; 64];
    for i in 0..elements.len() {
        rows[i] = traces(field, mask, elements, elements[i]);
    }
    BitMatrix::new(&rows[..elements.len()])
}

/// The bits of the numbers `2^i` in the basis of these independent elements, for i below how many they are.
pub fn coordinates(elements: &[u64]) -> [u64; 64]
    requires few { length elements.now ≤ 64 }
    requires square { IsSquare elements.now }
    requires free { IsIndependent elements.now }
    ensures { AreCoordinates elements.now result }
{
    let inverse = BitMatrix::new(elements).inverse().unwrap();
    let mut all = [0; 64];
    for i in 0..elements.len() {
        all[i] = inverse.apply(1 << i);
    }
    all
}
