//! Square matrices of bits.

ghost use Rattle.std.specs.Prelude.{◌≡◌, ◌<◌, ◌≤◌, ◌^◌, ◌↔◌, length, take, IsSome, IfSome};
ghost use Rattle.irreducible.specs.Span.{combination, InSpan, IsIndependent, IsRank};
ghost use Rattle.irreducible.specs.Matrix.{IsSquare, IsKernel, IsLeastSolution, AreInverse};

use super::elimination::{combined, eliminated, rank_of, reduced};
use gf_field::filled;

/// A square matrix over 0 and 1 of at most 64 rows. Bit j of a row is its entry in column j.
#[derive(Drop)]
pub struct BitMatrix {
    rows: [u64; 64],
    count: u32,
    ghost few: { count ≤ 64 },
    ghost square: { IsSquare (take count rows) },
}

impl BitMatrix {
    ghost use Rattle.irreducible.specs.BitMatrix.{rows_of};

    /// The matrix with these n rows, at most 64, each below 2^n.
    pub fn new(rows: &[u64]) -> BitMatrix
        requires few { length rows.now ≤ 64 }
        requires square { IsSquare rows.now }
        ensures { rows_of result ≡ rows.now }
    {
        BitMatrix {
            rows: filled(rows),
            count: rows.len() as u32,
        }
    }

    /// The dimension of the span of the rows.
    pub fn rank(&self) -> u32
        ensures { IsRank (rows_of self.now) result }
    {
        rank_of(&self.rows[..self.count as usize])
    }

    /// The matrix that undoes this one; none exactly where the rows are dependent.
    pub fn inverse(&self) -> Option<BitMatrix>
        ensures found { IsSome result ↔ IsIndependent (rows_of self.now) }
        ensures inverse { IfSome result (λ matrix. AreInverse (rows_of self.now) (rows_of matrix)) }
    {
        let pivots = eliminated(&self.rows[..self.count as usize]);
        if pivots.rank != self.count {
            return None;
        }
        let mut rows = [0; 64];
        for i in 0..self.count as usize {
            rows[i] = combined(&pivots.choices, reduced(&pivots.sums, 1 << i).used);
        }
        Some(BitMatrix {
            rows,
            count: self.count,
        })
    }

    /// Words whose entries that are not 0 are independent and span the `v` with `apply(v) = 0`.
    pub fn kernel(&self) -> [u64; 64]
        ensures { IsKernel (rows_of self.now) result }
    {
        eliminated(&self.rows[..self.count as usize]).vectors
    }

    /// The least `v` with `apply(v) = w`; none exactly where there is none.
    pub fn solve(&self, w: u64) -> Option<u64>
        ensures found { IsSome result ↔ InSpan (rows_of self.now) w }
        ensures least { IfSome result (λ v. IsLeastSolution (rows_of self.now) w v) }
    {
        let pivots = eliminated(&self.rows[..self.count as usize]);
        let step = reduced(&pivots.sums, w);
        if step.left != 0 {
            return None;
        }
        let found = combined(&pivots.choices, step.used);
        Some(reduced(&pivots.vectors, found).left)
    }

    /// The exclusive or of the rows i with bit i of `v` set; `v` is below 2^n.
    pub fn apply(&self, v: u64) -> u64
        requires { v < 2 ^ length (rows_of self.now) }
        ensures sum { result ≡ combination (rows_of self.now) v }
        ensures word { result < 2 ^ length (rows_of self.now) }
    {
        combined(&self.rows[..self.count as usize], v)
    }
}
