//! Polynomials in one word.
ghost use Rattle.std.specs.Prelude.{◌≡◌, ◌<◌, ◌^◌, ◌++◌, length, [], ◌∷◌, IfOk, OnOk};
ghost use Rattle.word_subst.specs.Univariate.{IsUnivariate, IsSum};
ghost use Rattle.word_subst.specs.Merge.{IsMerging, IsMergedTo};

use gf_field::Field;
use std::alloc::{AllocError, Global};
use std::cmp::Ordering;
use std::marker::Model;

/// A polynomial in one word: its powers by rising exponent, each with its coefficient.
#[derive(Drop)]
pub struct Univariate {
    powers: Vec<(u64, u64)>,
}

impl Model for Univariate {
    ghost use Rattle.word_subst.specs.Univariate.{Powers};

    ghost Value = { Powers };

    ghost view = { λ u. u.powers.items };
}

impl Univariate {
    /// No powers.
    pub fn zero(alloc: Global) -> Univariate
        ensures { result ≡ [] }
    {
        Univariate {
            powers: Vec::new(alloc),
        }
    }

    /// No powers, with room for `most`.
    pub fn with_capacity(alloc: Global, most: usize) -> Result<Univariate, AllocError>
        ensures { IfOk result (λ u. u ≡ []) }
    {
        let powers = Vec::with_capacity(alloc, most)?;
        Ok(Univariate { powers })
    }

    /// The size: how many powers it has.
    pub fn len(&self) -> usize
        ensures value { result ≡ length self.now }
        ensures small { length self.now < 2 ^ 63 }
    {
        self.powers.len()
    }

    /// The powers, by rising exponent.
    pub fn powers(&self) -> &[(u64, u64)]
        ensures { result.now ≡ self.now }
    {
        &self.powers
    }

    /// Adds a power above the others.
    pub fn push(&mut self, exponent: u64, c: u64) -> Result<(), AllocError>
        ensures { OnOk result (self.new ≡ self.old ++ (exponent, c) ∷ []) }
    {
        self.powers.push((exponent, c))?;
        Ok(())
    }

    /// The sum of two, over the field.
    pub fn plus<F: Field>(
        &self,
        alloc: Global,
        _field: &F,
        other: &Univariate,
    ) -> Result<Univariate, AllocError>
        requires left { IsUnivariate (F.degree _field.now) self.now }
        requires right { IsUnivariate (F.degree _field.now) other.now }
        ensures { IfOk result (IsSum (F.degree _field.now) (F.product _field.now) self.now other.now) }
    {
        let left = self.powers();
        let right = other.powers();
        let mut sum = Vec::with_capacity(alloc, left.len())?;
        let mut i = 0;
        let mut j = 0;
        while i < left.len() && j < right.len() {
            let next = merge_step(_field, left, right, i, j, &mut sum)?;
            i = next.0;
            j = next.1;
        }
        sum.extend_from_slice(&left[i..])?;
        sum.extend_from_slice(&right[j..])?;
        Ok(Univariate { powers: sum })
    }
}

// Takes the power with the least exponent from one of two lists, or from both, and gives the places of what is left.
fn merge_step<F: Field>(
    _field: &F,
    left: &[(u64, u64)],
    right: &[(u64, u64)],
    i: usize,
    j: usize,
    sum: &mut Vec<(u64, u64)>,
) -> Result<(usize, usize), AllocError>
    requires left { i < length left.now }
    requires right { j < length right.now }
    requires merging { IsMerging (F.degree _field.now) (F.product _field.now) left.now right.now i j sum.old.items }
    ensures { IfOk result (λ next. IsMergedTo (F.degree _field.now) (F.product _field.now) left.now right.now i j next.0 next.1 sum.new.items) }
{
    let (e, c) = left[i];
    let (f, d) = right[j];
    match e.cmp(&f) {
        Ordering::Less => {
            sum.push((e, c))?;
            Ok((i + 1, j))
        }
        Ordering::Greater => {
            sum.push((f, d))?;
            Ok((i, j + 1))
        }
        Ordering::Equal => {
            if c != d {
                sum.push((e, c ^ d))?;
            }
            Ok((i + 1, j + 1))
        }
    }
}
