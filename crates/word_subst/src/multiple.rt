//! Multiples of polynomials in one word: all products of coefficients are made here.
ghost use Rattle.std.specs.Prelude.{◌≡◌, ◌<◌, ◌≤◌, ◌+◌, ◌^◌, take, length, get_or, IfOk};
ghost use Rattle.std.specs.List.{AllByRecursion};
ghost use Rattle.poly_mixed.specs.Product.{add_exponent};
ghost use Rattle.poly_mixed.specs.Polynomial.{IsElement};
ghost use Rattle.word_subst.specs.Univariate.{IsPower, IsUnivariate, IsMultiple, IsProductOfTwo};
ghost use Rattle.word_subst.specs.Multiple.{multiplied};

use crate::univariate::Univariate;
use gf_field::Field;
use std::alloc::{AllocError, Global};

// The exponent of the product of two powers of one word, for words of k bits.
fn sum_exponent(k: u32, a: u64, b: u64) -> u64
    requires some { 1 ≤ k }
    requires most { k ≤ 64 }
    requires left { a < 2 ^ k }
    requires right { b < 2 ^ k }
    ensures { result ≡ add_exponent k a b }
{
    let top = u64::MAX >> (64 - k);
    if a <= top - b { a + b } else { a - (top - b) }
}

/// The product of an element, by its table, and another.
pub fn product_by<F: Field>(field: &F, _c: u64, table: &F::Times, d: u64) -> u64
    requires c { IsElement (F.degree field.now) _c }
    requires table { F.is_table field.now table.now _c }
    requires d { IsElement (F.degree field.now) d }
    ensures product { result ≡ F.product field.now _c d }
    ensures element { result < 2 ^ F.degree field.now }
{
    field.by(table, d)
}

// Each of a few powers times one power, in their order, without a table for all of them.
fn few_times_power<F: Field>(
    alloc: Global,
    field: &F,
    powers: &[(u64, u64)],
    exponent: u64,
    c: u64,
) -> Result<Univariate, AllocError>
    requires powers { AllByRecursion (IsPower (F.degree field.now)) powers.now }
    requires exponent { IsElement (F.degree field.now) exponent }
    requires element { IsElement (F.degree field.now) c }
    ensures { IfOk result (λ u. u ≡ multiplied (F.degree field.now) (F.product field.now) (exponent, c) powers.now) }
{
    let k = field.k();
    let mut out = Univariate::zero(alloc);
    for (e, d) in powers {
        out.push(sum_exponent(k, *e, exponent), field.mul(c, *d))?;
    }
    Ok(out)
}

// Each of some powers times one power, in their order.
fn times_power<F: Field>(
    alloc: Global,
    field: &F,
    powers: &[(u64, u64)],
    exponent: u64,
    c: u64,
) -> Result<Univariate, AllocError>
    requires powers { AllByRecursion (IsPower (F.degree field.now)) powers.now }
    requires exponent { IsElement (F.degree field.now) exponent }
    requires element { IsElement (F.degree field.now) c }
    ensures { IfOk result (λ u. u ≡ multiplied (F.degree field.now) (F.product field.now) (exponent, c) powers.now) }
{
    if powers.len() < 2 {
        return few_times_power(alloc, field, powers, exponent, c);
    }
    let k = field.k();
    let table = field.times(c);
    let mut out = Univariate::with_capacity(alloc, powers.len())?;
    for (e, d) in powers {
        out.push(
            sum_exponent(k, *e, exponent),
            product_by(field, c, &table, *d),
        )?;
    }
    Ok(out)
}

/// A polynomial in one word times a coefficient that is not 0: the same exponents.
pub fn scaled<F: Field>(
    alloc: Global,
    field: &F,
    powers: &Univariate,
    c: u64,
) -> Result<Univariate, AllocError>
    requires powers { IsUnivariate (F.degree field.now) powers.now }
    requires c { IsPower (F.degree field.now) (0, c) }
    ensures multiple { IfOk result (IsMultiple (F.degree field.now) (F.product field.now) (0, c) powers.now) }
    ensures size { IfOk result (λ u. length u ≡ length powers.now) }
{
    let out = times_power(alloc, field, powers.powers(), 0, c)?;
    Ok(out)
}

// How many powers stay below 2^k when they are multiplied by one of this exponent.
fn low_count<F: Field>(field: &F, powers: &[(u64, u64)], exponent: u64) -> usize
    requires exponent { IsElement (F.degree field.now) exponent }
    ensures within { result ≤ length powers.now }
    ensures low { AllByRecursion (λ t. t.0 + exponent < 2 ^ F.degree field.now) (take result powers.now) }
    ensures high { result < length powers.now → 2 ^ F.degree field.now ≤ (get_or powers.now result (0, 0)).0 + exponent }
{
    let top = u64::MAX >> (64 - field.k());
    let mut n = 0;
    while n < powers.len() && powers[n].0 <= top - exponent {
        n += 1;
    }
    n
}

// A polynomial in one word times a power.
fn shifted<F: Field>(
    alloc: Global,
    field: &F,
    powers: &Univariate,
    exponent: u64,
    c: u64,
) -> Result<Univariate, AllocError>
    requires powers { IsUnivariate (F.degree field.now) powers.now }
    requires by { IsPower (F.degree field.now) (exponent, c) }
    ensures { IfOk result (IsMultiple (F.degree field.now) (F.product field.now) (exponent, c) powers.now) }
{
    let all = powers.powers();
    let n = low_count(field, all, exponent);
    let low = times_power(alloc, field, &all[..n], exponent, c)?;
    let high = times_power(alloc, field, &all[n..], exponent, c)?;
    low.plus(alloc, field, &high)
}

// The sum of the left's multiples by each of the right's powers.
fn sum_of_multiples<F: Field>(
    alloc: Global,
    field: &F,
    left: &Univariate,
    right: &Univariate,
) -> Result<Univariate, AllocError>
    requires left { IsUnivariate (F.degree field.now) left.now }
    requires right { IsUnivariate (F.degree field.now) right.now }
    ensures { IfOk result (IsProductOfTwo (F.degree field.now) (F.product field.now) left.now right.now) }
{
    let mut out = Univariate::zero(alloc);
    for (exponent, c) in right.powers() {
        let part = shifted(alloc, field, left, *exponent, *c)?;
        out = out.plus(alloc, field, &part)?;
    }
    Ok(out)
}

/// The product of two polynomials in one word.
pub fn product<F: Field>(
    alloc: Global,
    field: &F,
    left: &Univariate,
    right: &Univariate,
) -> Result<Univariate, AllocError>
    requires left { IsUnivariate (F.degree field.now) left.now }
    requires right { IsUnivariate (F.degree field.now) right.now }
    ensures { IfOk result (IsProductOfTwo (F.degree field.now) (F.product field.now) left.now right.now) }
{
    if left.len() < right.len() {
        return sum_of_multiples(alloc, field, right, left);
    }
    sum_of_multiples(alloc, field, left, right)
}
