//! The monomials of a gate's table, from its exclusive-or form.
ghost use Rattle.std.specs.Prelude.{◌≡◌, ◌*◌, ◌^◌, ◌<◌, ◌≤◌, length, IfOk, OnOk};
ghost use Rattle.std.specs.List.Sorted.{IsStrictlySortedBy};
ghost use Rattle.std.specs.Ordering.{nat_cmp};
ghost use Rattle.poly_mixed.specs.Product.{with_rank};
ghost use Rattle.poly_mixed.specs.Table.{table_bit, table_value};
ghost use Rattle.cert_check.specs.private.Units.{set_value, sets_value, AddsValue, AreTerms};

use crate::mono_sum::MonoSum;
use crate::monomial::add_rank;
use gf_field::Field;
use poly_mixed::{Mono, exclusive_form};
use smallvec::SmallVec;
use std::alloc::{AllocError, Global};

// Whether the form of a table has a place.
fn has_place(form: u64, place: u32) -> bool
    requires { place < 64 }
    ensures { result ≡ table_bit form place }
{
    (form >> place) & 1 == 1
}

// Adds the product of these bits, if the form has the place.
fn add_set<F: Field>(
    alloc: Global,
    _field: &F,
    form: u64,
    place: u32,
    set: &[u32],
    sum: &mut MonoSum,
) -> Result<(), AllocError>
    requires place { place < 64 }
    requires set { IsStrictlySortedBy nat_cmp set.now }
    requires sum { AreTerms (F.degree _field.now) sum.old.terms }
    ensures terms { OnOk result (AreTerms (F.degree _field.now) sum.new.terms) }
    ensures values { OnOk result (AddsValue (F.degree _field.now) (F.product _field.now) (set_value set.now form place) sum.old.terms sum.new.terms) }
{
    if has_place(form, place) {
        let mono = Mono::new(alloc, set, &[0; 8])?;
        return sum.push(mono);
    }
    Ok(())
}

// These ranks, which are rising, and one more.
fn with(alloc: Global, set: &[u32], rank: u32) -> Result<SmallVec<u32, 6>, AllocError>
    ensures { IfOk result (λ v. v.items ≡ with_rank set.now rank) }
{
    let mut more = SmallVec::from_slice(alloc, set)?;
    add_rank(&mut more, rank)?;
    Ok(more)
}

// Adds the products of these bits and of each set of ranks that the form has, from `base` on by steps of `step`.
fn add_sets<F: Field>(
    alloc: Global,
    field: &F,
    form: u64,
    ranks: &[u32],
    base: u32,
    step: u32,
    set: &[u32],
    sum: &mut MonoSum,
) -> Result<(), AllocError>
    requires base { base < step }
    requires within { step * 2 ^ length ranks.now ≤ 64 }
    requires set { IsStrictlySortedBy nat_cmp set.now }
    requires sum { AreTerms (F.degree field.now) sum.old.terms }
    ensures terms { OnOk result (AreTerms (F.degree field.now) sum.new.terms) }
    ensures values { OnOk result (AddsValue (F.degree field.now) (F.product field.now) (sets_value set.now form ranks.now base step) sum.old.terms sum.new.terms) }
{
    if ranks.is_empty() {
        return add_set(alloc, field, form, base, set, sum);
    }
    let rest = &ranks[1..];
    let more = with(alloc, set, ranks[0])?;
    add_sets(alloc, field, form, rest, base, 2 * step, set, sum)?;
    add_sets(
        alloc,
        field,
        form,
        rest,
        base + step,
        2 * step,
        more.as_slice(),
        sum,
    )
}

/// Adds the monomials of a table over at most 6 ranks, in any order, of which one may come more than once.
pub(crate) fn add_table<F: Field>(
    alloc: Global,
    field: &F,
    ranks: &[u32],
    table: u64,
    sum: &mut MonoSum,
) -> Result<(), AllocError>
    requires few { length ranks.now ≤ 6 }
    requires sum { AreTerms (F.degree field.now) sum.old.terms }
    ensures terms { OnOk result (AreTerms (F.degree field.now) sum.new.terms) }
    ensures values { OnOk result (AddsValue (F.degree field.now) (F.product field.now) (λ p. table_value table ranks.now p.is_one) sum.old.terms sum.new.terms) }
{
    let form = exclusive_form(table);
    add_sets(alloc, field, form, ranks, 0, 1, &[], sum)?;
    Ok(())
}
