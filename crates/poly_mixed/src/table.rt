//! Polynomials of tables over bits, and the exclusive-or form of a table.
ghost use Rattle.std.specs.Prelude.{◌≡◌, ℕ, ◌+◌, ◌*◌, ◌%◌, ◌^◌, ◌<◌, ◌≤◌, Bool, List, cond, bit_and, bit_xor, length, IfOk};
ghost use Rattle.poly_mixed.specs.Polynomial.{IsPolynomialOf, IsReduced};
ghost use Rattle.poly_mixed.specs.private.Choice.{IsBitTimes, IsChoice};
ghost use Rattle.poly_mixed.specs.Table.{index, subset_parity, table_bit, table_value};

use crate::Poly;
use crate::single::{constant, scaled_bit};
use gf_field::Field;
use std::alloc::{AllocError, Global};

/// The polynomial in bits whose value is the bit of the table that the bits of the ranks choose, the first one lowest.
/// The ranks, at most 6, stand in any order, and one may come more than once.
pub fn table_poly<F: Field>(
    alloc: Global,
    field: &F,
    ranks: &[u32],
    table: u64,
) -> Result<Poly, AllocError>
    requires few { length ranks.now ≤ 6 }
    ensures { IfOk result (λ q. IsPolynomialOf (F.degree field.now) (F.product field.now) (λ p. table_value table ranks.now p.is_one) q.terms) }
{
    table_from(alloc, field, ranks, table, 0, 1)
}

// The same of the part of the table from `base` on by steps of `step`.
fn table_from<F: Field>(
    alloc: Global,
    field: &F,
    ranks: &[u32],
    table: u64,
    base: u32,
    step: u32,
) -> Result<Poly, AllocError>
    requires base { base < step }
    requires within { step * 2 ^ length ranks.now ≤ 64 }
    ensures { IfOk result (λ q. IsPolynomialOf (F.degree field.now) (F.product field.now) (λ p. cond (table_bit table (base + step * index p.is_one ranks.now)) 1 0) q.terms) }
{
    if ranks.is_empty() {
        return constant(alloc, field, (table >> base) & 1);
    }
    let low = table_from(alloc, field, &ranks[1..], table, base, 2 * step)?;
    let mut high = table_from(alloc, field, &ranks[1..], table, base + step, 2 * step)?;
    choose(alloc, field, ranks[0], &low, &mut high)
}

// The polynomial of `high` where the bit of the rank is 1, and of `low` where it is 0; `high` is used up.
fn choose<F: Field>(
    alloc: Global,
    field: &F,
    rank: u32,
    low: &Poly,
    high: &mut Poly,
) -> Result<Poly, AllocError>
    requires low { IsReduced (F.degree field.now) low.now.terms }
    requires high { IsReduced (F.degree field.now) high.old.terms }
    ensures reduced { IfOk result (λ q. IsReduced (F.degree field.now) q.terms) }
    ensures choice { IfOk result (λ q. IsChoice (F.degree field.now) (F.product field.now) rank low.now.terms high.old.terms q.terms) }
{
    high.add_into(field, low)?;
    let mut out = bit_times(alloc, field, rank, high)?;
    out.add_into(field, low)?;
    Ok(out)
}

// The product of the bit of a rank and a polynomial.
fn bit_times<F: Field>(
    alloc: Global,
    field: &F,
    rank: u32,
    change: &Poly,
) -> Result<Poly, AllocError>
    requires { IsReduced (F.degree field.now) change.now.terms }
    ensures reduced { IfOk result (λ q. IsReduced (F.degree field.now) q.terms) }
    ensures values { IfOk result (λ q. IsBitTimes (F.degree field.now) (F.product field.now) rank change.now.terms q.terms) }
{
    let bit = scaled_bit(alloc, field, 1, rank)?;
    bit.mul(alloc, field, change)
}

/// The exclusive-or form of a table: its bit at a place is the coefficient of the product of the inputs whose bits are 1 in
/// the place. So the table's bit at an index is the exclusive or of the form's bits at all subsets of the index.
pub fn exclusive_form(table: u64) -> u64
    ensures { (bit : ℕ → Bool) (inputs : List ℕ) → length inputs ≤ 6 → table_bit table (index bit inputs) ≡ subset_parity (table_bit result) bit inputs 0 1 }
{
    let form = spread(table, 32, 0xffff_ffff_0000_0000);
    let form = spread(form, 16, 0xffff_0000_ffff_0000);
    let form = spread(form, 8, 0xff00_ff00_ff00_ff00);
    let form = spread(form, 4, 0xf0f0_f0f0_f0f0_f0f0);
    let form = spread(form, 2, 0xcccc_cccc_cccc_cccc);
    spread(form, 1, 0xaaaa_aaaa_aaaa_aaaa)
}

// Adds to each bit of the mask's places the bit that stands so many places below it.
fn spread(form: u64, places: u32, mask: u64) -> u64
    requires { places < 64 }
    ensures { result ≡ bit_xor form (bit_and (form * 2 ^ places % 2 ^ 64) mask) }
{
    form ^ ((form << places) & mask)
}
