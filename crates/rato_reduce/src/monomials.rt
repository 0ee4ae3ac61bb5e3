//! The polynomial of a table in the inputs of its gate, as sets of bits.
ghost use Rattle.std.specs.Prelude.{◌≡◌, ◌+◌, ◌*◌, ◌^◌, ◌<◌, ◌≤◌, ◌++◌, [], length, IfOk, OnOk};
ghost use Rattle.poly_mixed.specs.Table.{table_bit};
ghost use Rattle.rato_reduce.specs.Monomials.{monomials};

use crate::ranks::Ranks;
use std::alloc::{AllocError, Global};

/// The sets of ranks whose places are those of a form's ones: each is that of a product.
pub fn monomials(alloc: Global, form: u64, ranks: &[u32]) -> Result<Vec<Ranks>, AllocError>
    requires { length ranks.now ≤ 6 }
    ensures { IfOk result (λ sets. sets.items ≡ monomials form [] ranks.now 0 1) }
{
    let mut sets = Vec::new(alloc);
    add_monomials(form, &Ranks::none(alloc), ranks, 0, 1, &mut sets)?;
    Ok(sets)
}

// The same of the part of the form from `base` on by steps of `step`, each with the ranks that were taken before.
fn add_monomials(
    form: u64,
    taken: &Ranks,
    ranks: &[u32],
    base: u32,
    step: u32,
    sets: &mut Vec<Ranks>,
) -> Result<(), AllocError>
    requires base { base < step }
    requires within { step * 2 ^ length ranks.now ≤ 64 }
    ensures { OnOk result (sets.new.items ≡ sets.old.items ++ monomials form taken.now ranks.now base step) }
{
    if ranks.is_empty() {
        if (form >> base) & 1 == 1 {
            sets.push(taken.copied()?)?;
        }
        return Ok(());
    }
    let rest = &ranks[1..];
    add_monomials(form, taken, rest, base, 2 * step, sets)?;
    let more = taken.with(ranks[0])?;
    add_monomials(form, &more, rest, base + step, 2 * step, sets)
}

/// Whether the form of a table has a place.
pub fn has_place(form: u64, place: u32) -> bool
    requires { place < 64 }
    ensures { result ≡ table_bit form place }
{
    (form >> place) & 1 == 1
}
