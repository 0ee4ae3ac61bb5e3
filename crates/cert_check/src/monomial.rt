//! Products of monomials.
ghost use Rattle.std.specs.Prelude.{◌≡◌, ◌<◌, ◌≤◌, ◌^◌, IfOk, OnOk};
ghost use Rattle.std.specs.List.{AllByRecursion};
ghost use Rattle.poly_mixed.specs.Product.{times, union, with_rank};

use poly_mixed::{Mono, place_of, sum_exponents};
use smallvec::SmallVec;
use std::alloc::{AllocError, Global};

// Puts a rank among rising ones.
pub(crate) fn add_rank(bits: &mut SmallVec<u32, 6>, r: u32) -> Result<(), AllocError>
    ensures { OnOk result (bits.new.items ≡ with_rank bits.old.items r) }
{
    let i = place_of(bits.as_slice(), r);
    if i < bits.len() && bits.as_slice()[i] == r {
        return Ok(());
    }
    bits.insert(i, r)?;
    Ok(())
}

// The ranks of both lists.
fn united(alloc: Global, left: &[u32], right: &[u32]) -> Result<SmallVec<u32, 6>, AllocError>
    ensures { IfOk result (λ v. v.items ≡ union left.now right.now) }
{
    let mut ranks = SmallVec::from_slice(alloc, left)?;
    for r in right {
        add_rank(&mut ranks, *r)?;
    }
    Ok(ranks)
}

/// The product of two monomials over a field of 2^k elements.
pub(crate) fn product(alloc: Global, k: u32, left: &Mono, right: &Mono) -> Result<Mono, AllocError>
    requires k_in { (1 ≤ k) × (k ≤ 64) }
    requires left { AllByRecursion (λ e. e < 2 ^ k) left.now.exponents }
    requires right { AllByRecursion (λ e. e < 2 ^ k) right.now.exponents }
    ensures { IfOk result (λ m. m ≡ times k left.now right.now) }
{
    let ranks = united(alloc, left.bits(), right.bits())?;
    let exponents = sum_exponents(left.exponents(), right.exponents(), k);
    Mono::new(alloc, ranks.as_slice(), &exponents)
}
