//! The sums of products of coefficients, and those that are the bits of the product.
ghost use Rattle.std.specs.Prelude.{◌≡◌, ◌+◌, ◌*◌, ◌-◌, ◌<◌, ◌≤◌, ◌^◌, IfOk, OnOk, length};
ghost use Rattle.gf_field.specs.Quotient.{product};
ghost use Rattle.gf_field.specs.Ring2k.{degree_of, modulus_of};
ghost use Rattle.irreducible.specs.Proved.{ring_of};
ghost use Rattle.make_nets.specs.PlanShape.{HasRoom};
ghost use Rattle.make_nets.specs.Row.{row_of};
ghost use Rattle.mult_composite.specs.Composite.{pair_sums as pair_sums_of};
ghost use Rattle.mult_gen.specs.Powers.{ArePowers};
ghost use Rattle.mult_composite.specs.private.ByPowers.{IsReducedBy};

use crate::added_nets::{added_pairs, added_sums};
use crate::chains::{sum_into, sum_of};
use crate::places::{bit_of, group_of, sum_count};
use gf_field::Ring2k;
use irreducible::Proved;
use make_nets::PlanMaker;
use std::alloc::{AllocError, Global};

// The sums of the products whose places add up to 0, to 1, .. and to 2 * m - 2: a net for each bit.
pub(crate) fn pair_sums(
    alloc: Global,
    plan: &mut PlanMaker,
    n: usize,
    m: usize,
    products: &[u32],
) -> Result<Vec<u32>, AllocError>
    requires some { 1 ≤ n }
    requires one { 1 ≤ m }
    requires low { n ≤ 32 }
    requires few { m ≤ 64 }
    requires long { length products.now ≡ m * m * n }
    requires room { HasRoom plan.old (2 ^ 19) }
    ensures made { OnOk result (plan.new ≡ (pair_sums_of n m (row_of plan.old products.now)).plan) }
    ensures nets { IfOk result (λ nets. nets.items ≡ (pair_sums_of n m (row_of plan.old products.now)).nets) }
    ensures count { IfOk result (λ nets. length nets.items ≡ (2 * m - 1) * n) }
    ensures next { OnOk result (plan.new.next ≤ plan.old.next + 2 ^ 19) }
{
    let mut nets = Vec::new(alloc);
    let count = sum_count(n, m);
    for p in 0..count {
        let d = group_of(n, 2 * m - 1, p);
        let list = added_pairs(alloc, n, m, products, d, bit_of(n, p))?;
        let net = sum_of(plan, list.as_slice())?;
        nets.push(net)?;
    }
    Ok(nets)
}

// The bits of the product: the sums for the places below m, and what the others reduce to.
pub(crate) fn reduced_sums(
    alloc: Global,
    plan: &mut PlanMaker,
    base: &Proved<Ring2k>,
    n: usize,
    m: usize,
    x_powers: &[u64],
    powers: &[u64],
    z: &[u32],
    sums: &[u32],
) -> Result<(), AllocError>
    requires degree { n ≡ degree_of (ring_of base.now) }
    requires some { 1 ≤ n }
    requires two { 2 ≤ m }
    requires low { n ≤ 32 }
    requires few { m ≤ 64 }
    requires small { n * m ≤ 64 }
    requires x_powers { ArePowers (degree_of (ring_of base.now)) (modulus_of (ring_of base.now)) x_powers.now }
    requires x_long { length x_powers.now ≡ 2 * n }
    requires powers { length powers.now ≡ m - 1 }
    requires targets { length z.now ≡ m * n }
    requires count { length z.now ≤ 64 }
    requires long { length sums.now ≡ (2 * m - 1) * n }
    requires room { HasRoom plan.old (2 ^ 17) }
    ensures { OnOk result (IsReducedBy n (modulus_of (ring_of base.now)) m powers.now z.now (row_of plan.old sums.now) plan.new) }
{
    for p in 0..z.len() {
        let e = group_of(n, m, p);
        let list = added_sums(alloc, base, n, m, x_powers, powers, sums, e, bit_of(n, p))?;
        sum_into(plan, z[p], list.as_slice())?;
    }
    Ok(())
}
