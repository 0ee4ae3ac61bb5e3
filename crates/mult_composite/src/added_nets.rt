//! The nets that are added for a bit of the product in a tower.
ghost use Rattle.std.specs.Prelude.{◌≡◌, ◌+◌, ◌*◌, ◌-◌, ◌<◌, ◌≤◌, ◌++◌, IfOk, OnOk, length, slice_index};
ghost use Rattle.make_nets.specs.Plan.{where_so};
ghost use Rattle.make_laws.specs.TowerProduct.{adds_to as adds_to_of};
ghost use Rattle.gf_field.specs.Quotient.{product};
ghost use Rattle.gf_field.specs.Ring2k.{degree_of, modulus_of};
ghost use Rattle.irreducible.specs.Proved.{ring_of};
ghost use Rattle.mult_composite.specs.Composite.{added_pairs as added_pairs_of};
ghost use Rattle.mult_gen.specs.Powers.{ArePowers};
ghost use Rattle.mult_composite.specs.private.ByPowers.{AreAddedBy};

use crate::places::{adds_to, coefficient_of, high_count, high_place, pair_place, sum_place};
use crate::powers::factor;
use gf_field::Ring2k;
use irreducible::Proved;
use make_nets::push_where;
use mult_gen::has_bit;
use std::alloc::{AllocError, Global};

// Adds the net of bit l of the product of coefficients i and d - i, where these are two places of m.
fn push_pair(
    list: &mut Vec<u32>,
    n: usize,
    m: usize,
    products: &[u32],
    d: usize,
    l: usize,
    i: usize,
) -> Result<(), AllocError>
    requires place { i < m }
    requires small { m ≤ 64 }
    requires low { n ≤ 32 }
    requires sum { d < 128 }
    requires bit { l < n }
    requires long { length products.now ≡ m * m * n }
    ensures list { OnOk result (list.new.items ≡ list.old.items ++ where_so (adds_to_of m d i) (slice_index products.now ((i * m + (d - i)) * n + l))) }
    ensures few { OnOk result (length list.new.items ≤ length list.old.items + 1) }
{
    if adds_to(m, d, i) {
        let place = pair_place(n, m, i, d - i, l);
        list.push(products[place])?;
    }
    Ok(())
}

// Bit l of the products of coefficients whose places add up to d.
pub(crate) fn added_pairs(
    alloc: Global,
    n: usize,
    m: usize,
    products: &[u32],
    d: usize,
    l: usize,
) -> Result<Vec<u32>, AllocError>
    requires small { m ≤ 64 }
    requires low { n ≤ 32 }
    requires sum { d < 128 }
    requires bit { l < n }
    requires long { length products.now ≡ m * m * n }
    ensures list { IfOk result (λ list. list.items ≡ added_pairs_of n m products.now d l) }
    ensures few { IfOk result (λ list. length list.items ≤ m) }
{
    let mut list = Vec::new(alloc);
    for i in 0..m {
        push_pair(&mut list, n, m, products, d, l, i)?;
    }
    Ok(list)
}

// What adds to bit l of coefficient e of the product: the sum for e, and the bits of the sums for m and more that reach it.
pub(crate) fn added_sums(
    alloc: Global,
    base: &Proved<Ring2k>,
    n: usize,
    m: usize,
    x_powers: &[u64],
    powers: &[u64],
    sums: &[u32],
    e: usize,
    l: usize,
) -> Result<Vec<u32>, AllocError>
    requires degree { n ≡ degree_of (ring_of base.now) }
    requires some { 1 ≤ n }
    requires two { 2 ≤ m }
    requires coefficient { e < m }
    requires bit { l < n }
    requires low { n ≤ 32 }
    requires few { m ≤ 64 }
    requires small { n * m ≤ 64 }
    requires x_powers { ArePowers (degree_of (ring_of base.now)) (modulus_of (ring_of base.now)) x_powers.now }
    requires x_long { length x_powers.now ≡ 2 * n }
    requires powers { length powers.now ≡ m - 1 }
    requires long { length sums.now ≡ (2 * m - 1) * n }
    ensures list { IfOk result (λ list. AreAddedBy n (modulus_of (ring_of base.now)) m powers.now sums.now e l list.items) }
    ensures few { IfOk result (λ list. length list.items ≤ 65) }
{
    let mut list = Vec::new(alloc);
    let own = sum_place(n, 2 * m - 1, e, l);
    list.push(sums[own])?;
    let count = high_count(n, m);
    for q in 0..count {
        let factor = factor(base, n, m, x_powers, powers, e, q);
        let high = high_place(n, m, q);
        push_where(&mut list, has_bit(factor, l), sums[high])?;
    }
    Ok(list)
}
