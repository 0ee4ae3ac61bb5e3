//! The products of all coefficients.
ghost use Rattle.std.specs.Prelude.{◌≡◌, ◌+◌, ◌*◌, ◌<◌, ◌≤◌, ◌^◌, IfOk, OnOk, length};
ghost use Rattle.gf_field.specs.Ring2k.{degree_of, modulus_of};
ghost use Rattle.irreducible.specs.Proved.{ring_of};
ghost use Rattle.make_nets.specs.PlanShape.{HasRoom};
ghost use Rattle.mult_composite.specs.Composite.{all_products as all_products_of, base_product as base_product_of, coefficient_nets as coefficient_nets_of, coefficient_product as coefficient_product_of};
ghost use Rattle.mult_gen.specs.Chains.{added_products as added_products_of, products as bit_products_of};
ghost use Rattle.mult_gen.specs.Powers.{ArePowers};

use crate::chains::sum_of;
use crate::places::{bit_of, group_of, square};
use gf_field::Ring2k;
use irreducible::Proved;
use make_nets::PlanMaker;
use mult_gen::{added_products, bit_products};
use std::alloc::{AllocError, Global};

// The nets of coefficient i of a word of m coefficients.
fn coefficient_nets(nets: &[u32], n: usize, m: usize, i: usize) -> &[u32]
    requires coefficient { i < m }
    requires small { n * m ≤ 64 }
    requires long { length nets.now ≡ n * m }
    ensures nets { result.now ≡ coefficient_nets_of n nets.now i }
    ensures long { length result.now ≡ n }
{
    let start = n * i;
    &nets[start..start + n]
}

// The products of the bits of two coefficients on these nets.
fn products_of_bits(plan: &mut PlanMaker, n: usize, a: &[u32], b: &[u32]) -> Result<(), AllocError>
    requires low { n ≤ 32 }
    requires long_first { length a.now ≡ n }
    requires long_second { length b.now ≡ n }
    requires room { HasRoom plan.old (2 ^ 13) }
    ensures made { OnOk result (plan.new ≡ bit_products_of n a.now b.now plan.old) }
    ensures next { OnOk result (plan.new.next ≤ plan.old.next + 2 ^ 10) }
{
    bit_products(plan, a, b)
}

// Of these products, which are numbered from `first`, those that add to bit l.
fn products_for_bit(
    alloc: Global,
    base: &Proved<Ring2k>,
    powers: &[u64],
    n: usize,
    first: u32,
    l: usize,
) -> Result<Vec<u32>, AllocError>
    requires degree { n ≡ degree_of (ring_of base.now) }
    requires powers { ArePowers (degree_of (ring_of base.now)) (modulus_of (ring_of base.now)) powers.now }
    requires long { length powers.now ≡ 2 * n }
    requires small { n ≤ 32 }
    requires bit { l < 64 }
    requires room { first + 2 ^ 13 < 2 ^ 32 }
    ensures list { IfOk result (λ list. list.items ≡ added_products_of n (modulus_of (ring_of base.now)) first l) }
    ensures few { IfOk result (λ list. length list.items ≤ 2 ^ 10) }
{
    added_products(alloc, base, powers, n, first, l)
}

// The product of two coefficients on these nets: a net for each bit.
fn base_product(
    alloc: Global,
    plan: &mut PlanMaker,
    base: &Proved<Ring2k>,
    powers: &[u64],
    n: usize,
    a: &[u32],
    b: &[u32],
) -> Result<Vec<u32>, AllocError>
    requires degree { n ≡ degree_of (ring_of base.now) }
    requires powers { ArePowers (degree_of (ring_of base.now)) (modulus_of (ring_of base.now)) powers.now }
    requires long { length powers.now ≡ 2 * n }
    requires low { n ≤ 32 }
    requires long_first { length a.now ≡ n }
    requires long_second { length b.now ≡ n }
    requires room { HasRoom plan.old (2 ^ 16) }
    ensures made { OnOk result (plan.new ≡ (base_product_of n (modulus_of (ring_of base.now)) a.now b.now plan.old).plan) }
    ensures nets { IfOk result (λ nets. nets.items ≡ (base_product_of n (modulus_of (ring_of base.now)) a.now b.now plan.old).nets) }
    ensures next { OnOk result (plan.new.next ≤ plan.old.next + 2 ^ 16) }
{
    let first = plan.next();
    products_of_bits(plan, n, a, b)?;
    let mut nets = Vec::new(alloc);
    for l in 0..n {
        let list = products_for_bit(alloc, base, powers, n, first, l)?;
        let net = sum_of(plan, list.as_slice())?;
        nets.push(net)?;
    }
    Ok(nets)
}

// The product of coefficient i of a word and coefficient j of another, of m coefficients each: a net for each bit.
fn coefficient_product(
    alloc: Global,
    plan: &mut PlanMaker,
    base: &Proved<Ring2k>,
    powers: &[u64],
    n: usize,
    m: usize,
    a: &[u32],
    b: &[u32],
    i: usize,
    j: usize,
) -> Result<Vec<u32>, AllocError>
    requires degree { n ≡ degree_of (ring_of base.now) }
    requires powers { ArePowers (degree_of (ring_of base.now)) (modulus_of (ring_of base.now)) powers.now }
    requires long { length powers.now ≡ 2 * n }
    requires low { n ≤ 32 }
    requires small { n * m ≤ 64 }
    requires first { i < m }
    requires second { j < m }
    requires long_first { length a.now ≡ n * m }
    requires long_second { length b.now ≡ n * m }
    requires room { HasRoom plan.old (2 ^ 16) }
    ensures made { OnOk result (plan.new ≡ (coefficient_product_of n (modulus_of (ring_of base.now)) a.now b.now i j plan.old).plan) }
    ensures nets { IfOk result (λ nets. nets.items ≡ (coefficient_product_of n (modulus_of (ring_of base.now)) a.now b.now i j plan.old).nets) }
    ensures next { OnOk result (plan.new.next ≤ plan.old.next + 2 ^ 16) }
{
    let first = coefficient_nets(a, n, m, i);
    let second = coefficient_nets(b, n, m, j);
    base_product(alloc, plan, base, powers, n, first, second)
}

// The products of each coefficient of `a` and each of `b`, m coefficients each.
pub(crate) fn all_products(
    alloc: Global,
    plan: &mut PlanMaker,
    base: &Proved<Ring2k>,
    powers: &[u64],
    n: usize,
    m: usize,
    a: &[u32],
    b: &[u32],
) -> Result<Vec<u32>, AllocError>
    requires degree { n ≡ degree_of (ring_of base.now) }
    requires powers { ArePowers (degree_of (ring_of base.now)) (modulus_of (ring_of base.now)) powers.now }
    requires long { length powers.now ≡ 2 * n }
    requires some { 1 ≤ n }
    requires one { 1 ≤ m }
    requires low { n ≤ 32 }
    requires few { m ≤ 64 }
    requires small { n * m ≤ 64 }
    requires long_first { length a.now ≡ n * m }
    requires long_second { length b.now ≡ n * m }
    requires room { HasRoom plan.old (2 ^ 28) }
    ensures made { OnOk result (plan.new ≡ (all_products_of n (modulus_of (ring_of base.now)) m a.now b.now plan.old).plan) }
    ensures nets { IfOk result (λ nets. nets.items ≡ (all_products_of n (modulus_of (ring_of base.now)) m a.now b.now plan.old).nets) }
    ensures next { OnOk result (plan.new.next ≤ plan.old.next + 2 ^ 28) }
{
    let mut nets = Vec::new(alloc);
    let count = square(m);
    for q in 0..count {
        let i = group_of(m, m, q);
        let j = bit_of(m, q);
        let more = coefficient_product(alloc, plan, base, powers, n, m, a, b, i, j)?;
        nets.extend_from_slice(more.as_slice())?;
    }
    Ok(nets)
}
