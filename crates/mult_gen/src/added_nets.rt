//! What adds to a bit of a product and of a square.
ghost use Rattle.std.specs.Prelude.{◌≡◌, ◌<◌, ◌≤◌, ◌+◌, ◌*◌, ◌++◌, ◌^◌, IfOk, OnOk, length};
ghost use Rattle.gf_field.specs.Ring2k.{degree_of, modulus_of};
ghost use Rattle.irreducible.specs.Proved.{ring_of};
ghost use Rattle.mult_gen.specs.Chains.{added_bits as added_bits_of, added_products as added_products_of, added_row};
ghost use Rattle.mult_gen.specs.Powers.{ArePowers};

use crate::powers::has_bit;
use gf_field::Ring2k;
use irreducible::Proved;
use make_nets::push_where;
use std::alloc::{AllocError, Global};

// Adds the products of bit i of the first factor that add to bit l, where they are numbered from first.
fn push_row(
    list: &mut Vec<u32>,
    _ring: &Proved<Ring2k>,
    powers: &[u64],
    k: usize,
    first: u32,
    i: usize,
    l: usize,
) -> Result<(), AllocError>
    requires powers { ArePowers (degree_of (ring_of _ring.now)) (modulus_of (ring_of _ring.now)) powers.now }
    requires degree { k ≡ degree_of (ring_of _ring.now) }
    requires long { i + k ≤ length powers.now }
    requires bit { l < 64 }
    requires room { first + k < 2 ^ 32 }
    ensures { OnOk result (list.new.items ≡ list.old.items ++ added_row k (modulus_of (ring_of _ring.now)) first i l k) }
{
    for j in 0..k {
        push_where(list, has_bit(powers[i + j], l), first + j as u32)?;
    }
    Ok(())
}

/// The products, numbered from `first`, that add to bit l of the product of two factors of k bits; `powers` are those of x.
pub fn added_products(
    alloc: Global,
    ring: &Proved<Ring2k>,
    powers: &[u64],
    k: usize,
    first: u32,
    l: usize,
) -> Result<Vec<u32>, AllocError>
    requires powers { ArePowers (degree_of (ring_of ring.now)) (modulus_of (ring_of ring.now)) powers.now }
    requires degree { k ≡ degree_of (ring_of ring.now) }
    requires long { length powers.now ≡ 2 * k }
    requires bit { l < 64 }
    requires room { first + 8192 < 2 ^ 32 }
    ensures { IfOk result (λ list. list.items ≡ added_products_of k (modulus_of (ring_of ring.now)) first l) }
{
    let mut list = Vec::new(alloc);
    for i in 0..k {
        push_row(&mut list, ring, powers, k, first + (i * k) as u32, i, l)?;
    }
    Ok(list)
}

/// The bits of a factor that add to bit l of its square.
pub(crate) fn added_bits(
    alloc: Global,
    _ring: &Proved<Ring2k>,
    powers: &[u64],
    a: &[u32],
    l: usize,
) -> Result<Vec<u32>, AllocError>
    requires powers { ArePowers (degree_of (ring_of _ring.now)) (modulus_of (ring_of _ring.now)) powers.now }
    requires degree { length a.now ≡ degree_of (ring_of _ring.now) }
    requires long { length powers.now ≡ 2 * length a.now }
    requires bit { l < 64 }
    ensures { IfOk result (λ list. list.items ≡ added_bits_of (length a.now) (modulus_of (ring_of _ring.now)) a.now l) }
{
    let mut list = Vec::new(alloc);
    for i in 0..a.len() {
        push_where(&mut list, has_bit(powers[2 * i], l), a[i])?;
    }
    Ok(list)
}
