//! The nets whose sum a bit of the product takes.
ghost use Rattle.std.specs.Prelude.{◌≡◌, ◌+◌, ◌*◌, ◌++◌, ◌<◌, ◌≤◌, ◌^◌, OnOk, IfOk, length};
ghost use Rattle.make_nets.specs.Plan.{gathered};
ghost use Rattle.mult_digit.specs.DigitPlan.{summands as summands_of};
ghost use Rattle.mult_digit.specs.private.Powers.{ArePowers};
ghost use Rattle.mult_digit.specs.private.ProductNets.{added_registers, added_row};

use crate::powers::has_bit;
use gf_field::Ring;
use make_nets::push_where;
use std::alloc::{AllocError, Global};

// The bits i of z for which bit l of x^(i + D) is 1.
fn add_registers<R: Ring>(
    ring: &R,
    x: u64,
    powers: &[u64; 128],
    width: u32,
    z: &[u32],
    l: u32,
    list: &mut Vec<u32>,
) -> Result<(), AllocError>
    requires powers { ArePowers (R.product ring.now) x powers.now }
    requires width { width ≤ 64 }
    requires few { length z.now ≤ 64 }
    requires place { l < 64 }
    ensures { OnOk result (list.new.items ≡ list.old.items ++ added_registers (R.product ring.now) x width z.now l) }
{
    for i in 0..z.len() {
        let so = has_bit(ring, x, powers, i as u32 + width, l);
        push_where(list, so, z[i])?;
    }
    Ok(())
}

// The products of bits e and j for which bit l of x^(e + j) is 1.
fn add_row<R: Ring>(
    ring: &R,
    x: u64,
    powers: &[u64; 128],
    first: u32,
    k: u32,
    e: u32,
    l: u32,
    list: &mut Vec<u32>,
) -> Result<(), AllocError>
    requires powers { ArePowers (R.product ring.now) x powers.now }
    requires first { first ≤ 1024 }
    requires few { k ≤ 64 }
    requires row { e < 64 }
    requires place { l < 64 }
    ensures { OnOk result (list.new.items ≡ list.old.items ++ added_row (R.product ring.now) x first k l e) }
{
    for j in 0..k {
        let so = has_bit(ring, x, powers, e + j, l);
        push_where(list, so, first + k * e + j)?;
    }
    Ok(())
}

// The products of all bits e and j for which bit l of x^(e + j) is 1.
fn add_products<R: Ring>(
    ring: &R,
    x: u64,
    powers: &[u64; 128],
    first: u32,
    k: u32,
    width: u32,
    l: u32,
    list: &mut Vec<u32>,
) -> Result<(), AllocError>
    requires powers { ArePowers (R.product ring.now) x powers.now }
    requires first { first ≤ 1024 }
    requires few { k ≤ 64 }
    requires width { width ≤ 64 }
    requires place { l < 64 }
    ensures { OnOk result (list.new.items ≡ list.old.items ++ gathered width (added_row (R.product ring.now) x first k l)) }
{
    for e in 0..width {
        add_row(ring, x, powers, first, k, e, l, list)?;
    }
    Ok(())
}

/// The nets whose sum bit l of the product takes, where products are numbered from `first` and digits have `width` bits.
pub(crate) fn summands<R: Ring>(
    alloc: Global,
    ring: &R,
    x: u64,
    powers: &[u64; 128],
    first: u32,
    width: u32,
    z: &[u32],
    l: u32,
) -> Result<Vec<u32>, AllocError>
    requires powers { ArePowers (R.product ring.now) x powers.now }
    requires first { first ≤ 1024 }
    requires z_long { length z.now ≡ R.degree ring.now }
    requires width { width ≤ 64 }
    requires place { l < 64 }
    ensures few { IfOk result (λ list. length list.items ≤ 4160) }
    ensures are { IfOk result (λ list. list.items ≡ summands_of first (R.degree ring.now) (R.product ring.now) x width z.now l) }
{
    let mut list = Vec::new(alloc);
    add_registers(ring, x, powers, width, z, l, &mut list)?;
    add_products(ring, x, powers, first, ring.k(), width, l, &mut list)?;
    Ok(list)
}
