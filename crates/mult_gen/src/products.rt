//! The products of the bits of two words.
ghost use Rattle.std.specs.Prelude.{◌≡◌, ◌≤◌, ◌+◌, ◌*◌, OnOk, length};
ghost use Rattle.make_nets.specs.PlanShape.{HasRoom};
ghost use Rattle.mult_gen.specs.Chains.{product_row as product_row_of, products as products_of};

use make_nets::PlanMaker;
use std::alloc::AllocError;

// The products of a net and each net of a word.
fn product_row(plan: &mut PlanMaker, x: u32, b: &[u32]) -> Result<(), AllocError>
    requires room { HasRoom plan.old (length b.now) }
    ensures made { OnOk result (plan.new ≡ product_row_of (length b.now) x b.now plan.old) }
    ensures next { OnOk result (plan.new.next ≡ plan.old.next + length b.now) }
{
    for y in b {
        plan.and(x, *y)?;
    }
    Ok(())
}

/// The products of each net of a word and each net of another, by the first and then by the second.
pub fn bit_products(plan: &mut PlanMaker, a: &[u32], b: &[u32]) -> Result<(), AllocError>
    requires same { length a.now ≡ length b.now }
    requires few { length b.now ≤ 64 }
    requires room { HasRoom plan.old 4096 }
    ensures made { OnOk result (plan.new ≡ products_of (length b.now) a.now b.now plan.old) }
    ensures next { OnOk result (plan.new.next ≡ plan.old.next + length b.now * length b.now) }
{
    for x in a {
        product_row(plan, *x, b)?;
    }
    Ok(())
}
