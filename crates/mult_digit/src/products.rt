//! The products of the bits of a digit and of the other factor.
ghost use Rattle.std.specs.Prelude.{◌≡◌, ◌*◌, ◌≤◌, ◌+◌, None, OnOk, length};
ghost use Rattle.make_nets.specs.Plan.{each, with_and};
ghost use Rattle.make_nets.specs.PlanShape.{HasRoom};
ghost use Rattle.make_laws.specs.Held.{net_at};
ghost use Rattle.mult_digit.specs.DigitPlan.{with_row};

use make_nets::PlanMaker;
use std::alloc::AllocError;

// The products of a net and of each of the nets b.
fn add_row(plan: &mut PlanMaker, d: u32, b: &[u32]) -> Result<(), AllocError>
    requires room { HasRoom plan.old (length b.now) }
    ensures few { OnOk result (plan.new.next ≡ plan.old.next + length b.now) }
    ensures made { OnOk result (plan.new ≡ each (length b.now) (λ j. with_and None d (net_at b.now j)) plan.old) }
{
    for j in 0..b.len() {
        plan.and(d, b[j])?;
    }
    Ok(())
}

/// The products of the nets d and the nets b, by the first and then by the second.
pub(crate) fn add_products(plan: &mut PlanMaker, d: &[u32], b: &[u32]) -> Result<(), AllocError>
    requires d_few { length d.now ≤ 64 }
    requires b_few { length b.now ≤ 64 }
    requires room { HasRoom plan.old 4096 }
    ensures few { OnOk result (plan.new.next ≤ plan.old.next + 64 * length d.now) }
    ensures made { OnOk result (plan.new ≡ each (length d.now) (with_row (length b.now) d.now b.now) plan.old) }
{
    for e in 0..d.len() {
        add_row(plan, d[e], b)?;
    }
    Ok(())
}
