//! Chains of nets, and how many inner nets they make.
ghost use Rattle.std.specs.Prelude.{◌≡◌, ◌+◌, ◌≤◌, None, Some, IfOk, OnOk, length};
ghost use Rattle.make_nets.specs.Plan.{chain_net, with_chain};
ghost use Rattle.make_nets.specs.PlanShape.{HasRoom};

use make_nets::PlanMaker;
use std::alloc::AllocError;

// A chain of the nets drives the next inner net after those between.
pub(crate) fn sum_of(plan: &mut PlanMaker, list: &[u32]) -> Result<u32, AllocError>
    requires room { HasRoom plan.old (length list.now + 1) }
    ensures net { IfOk result (λ n. n ≡ chain_net None list.now plan.old) }
    ensures made { OnOk result (plan.new ≡ with_chain None list.now plan.old) }
    ensures next { OnOk result (plan.new.next ≤ plan.old.next + (length list.now + 1)) }
{
    plan.chain(list)
}

// A chain of the nets drives an outer net.
pub(crate) fn sum_into(plan: &mut PlanMaker, out: u32, list: &[u32]) -> Result<(), AllocError>
    requires room { HasRoom plan.old (length list.now + 1) }
    ensures made { OnOk result (plan.new ≡ with_chain (Some out) list.now plan.old) }
    ensures next { OnOk result (plan.new.next ≤ plan.old.next + (length list.now + 1)) }
{
    plan.chain_into(out, list)
}
