//! Simplified nets.
ghost use Rattle.std.specs.Prelude.{◌≡◌, ◌<◌, [], ℕ, IfOk};
ghost use Rattle.lists.specs.Lists.{Has};
ghost use Rattle.net_core.specs.NetList.{nets};
ghost use Rattle.net_simplify.specs.Simplified.{IsSimplified};

use crate::knowing::know;
use crate::marking::use_marks;
use crate::rebuilding::rebuilt;
use net_core::{Net, order};
use std::alloc::{AllocError, Global};

/// The net in which functions of few nets are put together, for these ends, which exist. It takes time in the number of
/// gates, and for a gate of n inputs `2^n` choices are tried. It answers nothing but this net, or runs out of memory.
pub fn simplified(alloc: Global, net: &Net, ends: &[u32]) -> Result<Net, AllocError>
    requires flat { net.now.latches ≡ [] }
    requires ends { (n : ℕ) → Has ends.now n → n < nets net.now }
    ensures { IfOk result (λ simple. IsSimplified ends.now net.now simple) }
{
    let order = order(alloc, net)?;
    let marks = use_marks(alloc, net, ends, &order)?;
    let known = know(alloc, net, &order, &marks)?;
    rebuilt(alloc, net, known, &marks)
}
