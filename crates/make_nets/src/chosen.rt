//! Nets that are chosen.
ghost use Rattle.std.specs.Prelude.{◌≡◌, ◌+◌, ◌≤◌, ◌++◌, OnOk, length};
ghost use Rattle.make_nets.specs.Plan.{where_so};

use std::alloc::AllocError;

/// Adds a net where it is chosen.
pub fn push_where(list: &mut Vec<u32>, so: bool, net: u32) -> Result<(), AllocError>
    ensures list { OnOk result (list.new.items ≡ list.old.items ++ where_so so net) }
    ensures few { OnOk result (length list.new.items ≤ length list.old.items + 1) }
{
    if so {
        list.push(net)?;
    }
    Ok(())
}
