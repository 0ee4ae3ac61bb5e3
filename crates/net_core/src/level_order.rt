//! The order of gates by level and position.
ghost use Rattle.std.specs.Prelude.{◌≡◌, ◌<◌, map, IfOk};
ghost use Rattle.net_core.specs.Order.{IsLevelOrder, IsOrder, AreKeys};

use crate::levels::known;
use crate::{Net, NetMaker};
use std::alloc::{AllocError, Global};

// The level and the position of each gate.
fn keys(
    alloc: Global,
    net: &NetMaker,
    levels: &[Option<u32>],
) -> Result<Vec<(u32, u32)>, AllocError>
    ensures { IfOk result (λ v. AreKeys net.now levels.now v.items) }
{
    let mut keys = Vec::new(alloc);
    for (position, gate) in net.gates().iter().enumerate() {
        let level = known(levels, gate.out()).unwrap_or(0);
        keys.push((level, position as u32))?;
    }
    Ok(keys)
}

// The second numbers.
fn seconds(alloc: Global, keys: &[(u32, u32)]) -> Result<Vec<u32>, AllocError>
    ensures { IfOk result (λ v. v.items ≡ map (λ k. k.1) keys.now) }
{
    keys.iter().map(|key| key.1).collect(alloc)
}

// The gates by rising level and then by rising position.
pub fn order_by(
    alloc: Global,
    net: &NetMaker,
    levels: &[Option<u32>],
) -> Result<Vec<u32>, AllocError>
    ensures { IfOk result (λ v. IsOrder net.now levels.now v.items) }
{
    let mut keys = keys(alloc, net, levels)?;
    keys.sort_unstable();
    seconds(alloc, &keys)
}

/// The positions of the gates by rising level and then by rising position.
/// The level of a primary input and of a latch's output is 0; that of a gate is 1 plus the greatest of its inputs,
/// and 1 if it has none. It answers nothing but the order, or runs out of memory.
pub fn order(alloc: Global, net: &Net) -> Result<Vec<u32>, AllocError>
    ensures { IfOk result (λ v. IsLevelOrder net.now v.items) }
{
    order_by(alloc, net.made(), net.levels())
}
