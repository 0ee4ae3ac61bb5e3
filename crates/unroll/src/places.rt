//! Where the bits of fed words begin.
ghost use Rattle.std.specs.Prelude.{◌≡◌, ◌<◌, ◌+◌, ◌*◌, ◌≤◌, IfOk};
ghost use Rattle.lists.specs.Limits.{most_nets};
ghost use Rattle.net_core.specs.NetList.{nets};
ghost use Rattle.unroll.specs.Places.{fed_bits as fed_bits_of, fed_count as fed_count_of};
ghost use Rattle.unroll.specs.private.Plan.{AreFirstBits, net_count as net_count_of};

use net_core::Net;
use net_words::{Bound, Role};
use std::alloc::{AllocError, Global};

// How many nets a word with this role adds after the nets of the cycles.
fn fed_bits(k: u32, role: Role) -> u32
    ensures count { result ≡ fed_bits_of k role }
    ensures few { result ≤ k }
{
    match role {
        Role::Fed => k,
        Role::Input | Role::State | Role::Output => 0,
    }
}

// How many nets the fed words add.
fn fed_count(binding: &Bound) -> u32
    ensures count { result ≡ fed_count_of binding.now.k binding.now.words }
    ensures few { result ≤ 64 * 9 }
{
    let mut count = 0;
    for w in 0..binding.words() {
        count += fed_bits(binding.k(), binding.role(w));
    }
    count
}

/// How many nets the net has after unrolling.
pub fn net_count(net: &Net, binding: &Bound, cycles: u32) -> u64
    requires { cycles ≤ 4096 }
    ensures { result ≡ net_count_of net.now binding.now cycles }
{
    (u64::from(cycles) + 1) * u64::from(net.nets()) + u64::from(fed_count(binding))
}

/// For each word the net of its bit 0, if it is fed.
pub fn first_bits(
    alloc: Global,
    net: &Net,
    binding: &Bound,
    cycles: u32,
) -> Result<Vec<u32>, AllocError>
    requires cycles { cycles ≤ 4096 }
    requires few { net_count_of net.now binding.now cycles ≤ most_nets }
    ensures { IfOk result (λ firsts. AreFirstBits net.now binding.now cycles firsts.items) }
{
    let mut firsts = Vec::new(alloc);
    let mut next = (cycles + 1) * net.nets();
    for w in 0..binding.words() {
        firsts.push(next)?;
        next += fed_bits(binding.k(), binding.role(w));
    }
    Ok(firsts)
}
