//! The latches of a multiplier in a normal basis.
ghost use Rattle.std.specs.Prelude.{◌≡◌, ◌<◌, ◌++◌, OnOk, IfOk, length};
ghost use Rattle.net_core.specs.declared.latch.Start.TheVariants.{Unknown, Zero};
ghost use Rattle.make_laws.specs.NormalNets.{place_before as place_before_of};
ghost use Rattle.mult_normal.specs.NormalPlan.{moved_from as moved_from_of, moving, normal_latches, turning};

use net_core::{Latch, Start};
use std::alloc::{AllocError, Global};

// The place before, of so many places in a ring.
fn place_before(count: usize, i: usize) -> usize
    requires { i < count }
    ensures at { result ≡ place_before_of count i }
    ensures within { result < count }
{
    if i == 0 { count - 1 } else { i - 1 }
}

// The net before the one at a place, and another one before the first.
fn moved_from(first: u32, nets: &[u32], i: usize) -> u32
    requires { i < length nets.now }
    ensures { result ≡ moved_from_of first nets.now i }
{
    if i == 0 { first } else { nets[i - 1] }
}

// The latches that turn a word by one place in each cycle.
fn add_turning(latches: &mut Vec<Latch>, nets: &[u32]) -> Result<(), AllocError>
    ensures { OnOk result (latches.new.items ≡ latches.old.items ++ turning (length nets.now) nets.now) }
{
    for i in 0..nets.len() {
        let before = nets[place_before(nets.len(), i)];
        latches.push(Latch {
            next: before,
            out: nets[i],
            start: Start::Unknown,
        })?;
    }
    Ok(())
}

// The latches that move a word on by one place in each cycle, and take a net at its first place.
fn add_moving(latches: &mut Vec<Latch>, first: u32, nets: &[u32]) -> Result<(), AllocError>
    ensures { OnOk result (latches.new.items ≡ latches.old.items ++ moving (length nets.now) first nets.now) }
{
    for i in 0..nets.len() {
        let before = moved_from(first, nets, i);
        latches.push(Latch {
            next: before,
            out: nets[i],
            start: Start::Zero,
        })?;
    }
    Ok(())
}

/// The latches of two factors, and of their product, which takes the net of the sum; by the nets of the words.
pub(crate) fn latches(
    alloc: Global,
    sum: u32,
    a: &[u32],
    b: &[u32],
    z: &[u32],
) -> Result<Vec<Latch>, AllocError>
    requires b_long { length b.now ≡ length a.now }
    requires z_long { length z.now ≡ length a.now }
    ensures { IfOk result (λ list. list.items ≡ normal_latches (length a.now) sum a.now b.now z.now) }
{
    let mut list = Vec::new(alloc);
    add_turning(&mut list, a)?;
    add_turning(&mut list, b)?;
    add_moving(&mut list, sum, z)?;
    Ok(list)
}
