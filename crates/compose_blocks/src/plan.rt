//! The plan of a top.
ghost use Rattle.std.specs.Prelude.{◌≡◌, ◌<◌, ◌^◌, ℕ, length, map, Ok, IfErr, IfOk, OnOk};
ghost use Rattle.net_blif.specs.Models.{AreRight};
ghost use Rattle.net_blif.specs.Top.{instances_of};
ghost use Rattle.compose_blocks.specs.Plan.{UsesOf};
ghost use Rattle.compose_blocks.specs.Planned.{CanAllBind, IsPlanned, MayFault};

use crate::PlanFault;
use crate::structure::{check_gates, check_unfed};
use crate::used_circuits::circuits_of;
use crate::uses::{Found, found_in};
use net_blif::Design;
use net_signature::Signature;
use net_words::Combinational;
use std::alloc::{AllocError, Global};

/// The blocks of the instances of a top, and the circuits of these blocks.
#[derive(Drop)]
pub struct BlockPlan {
    /// The number of the block of each instance, in the order of the lines.
    pub numbers: Vec<u32>,
    /// The circuit of each block by its number; none where no instance uses the block.
    pub circuits: Vec<Option<Combinational>>,
}

// The numbers of blocks.
fn numbers_in(alloc: Global, list: &[Found]) -> Result<Vec<u32>, AllocError>
    ensures { IfOk result (λ numbers. numbers.items ≡ map (λ found. found.block) list.now) }
{
    list.iter().map(|found| found.block).collect(alloc)
}

/// The blocks of the instances of a top with their circuits, or the first of these: a feed in the signature; the first gate
/// or latch of the top; the first instance whose model has no block; and then, block by block in the order of the instances
/// that first use them, a block that is no net, that has a latch, or that does not bind. The words of each block can be bound,
/// and none of them is fed. What the design keeps is said with a plan: its models are right, and the top has fewer than 2^32
/// instances.
pub fn plan_blocks(
    alloc: Global,
    design: &Design,
    signature: &Signature,
) -> Result<BlockPlan, PlanFault>
    requires { (k : ℕ) × CanAllBind k signature.now.blocks }
    ensures planned { IfOk result (λ plan. IsPlanned design.now signature.now plan.numbers.items plan.circuits.items) }
    ensures right { OnOk result (AreRight design.now (Ok tt)) }
    ensures few { OnOk result (length (instances_of design.now) < 2 ^ 32) }
    ensures fault { IfErr result (MayFault (UsesOf design.now signature.now)) }
{
    match check_unfed(signature) {
        Ok(()) => {}
        Err(fault) => return Err(fault),
    }
    match check_gates(design) {
        Ok(()) => {}
        Err(fault) => return Err(fault),
    }
    let blocks = signature.blocks();
    // the blocks are in memory, so their count is below 2^32
    let Ok(_) = u32::try_from(blocks.len()) else {
        return Err(PlanFault::OutOfMemory);
    };
    let list = match found_in(alloc, design, blocks) {
        Ok(list) => list,
        Err(fault) => return Err(fault),
    };
    let circuits = match circuits_of(alloc, design, blocks, &list) {
        Ok(circuits) => circuits,
        Err(fault) => return Err(fault),
    };
    let Ok(numbers) = numbers_in(alloc, &list) else {
        return Err(PlanFault::OutOfMemory);
    };
    Ok(BlockPlan { numbers, circuits })
}
