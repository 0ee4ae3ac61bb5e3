//! The polynomial of a top of instances.
ghost use Rattle.std.specs.Prelude.{◌<◌, ◌^◌, length, IfErr, IfOk, Ok};
ghost use Rattle.net_blif.specs.Models.{AreRight};
ghost use Rattle.net_blif.specs.Top.{instances_of};
ghost use Rattle.compose_blocks.specs.Planned.{IsPlanned};
ghost use Rattle.block_compose.specs.Composed.{bases_in, hierarchy_of, Composes, IsComposable, MayFault};
ghost use Rattle.block_compose.specs.private.Planned.{ComposesPlanned};

use crate::faults::{of_cycle, of_plan, of_wiring};
use crate::stages::compose_stages;
use crate::{BlockBases, ComposeFault};
use compose_blocks::{BlockPlan, plan_blocks};
use compose_polys::wired_order;
use compose_wiring::wiring_of;
use gf_basis::Basis;
use gf_field::Field;
use net_blif::Design;
use net_signature::Signature;
use poly_mixed::Poly;
use std::alloc::Global;

// The polynomial of a top whose instances have their blocks, or the first reason why there is none.
fn compose_planned<F: Field>(
    alloc: Global,
    field: &F,
    design: &Design,
    signature: &Signature,
    bases: &[Vec<Basis>],
    plan: &BlockPlan,
    bound: u32,
) -> Result<Poly, ComposeFault>
    requires given { IsComposable (F.degree field.now) (F.product field.now) design.now signature.now (bases_in bases.now) }
    requires right { AreRight design.now (Ok tt) }
    requires few { length (instances_of design.now) < 2 ^ 32 }
    requires planned { IsPlanned design.now signature.now plan.now.numbers.items plan.now.circuits.items }
    ensures poly { IfOk result (λ poly. ComposesPlanned (F.degree field.now) (F.product field.now) (hierarchy_of design.now signature.now (bases_in bases.now)) bound (Ok poly.terms)) }
    ensures fault { IfErr result (MayFault (ComposesPlanned (F.degree field.now) (F.product field.now) (hierarchy_of design.now signature.now (bases_in bases.now)) bound)) }
{
    let wiring = match wiring_of(
        alloc,
        design,
        signature.words(),
        signature.blocks(),
        bases,
        &plan.numbers,
    ) {
        Ok(wiring) => wiring,
        Err(fault) => return Err(of_wiring(fault)),
    };
    let order = match wired_order(alloc, &wiring.rows) {
        Ok(order) => order,
        Err(fault) => return Err(of_cycle(&wiring.rows, fault)),
    };
    compose_stages(
        alloc, field, design, signature, bases, plan, &wiring, &order, bound,
    )
}

/// The polynomial in words of what a top computes that only wires instances of blocks, or the first reason why there is none, in this
/// order.
///
/// - `FedInTop`: a word of the top is fed, or a line feeds a net.
/// - `GateInTop`: the first `.names` or `.latch` of the top.
/// - `NoBlock`: the first instance whose model has no block.
/// - `BlockNet`, `BlockLatch`, `BlockBind`: block by block, in the order in which instances first use them, one whose model,
///   flattened alone, is no net, has a latch, or does not bind to the block's words.
/// - `NotWords`: the first word of an instance, by instance and then by word, that no feed fits; and an output word with a bit
///   that is not connected or is an input of the block. A feed is an input word of the top or the output word of an instance;
///   it fits where its nets are, place by place, those that the instance connects to the word's, and both have the same basis.
/// - `OutputNotWords`: no feed fits the output word of the top.
/// - `InstanceLoop`: instances feed each other in a cycle.
/// - `TooManyTerms`: the first stage above the bound, of the blocks in that order and then of the instances by rising level and
///   number.
///
/// The flattened top binds to the signature's words, each word that is not fed has k nets, and each list has the bases of its
/// words over this field. Each block is abstracted once, however many instances use it.
pub fn compose<F: Field>(
    alloc: Global,
    field: &F,
    design: &Design,
    signature: &Signature,
    bases: &BlockBases,
    bound: u32,
) -> Result<Poly, ComposeFault>
    requires { IsComposable (F.degree field.now) (F.product field.now) design.now signature.now bases.now }
    ensures polynomial { IfOk result (λ poly. Composes (F.degree field.now) (F.product field.now) design.now signature.now bases.now bound (Ok poly.terms)) }
    ensures refusal { IfErr result (MayFault (Composes (F.degree field.now) (F.product field.now) design.now signature.now bases.now bound)) }
{
    let plan = match plan_blocks(alloc, design, signature) {
        Ok(plan) => plan,
        Err(fault) => return Err(of_plan(fault)),
    };
    compose_planned(alloc, field, design, signature, bases.lists(), &plan, bound)
}
