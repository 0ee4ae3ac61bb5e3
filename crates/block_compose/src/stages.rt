//! The stages of a composition.
ghost use Rattle.std.specs.Prelude.{◌<◌, ◌^◌, length, Ok, IfErr, IfOk};
ghost use Rattle.net_blif.specs.Models.{AreRight};
ghost use Rattle.net_blif.specs.Top.{instances_of};
ghost use Rattle.compose_model.specs.Wiring.{feeding_graph, rows_in};
ghost use Rattle.compose_blocks.specs.Planned.{IsPlanned};
ghost use Rattle.compose_wiring.specs.Answer.{AreWired};
ghost use Rattle.compose_polys.specs.LevelOrder.{IsLevelOrder};
ghost use Rattle.block_compose.specs.Composed.{hierarchy_of, IsComposable, MayFault, StagesFor, bases_in};

use crate::ComposeFault;
use crate::blocks::{block_polys, polys_of};
use crate::faults::of_stage;
use compose_blocks::BlockPlan;
use compose_polys::wired_poly;
use compose_wiring::Wiring;
use gf_basis::Basis;
use gf_field::Field;
use net_blif::Design;
use net_signature::Signature;
use poly_mixed::Poly;
use std::alloc::Global;

/// The polynomial of a top whose instances have blocks, are wired, and stand in an order by level; or the first stage over the bound.
pub(crate) fn compose_stages<F: Field>(
    alloc: Global,
    field: &F,
    _design: &Design,
    signature: &Signature,
    bases: &[Vec<Basis>],
    plan: &BlockPlan,
    wiring: &Wiring,
    order: &[u32],
    bound: u32,
) -> Result<Poly, ComposeFault>
    requires given { IsComposable (F.degree field.now) (F.product field.now) _design.now signature.now (bases_in bases.now) }
    requires right { AreRight _design.now (Ok tt) }
    requires few { length (instances_of _design.now) < 2 ^ 32 }
    requires planned { IsPlanned _design.now signature.now plan.now.numbers.items plan.now.circuits.items }
    requires wired { AreWired (hierarchy_of _design.now signature.now (bases_in bases.now)) (rows_in wiring.now.rows.items) wiring.now.output }
    requires order { IsLevelOrder (feeding_graph (rows_in wiring.now.rows.items)) order.now }
    ensures poly { IfOk result (λ poly. StagesFor (F.degree field.now) (F.product field.now) _design.now signature.now bases.now wiring.now.rows.items bound (Ok poly.terms)) }
    ensures fault { IfErr result (MayFault (StagesFor (F.degree field.now) (F.product field.now) _design.now signature.now bases.now wiring.now.rows.items bound)) }
{
    let polys = match block_polys(
        alloc,
        field,
        signature.blocks(),
        &plan.circuits,
        bases,
        &plan.numbers,
        bound,
    ) {
        Ok(polys) => polys,
        Err(fault) => return Err(fault),
    };
    let Ok(list) = polys_of(alloc, &polys, &plan.numbers) else {
        return Err(ComposeFault::OutOfMemory);
    };
    // all words but the output word
    let count = signature.words().len() - 1;
    match wired_poly(
        alloc,
        field,
        count,
        &list,
        &wiring.rows,
        order,
        wiring.output,
        bound,
    ) {
        Ok(poly) => Ok(poly),
        Err(fault) => Err(of_stage(fault)),
    }
}
