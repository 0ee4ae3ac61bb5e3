//! Faults of blocks, of wirings, of cycles and of stages as those of compositions.
ghost use Rattle.std.specs.Prelude.{◌≡◌, ◌<◌, ◌^◌, ℕ, length, map, slice_get, Some};
ghost use Rattle.graph_core.specs.Fault.{IsCycleFault};
ghost use Rattle.compose_model.specs.Wiring.{feeding_graph};
ghost use Rattle.compose_polys.specs.LevelOrder.{first_numbers};
ghost use Rattle.block_compose.specs.Composed.{fault_of_plan, fault_of_wiring, HasNoCycle, MayFault};
ghost use Rattle.block_compose.specs.private.Blocks.{instance_fault_of};

use crate::ComposeFault;
use compose_blocks::PlanFault;
use compose_model::Feeder;
use compose_wiring::WiringFault;
use graph_core::CycleFault;
use poly_mixed::ReduceFault;

/// A refused block.
pub(crate) fn of_plan(fault: PlanFault) -> ComposeFault
    ensures { result ≡ fault_of_plan fault }
{
    match fault {
        PlanFault::FedInTop => ComposeFault::FedInTop,
        PlanFault::GateInTop { line } => ComposeFault::GateInTop { line },
        PlanFault::NoBlock { model } => ComposeFault::NoBlock { model },
        PlanFault::BlockNet { model } => ComposeFault::BlockNet { model },
        PlanFault::BlockLatch { model } => ComposeFault::BlockLatch { model },
        PlanFault::BlockBind { model } => ComposeFault::BlockBind { model },
        PlanFault::OutOfMemory => ComposeFault::OutOfMemory,
    }
}

/// A word that no feed fits.
pub(crate) fn of_wiring(fault: WiringFault) -> ComposeFault
    ensures { result ≡ fault_of_wiring fault }
{
    match fault {
        WiringFault::NotWords { instance, word } => ComposeFault::NotWords { instance, word },
        WiringFault::OutputNotWords => ComposeFault::OutputNotWords,
        WiringFault::OutOfMemory => ComposeFault::OutOfMemory,
    }
}

// The first point of a cycle.
fn first_point(points: &[u32]) -> u32
    requires { (a : ℕ) × (slice_get points.now 0 ≡ Some a) }
    ensures { slice_get points.now 0 ≡ Some result }
{
    points[0]
}

/// A cycle of instances, where row i is what feeds instance i.
pub(crate) fn of_cycle(_rows: &[Vec<Feeder>], fault: CycleFault) -> ComposeFault
    requires few { length _rows.now < 2 ^ 32 }
    requires cycle { IsCycleFault (feeding_graph (map (λ row. row.items) _rows.now)) (first_numbers (length _rows.now)) fault }
    ensures { MayFault (HasNoCycle (map (λ row. row.items) _rows.now)) result }
{
    match fault {
        CycleFault::Cycle { points } => ComposeFault::InstanceLoop {
            instance: first_point(&points) + 1,
        },
        CycleFault::OutOfMemory => ComposeFault::OutOfMemory,
    }
}

/// A refused stage of an instance.
pub(crate) fn of_stage(fault: ReduceFault) -> ComposeFault
    ensures { result ≡ instance_fault_of fault }
{
    match fault {
        ReduceFault::TooManyTerms { stage, terms } => ComposeFault::TooManyTerms {
            block: None,
            stage,
            terms,
        },
        ReduceFault::OutOfMemory => ComposeFault::OutOfMemory,
    }
}
