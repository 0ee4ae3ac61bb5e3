//! What the stages of an instance are called.
ghost use Rattle.std.specs.Prelude.{◌≡◌};
ghost use Rattle.compose_polys.specs.private.Names.{instance_fault, instance_stage};

use poly_mixed::{ReduceFault, Stage};
use term_expand::{SumFault, SumStage};

// The name of a stage of the sum that a block's polynomial is, at the feeds of an instance.
fn stage_of(instance: u32, stage: SumStage) -> Stage
    ensures { result ≡ instance_stage instance stage }
{
    match stage {
        SumStage::TermProduct { term, factor } => Stage::InstanceProduct {
            instance,
            term,
            factor,
        },
        SumStage::TermSum { term } => Stage::InstanceSum { instance, term },
    }
}

/// The refusal of an instance, by the names of its stages.
pub(crate) fn fault_of(instance: u32, fault: SumFault) -> ReduceFault
    ensures { result ≡ instance_fault instance fault }
{
    match fault {
        SumFault::TooManyTerms { stage, terms } => ReduceFault::TooManyTerms {
            stage: stage_of(instance, stage),
            terms,
        },
        SumFault::OutOfMemory => ReduceFault::OutOfMemory,
    }
}
