//! What the stages of a specification are called.
ghost use Rattle.std.specs.Prelude.{◌≡◌};
ghost use Rattle.spec_expand.specs.private.Names.{spec_fault, spec_stage};

use poly_mixed::{ReduceFault, Stage};
use term_expand::{SumFault, SumStage};

// The name of a stage of the sum that a specification is.
fn stage_of(stage: SumStage) -> Stage
    ensures { result ≡ spec_stage stage }
{
    match stage {
        SumStage::TermProduct { term, factor } => Stage::SpecProduct { term, factor },
        SumStage::TermSum { term } => Stage::SpecSum { term },
    }
}

/// The refusal of a specification, by the names of its stages.
pub(crate) fn fault_of(fault: SumFault) -> ReduceFault
    ensures { result ≡ spec_fault fault }
{
    match fault {
        SumFault::TooManyTerms { stage, terms } => ReduceFault::TooManyTerms {
            stage: stage_of(stage),
            terms,
        },
        SumFault::OutOfMemory => ReduceFault::OutOfMemory,
    }
}
