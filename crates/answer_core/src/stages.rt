//! Why no output comes where a stage is too large.
ghost use Rattle.std.specs.Prelude.{◌≡◌, IfOk, length};
ghost use Rattle.job_words.specs.StageFault.{stage_text, HasItsWord};
ghost use Rattle.answer_core.specs.StageStop.{IsNamed, IsStageStop};

use job_words::{Fault, StageFault, Stop, write_stage};
use net_core::Name;
use poly_mixed::{Labels, ReduceFault, Stage};
use std::alloc::{AllocError, Global};

/// Why no output comes where an engine refuses.
pub fn stage_stop(alloc: Global, labels: &Labels, fault: ReduceFault, bound: u32) -> Stop
    requires { IsNamed (length labels.now.words) fault }
    ensures { IsStageStop labels.now fault bound result }
{
    match fault {
        ReduceFault::TooManyTerms { stage, terms } => match stage_name(alloc, labels, stage) {
            Ok(stage) => Stop::Refused(Fault::Stage(StageFault {
                stage,
                terms,
                bound,
            })),
            Err(_) => Stop::OutOfMemory,
        },
        ReduceFault::OutOfMemory => Stop::OutOfMemory,
    }
}

// What a stage is called.
fn stage_name(alloc: Global, labels: &Labels, stage: Stage) -> Result<Name, AllocError>
    requires { HasItsWord (length labels.now.words) stage }
    ensures { IfOk result (λ name. name ≡ stage_text labels.now stage) }
{
    let text = write_stage(alloc, labels, stage)?;
    Name::new(alloc, text.as_str())
}
