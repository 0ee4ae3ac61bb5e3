//! Why no output comes where a stage of the second of two netlists is too large.
ghost use Rattle.std.specs.Prelude.{◌≡◌, ◌++◌, codes, string_bytes, IfOk, length};
ghost use Rattle.job_words.specs.StageFault.{HasItsWord};
ghost use Rattle.answer_core.specs.Staged.{second_text};
ghost use Rattle.answer_core.specs.StageStop.{IsNamed, IsStopCalled};

use job_words::{Fault, StageFault, Stop, write_stage};
use net_core::Name;
use poly_mixed::{Labels, ReduceFault, Stage};
use std::alloc::{AllocError, Global};

/// Why no output comes where an engine refuses a stage of the second netlist.
pub(crate) fn second_stage_stop(
    alloc: Global,
    labels: &Labels,
    fault: ReduceFault,
    bound: u32,
) -> Stop
    requires { IsNamed (length labels.now.words) fault }
    ensures { IsStopCalled (second_text labels.now) fault bound result }
{
    match fault {
        ReduceFault::TooManyTerms { stage, terms } => match second_name(alloc, labels, stage) {
            Ok(stage) => Stop::Refused(Fault::Stage(StageFault {
                stage,
                terms,
                bound,
            })),
            Err(_) => Stop::OutOfMemory,
        },
        ReduceFault::OutOfMemory => Stop::OutOfMemory,
    }
}

// What a stage of the second netlist is called.
fn second_name(alloc: Global, labels: &Labels, stage: Stage) -> Result<Name, AllocError>
    requires { HasItsWord (length labels.now.words) stage }
    ensures { IfOk result (λ name. name ≡ second_text labels.now stage) }
{
    let text = write_stage(alloc, labels, stage)?;
    let text = after_second(alloc, text.as_str())?;
    Name::new(alloc, text.as_str())
}

// The text behind `second `.
fn after_second(alloc: Global, text: &str) -> Result<String, AllocError>
    ensures { IfOk result (λ whole. string_bytes whole ≡ codes "second " ++ text.now) }
{
    format!(in alloc; "second {text}")
}
