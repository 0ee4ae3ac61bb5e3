//! A circuit's output beside a specification of it.
ghost use Rattle.std.specs.Prelude.{◌≡◌, length};
ghost use Rattle.outcome.specs.Outcome.{Within};
ghost use Rattle.circuit_model.specs.WellFormed.{IsWellFormed};
ghost use Rattle.stage_model.specs.OutputInBits.{IsOutputInBits};
ghost use Rattle.spec_expand.specs.Specification.{IsOverWords};
ghost use Rattle.job_words.specs.declared.fault.Fault.TheVariants.{Stage};
ghost use Rattle.job_input.specs.Labelling.{labels_of};
ghost use Rattle.job_input.specs.Setting.{setting_value, IsReady, IsTakenFor};
ghost use Rattle.answer_core.specs.Abstraction.{taken_circuit};
ghost use Rattle.answer_core.specs.Judged.{JudgedOf};
ghost use Rattle.answer_core.specs.Replies.{ComparesAlone};

use crate::stages::stage_stop;
use gf_field::Field;
use job_input::Setting;
use job_words::Stop;
use net_words::Combinational;
use poly_mixed::{Labels, Poly};
use spec_compare::{Verdict, compare};
use spec_expand::{Spec, expand};
use std::alloc::Global;

/// The verdict on the output and the specification, or the first stage of the specification of more than `bound` terms.
pub fn verdict<F: Field>(
    alloc: Global,
    field: &F,
    setting: &Setting,
    labels: &Labels,
    circuit: &Combinational,
    spec: &Spec,
    bits: &Poly,
    bound: u32,
) -> Result<Verdict, Stop>
    requires ready { IsReady (F.degree field.now) (F.product field.now) setting.now }
    requires taken { IsTakenFor (F.degree field.now) setting.now circuit.now }
    requires labels { labels.now ≡ labels_of (F.degree field.now) setting.now.signature.words }
    requires spec { IsOverWords (F.degree field.now) (length labels.now.words) spec.now }
    requires well { IsWellFormed (taken_circuit (setting_value (F.degree field.now) (F.product field.now) setting.now) circuit.now) }
    requires output { IsOutputInBits (taken_circuit (setting_value (F.degree field.now) (F.product field.now) setting.now) circuit.now) bits.now.terms }
    ensures { ComparesAlone labels.now result (Within Stage (JudgedOf (setting_value (F.degree field.now) (F.product field.now) setting.now) circuit.now spec.now bound)) }
{
    let bases = setting.bases.as_slice();
    let expansion = match expand(alloc, field, spec, circuit, bases, bound) {
        Ok(expansion) => expansion,
        Err(fault) => return Err(stage_stop(alloc, labels, fault, bound)),
    };
    let verdict = compare(alloc, field, circuit, bases, bits, &expansion)?;
    Ok(verdict)
}
