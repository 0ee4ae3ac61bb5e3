//! The polynomial of a circuit's output in the bits of its words.
ghost use Rattle.std.specs.Prelude.{◌≤◌, length, IfOk, IfErr, OnOk};
ghost use Rattle.net_core.specs.Sound.{IsSound};
ghost use Rattle.net_words.specs.OneCycle.{IsOneCycle};
ghost use Rattle.poly_mixed.specs.Text.{HasNames, HasWordNames};
ghost use Rattle.circuit_model.specs.WellFormed.{IsWellFormed};
ghost use Rattle.stage_model.specs.OutputInBits.{IsOutputInBits};
ghost use Rattle.job_input.specs.Setting.{setting_value, IsReady, IsTakenFor};
ghost use Rattle.job_input.specs.Labelling.{labels_of};
ghost use Rattle.answer_core.specs.Abstraction.{taken_circuit, IsLastCut, IsInNoWords, AreCutsWithin, IsCutRefusal, AreCutsRecorded};

use abstraction::bits_poly;
use gf_field::Field;
use job_input::Setting;
use net_words::Combinational;
use poly_mixed::{Poly, ReduceFault, Steps};
use std::alloc::Global;

/// The polynomial of a circuit's output in the bits of its words, or the first cut of more than `bound` terms. The recorder
/// gets the steps of the elimination.
pub fn last_cut<F: Field, T: Steps>(
    alloc: Global,
    field: &F,
    setting: &Setting,
    circuit: &Combinational,
    bound: u32,
    steps: &mut T,
) -> Result<Poly, ReduceFault>
    requires ready { IsReady (F.degree field.now) (F.product field.now) setting.now }
    requires taken { IsTakenFor (F.degree field.now) setting.now circuit.now }
    ensures sound { IsSound circuit.now.net }
    ensures is_bound { IsOneCycle circuit.now.net circuit.now.binding }
    ensures well { IsWellFormed (taken_circuit (setting_value (F.degree field.now) (F.product field.now) setting.now) circuit.now) }
    ensures last { IfOk result (λ poly. IsLastCut (setting_value (F.degree field.now) (F.product field.now) setting.now) circuit.now poly.terms) }
    ensures named { IfOk result (λ poly. HasNames (labels_of (F.degree field.now) setting.now.signature.words) poly.terms) }
    ensures words_named { IfOk result (λ poly. HasWordNames (labels_of (F.degree field.now) setting.now.signature.words) poly.terms) }
    ensures output { IfOk result (λ poly. IsOutputInBits (taken_circuit (setting_value (F.degree field.now) (F.product field.now) setting.now) circuit.now) poly.terms) }
    ensures mix { IfOk result (λ poly. IsInNoWords (setting_value (F.degree field.now) (F.product field.now) setting.now) circuit.now poly.terms) }
    ensures few { IfOk result (λ poly. length poly.terms ≤ bound) }
    ensures within { OnOk result (AreCutsWithin (setting_value (F.degree field.now) (F.product field.now) setting.now) circuit.now bound) }
    ensures steps { OnOk result (AreCutsRecorded (setting_value (F.degree field.now) (F.product field.now) setting.now) circuit.now (T.steps steps.old) (T.steps steps.new)) }
    ensures fault { IfErr result (IsCutRefusal (setting_value (F.degree field.now) (F.product field.now) setting.now) circuit.now bound) }
{
    let bases = setting.bases.as_slice();
    bits_poly(alloc, field, circuit, bases, bound, steps)
}
