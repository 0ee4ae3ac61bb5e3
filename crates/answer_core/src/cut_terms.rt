//! The terms of the polynomial of a circuit's output in the bits of its words.
ghost use Rattle.std.specs.Prelude.{◌≤◌, length, IfOk, IfErr, OnOk};
ghost use Rattle.net_core.specs.Sound.{IsSound};
ghost use Rattle.net_words.specs.OneCycle.{IsOneCycle};
ghost use Rattle.poly_mixed.specs.Text.{HasNames, HasWordNames};
ghost use Rattle.circuit_model.specs.WellFormed.{IsWellFormed};
ghost use Rattle.stage_model.specs.OutputInBits.{IsOutputInBits};
ghost use Rattle.job_input.specs.Setting.{setting_value, IsReady, IsTakenFor};
ghost use Rattle.job_input.specs.Labelling.{labels_of};
ghost use Rattle.answer_core.specs.Abstraction.{taken_circuit, IsLastCut, IsInNoWords, AreCutsWithin, IsCutRefusal, AreCutsRecorded};

use abstraction::bits_terms;
use gf_field::Field;
use job_input::Setting;
use net_words::Combinational;
use poly_mixed::{ReduceFault, Steps, Term};
use std::alloc::Global;

/// The terms of the polynomial of a circuit's output in the bits of its words, in the order of a text, or the first cut of
/// more than `bound` terms. The recorder gets the steps of the elimination.
pub fn last_terms<F: Field, T: Steps>(
    alloc: Global,
    field: &F,
    setting: &Setting,
    circuit: &Combinational,
    bound: u32,
    steps: &mut T,
) -> Result<Vec<Term>, ReduceFault>
    requires ready { IsReady (F.degree field.now) (F.product field.now) setting.now }
    requires taken { IsTakenFor (F.degree field.now) setting.now circuit.now }
    ensures sound { IsSound circuit.now.net }
    ensures is_bound { IsOneCycle circuit.now.net circuit.now.binding }
    ensures well { IsWellFormed (taken_circuit (setting_value (F.degree field.now) (F.product field.now) setting.now) circuit.now) }
    ensures last { IfOk result (λ terms. IsLastCut (setting_value (F.degree field.now) (F.product field.now) setting.now) circuit.now terms.items) }
    ensures named { IfOk result (λ terms. HasNames (labels_of (F.degree field.now) setting.now.signature.words) terms.items) }
    ensures words_named { IfOk result (λ terms. HasWordNames (labels_of (F.degree field.now) setting.now.signature.words) terms.items) }
    ensures output { IfOk result (λ terms. IsOutputInBits (taken_circuit (setting_value (F.degree field.now) (F.product field.now) setting.now) circuit.now) terms.items) }
    ensures mix { IfOk result (λ terms. IsInNoWords (setting_value (F.degree field.now) (F.product field.now) setting.now) circuit.now terms.items) }
    ensures few { IfOk result (λ terms. length terms.items ≤ bound) }
    ensures within { OnOk result (AreCutsWithin (setting_value (F.degree field.now) (F.product field.now) setting.now) circuit.now bound) }
    ensures steps { OnOk result (AreCutsRecorded (setting_value (F.degree field.now) (F.product field.now) setting.now) circuit.now (T.steps steps.old) (T.steps steps.new)) }
    ensures fault { IfErr result (IsCutRefusal (setting_value (F.degree field.now) (F.product field.now) setting.now) circuit.now bound) }
{
    let bases = setting.bases.as_slice();
    bits_terms(alloc, field, circuit, bases, bound, steps)
}
