//! The polynomial of a circuit's output in its words.
ghost use Rattle.std.specs.Prelude.{◌<◌, ◌^◌, length, IfOk, IfErr, OnOk};
ghost use Rattle.net_core.specs.Sound.{IsSound};
ghost use Rattle.net_words.specs.OneCycle.{IsOneCycle};
ghost use Rattle.poly_mixed.specs.Text.{HasNames, HasWordNames};
ghost use Rattle.job_input.specs.Labelling.{labels_of};
ghost use Rattle.job_input.specs.Setting.{setting_value, IsReady, IsTakenFor};
ghost use Rattle.answer_core.specs.Abstraction.{IsInWords, IsInNoWords, AreWordsWithin, IsWordRefusal, AreWordsRecorded};

use abstraction::words_poly;
use gf_field::Field;
use job_input::Setting;
use net_words::Combinational;
use poly_mixed::{Poly, ReduceFault, Steps, Term};
use std::alloc::Global;

/// The polynomial of a circuit's output in its words, out of the terms of that in their bits, or the first stage of words of
/// more than `bound` terms. The recorder gets the steps of the replacement.
pub fn in_words<F: Field, T: Steps>(
    alloc: Global,
    field: &F,
    setting: &Setting,
    circuit: &Combinational,
    bits: Vec<Term>,
    bound: u32,
    steps: &mut T,
) -> Result<Poly, ReduceFault>
    requires ready { IsReady (F.degree field.now) (F.product field.now) setting.now }
    requires taken { IsTakenFor (F.degree field.now) setting.now circuit.now }
    requires sound { IsSound circuit.now.net }
    requires is_bound { IsOneCycle circuit.now.net circuit.now.binding }
    requires bits { IsInNoWords (setting_value (F.degree field.now) (F.product field.now) setting.now) circuit.now bits.items }
    requires few { length bits.items < 2 ^ 32 }
    ensures words { IfOk result (λ poly. IsInWords (setting_value (F.degree field.now) (F.product field.now) setting.now) circuit.now poly.terms) }
    ensures named { IfOk result (λ poly. HasNames (labels_of (F.degree field.now) setting.now.signature.words) poly.terms) }
    ensures words_named { IfOk result (λ poly. HasWordNames (labels_of (F.degree field.now) setting.now.signature.words) poly.terms) }
    ensures within { OnOk result (AreWordsWithin (setting_value (F.degree field.now) (F.product field.now) setting.now) circuit.now bound) }
    ensures steps { OnOk result (AreWordsRecorded (setting_value (F.degree field.now) (F.product field.now) setting.now) circuit.now (T.steps steps.old) (T.steps steps.new)) }
    ensures fault { IfErr result (IsWordRefusal (setting_value (F.degree field.now) (F.product field.now) setting.now) circuit.now bound) }
{
    let bases = setting.bases.as_slice();
    words_poly(alloc, field, circuit, bases, bits, bound, steps)
}
