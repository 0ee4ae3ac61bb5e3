//! The polynomial of a circuit's output in its words.
ghost use Rattle.std.specs.Prelude.{◌≡◌, ◌<◌, ◌^◌, length, IfErr, IfOk, OnOk};
ghost use Rattle.circuit_model.specs.Bases.{circuit_in, AreBases};
ghost use Rattle.stage_model.specs.OutputInWords.{IsOutputInWords};
ghost use Rattle.word_subst.specs.Recorded.{IsRecorded};
ghost use Rattle.word_subst.specs.WordStages.{IsOfNoWords, IsOfAllWords, AreWordStagesWithin, IsWordStageRefusal};

use gf_basis::Basis;
use gf_field::Field;
use net_words::Combinational;
use poly_mixed::{Poly, ReduceFault, Steps, Term};
use std::alloc::Global;
use word_subst::to_words;

/// The polynomial of a circuit's output in its words, out of the terms of that in their bits, or the first stage of words of
/// more than `bound` terms. There is one basis of this field for each word of the binding, and each word has k bits. The
/// recorder gets the steps of the replacement.
pub fn words_poly<F: Field, T: Steps>(
    alloc: Global,
    field: &F,
    circuit: &Combinational,
    bases: &[Basis],
    bits: Vec<Term>,
    bound: u32,
    steps: &mut T,
) -> Result<Poly, ReduceFault>
    requires k { circuit.now.binding.k ≡ F.degree field.now }
    requires bases { AreBases (F.degree field.now) (F.product field.now) circuit.now bases.now }
    requires bits { IsOfNoWords (circuit_in (F.degree field.now) (F.product field.now) circuit.now bases.now) bits.items }
    requires few { length bits.items < 2 ^ 32 }
    ensures words { IfOk result (λ q. IsOfAllWords (circuit_in (F.degree field.now) (F.product field.now) circuit.now bases.now) q.terms) }
    ensures output { IfOk result (λ q. IsOutputInWords (circuit_in (F.degree field.now) (F.product field.now) circuit.now bases.now) q.terms) }
    ensures within { OnOk result (AreWordStagesWithin (circuit_in (F.degree field.now) (F.product field.now) circuit.now bases.now) bound) }
    ensures steps { OnOk result (IsRecorded (circuit_in (F.degree field.now) (F.product field.now) circuit.now bases.now) (T.steps steps.old) (T.steps steps.new)) }
    ensures fault { IfErr result (IsWordStageRefusal (circuit_in (F.degree field.now) (F.product field.now) circuit.now bases.now) bound) }
{
    let _netlist = circuit.binding();
    match to_words(alloc, field, circuit, bases, bits, bound, steps) {
        Ok(poly) => Ok(poly),
        Err(fault) => Err(fault),
    }
}
