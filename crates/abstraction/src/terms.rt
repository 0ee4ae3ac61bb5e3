//! The terms of the polynomial of a circuit's output in the bits of its words.
ghost use Rattle.std.specs.Prelude.{◌≡◌, ◌≤◌, length, map, IfErr, IfOk, OnOk};
ghost use Rattle.net_core.specs.Sound.{IsSound};
ghost use Rattle.net_words.specs.OneCycle.{IsOneCycle};
ghost use Rattle.gf_basis.specs.BasisParts.{elements_of};
ghost use Rattle.circuit_model.specs.Bases.{circuit_in, AreBases};
ghost use Rattle.circuit_model.specs.WellFormed.{IsWellFormed};
ghost use Rattle.stage_model.specs.Listing.{AreAllWithin, IsRefusal};
ghost use Rattle.stage_model.specs.OutputInBits.{IsOutputInBits};
ghost use Rattle.word_subst.specs.WordStages.{IsOfNoWords};
ghost use Rattle.abstraction.specs.Stages.{cut_stages, HasCutPairs, IsLastCut};

use circuit_model::output_basis;
use gf_basis::Basis;
use gf_field::Field;
use net_words::Combinational;
use poly_mixed::{ReduceFault, Steps, Term};
use rato_reduce::reduce_bits;
use std::alloc::Global;

/// The terms of the polynomial of a circuit's output in the bits of its words, in the order of a text, or the first cut of
/// more than `bound` terms. There is one basis of this field for each word of the binding, and each word has k bits. The
/// recorder gets the steps of the elimination.
pub fn bits_terms<F: Field, T: Steps>(
    alloc: Global,
    field: &F,
    circuit: &Combinational,
    bases: &[Basis],
    bound: u32,
    steps: &mut T,
) -> Result<Vec<Term>, ReduceFault>
    requires bits { circuit.now.binding.k ≡ F.degree field.now }
    requires bases { AreBases (F.degree field.now) (F.product field.now) circuit.now bases.now }
    ensures sound { IsSound circuit.now.net }
    ensures is_bound { IsOneCycle circuit.now.net circuit.now.binding }
    ensures well { IsWellFormed (circuit_in (F.degree field.now) (F.product field.now) circuit.now bases.now) }
    ensures last { IfOk result (λ q. IsLastCut (F.degree field.now) (F.product field.now) circuit.now (map elements_of bases.now) q.items) }
    ensures output { IfOk result (λ q. IsOutputInBits (circuit_in (F.degree field.now) (F.product field.now) circuit.now bases.now) q.items) }
    ensures mix { IfOk result (λ q. IsOfNoWords (circuit_in (F.degree field.now) (F.product field.now) circuit.now bases.now) q.items) }
    ensures few { IfOk result (λ q. length q.items ≤ bound) }
    ensures within { OnOk result (AreAllWithin (F.degree field.now) (F.product field.now) (cut_stages circuit.now (map elements_of bases.now)) bound) }
    ensures steps { OnOk result (HasCutPairs (F.degree field.now) (F.product field.now) circuit.now (map elements_of bases.now) (T.steps steps.old) (T.steps steps.new)) }
    ensures fault { IfErr result (IsRefusal (F.degree field.now) (F.product field.now) (cut_stages circuit.now (map elements_of bases.now)) bound) }
{
    let basis = output_basis(circuit.binding(), bases);
    match reduce_bits(alloc, field, circuit, basis, bound, steps) {
        Ok(terms) => Ok(terms),
        Err(fault) => Err(fault),
    }
}
