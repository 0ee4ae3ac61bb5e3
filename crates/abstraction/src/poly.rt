//! The polynomial of a circuit in its words.
ghost use Rattle.std.specs.Prelude.{◌≡◌, IfErr, IfOk, OnOk};
ghost use Rattle.circuit_model.specs.Bases.{circuit_in, AreBases};
ghost use Rattle.stage_model.specs.Listing.{AreAllWithin};
ghost use Rattle.stage_model.specs.OutputInWords.{IsOutputInWords};
ghost use Rattle.abstraction.specs.Stages.{stages_in, IsFirstRefusal};

use crate::terms::bits_terms;
use crate::words::words_poly;
use gf_basis::Basis;
use gf_field::Field;
use net_words::Combinational;
use poly_mixed::{NoSteps, Poly, ReduceFault};
use std::alloc::Global;

/// The polynomial in words of a circuit's output, or the first of its stages over the bound: its cuts come first, and then
/// the stages of its words. There is one basis of this field for each word of the binding, and each word has k bits.
pub fn circuit_poly<F: Field>(
    alloc: Global,
    field: &F,
    circuit: &Combinational,
    bases: &[Basis],
    bound: u32,
) -> Result<Poly, ReduceFault>
    requires bits { circuit.now.binding.k ≡ F.degree field.now }
    requires bases { AreBases (F.degree field.now) (F.product field.now) circuit.now bases.now }
    ensures output { IfOk result (λ q. IsOutputInWords (circuit_in (F.degree field.now) (F.product field.now) circuit.now bases.now) q.terms) }
    ensures within { OnOk result (AreAllWithin (F.degree field.now) (F.product field.now) (stages_in (F.degree field.now) (F.product field.now) circuit.now bases.now) bound) }
    ensures fault { IfErr result (IsFirstRefusal (F.degree field.now) (F.product field.now) (stages_in (F.degree field.now) (F.product field.now) circuit.now bases.now) bound) }
{
    let bits = match bits_terms(alloc, field, circuit, bases, bound, &mut NoSteps) {
        Ok(bits) => bits,
        Err(fault) => return Err(fault),
    };
    match words_poly(alloc, field, circuit, bases, bits, bound, &mut NoSteps) {
        Ok(poly) => Ok(poly),
        Err(fault) => Err(fault),
    }
}
