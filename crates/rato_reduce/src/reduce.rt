//! The elimination of all gates.
ghost use Rattle.std.specs.Prelude.{◌≡◌, ◌<◌, ◌≤◌, [], length, IfOk, IfErr, OnOk};
ghost use Rattle.gf_basis.specs.BasisParts.{elements_of, IsBasisOver};
ghost use Rattle.net_core.specs.Order.{IsElimination};
ghost use Rattle.stage_model.specs.Cut.{BoundCut};
ghost use Rattle.stage_model.specs.CircuitListing.{bound_cuts};
ghost use Rattle.stage_model.specs.Listing.{AreAllWithin, IsRefusal};
ghost use Rattle.stage_model.specs.Stage.{IsOfStage};
ghost use Rattle.rato_reduce.specs.Recorded.{AreAllRecorded};

use crate::bit_term::BitTerm;
use crate::cut::Cut;
use crate::eliminate::eliminate;
use crate::first_cut::{add_output, places};
use crate::in_buckets::reduce_in_buckets;
use crate::stop::Stop;
use gf_basis::Basis;
use gf_field::Field;
use net_core::{Net, order};
use net_words::Combinational;
use poly_mixed::{ReduceFault, Stage, Steps, Term};
use std::alloc::{AllocError, Global};

// The positions of the gates from the greatest level to the least, and within a level from the greatest position to the least.
fn elimination(alloc: Global, net: &Net) -> Result<Vec<u32>, AllocError>
    ensures { IfOk result (λ list. IsElimination net.now list.items) }
{
    let mut list = order(alloc, net)?;
    list.as_mut_slice().reverse();
    Ok(list)
}

// Refuses a cut of more terms than the bound.
fn check_size(cut: &Cut, bound: u32, number: u32) -> Result<(), ReduceFault>
    ensures within { OnOk result (length cut.now.terms ≤ bound) }
    ensures over { IfErr result (λ fault. (fault ≡ ReduceFault.TooManyTerms (Stage.Cut number) (length cut.now.terms)) × (bound < length cut.now.terms)) }
{
    let terms = cut.len() as u64;
    if terms > u64::from(bound) {
        return Err(ReduceFault::TooManyTerms {
            stage: Stage::Cut(number),
            terms,
        });
    }
    Ok(())
}

// The polynomial of the last cut. `cut` is room for each cut, without terms, and `part` for the terms with a net, whatever it holds.
fn eliminate_all<F: Field, T: Steps>(
    alloc: Global,
    field: &F,
    circuit: &Combinational,
    output: &Basis,
    order: &[u32],
    bound: u32,
    cut: &mut Cut,
    part: &mut Vec<BitTerm>,
    steps: &mut T,
) -> Result<Vec<Term>, ReduceFault>
    requires bits { circuit.now.binding.k ≡ F.degree field.now }
    requires basis { IsBasisOver (F.degree field.now) (F.product field.now) output.now }
    requires order { IsElimination circuit.now.net order.now }
    requires nothing { cut.old.terms ≡ [] }
    ensures last { IfOk result (λ q. IsOfStage (F.degree field.now) (F.product field.now) (BoundCut circuit.now (elements_of output.now) (length circuit.now.net.gates)) q.items) }
    ensures within { OnOk result (AreAllWithin (F.degree field.now) (F.product field.now) (bound_cuts circuit.now (elements_of output.now)) bound) }
    ensures fault { IfErr result (IsRefusal (F.degree field.now) (F.product field.now) (bound_cuts circuit.now (elements_of output.now)) bound) }
    ensures steps { OnOk result (AreAllRecorded (F.degree field.now) (F.product field.now) circuit.now (elements_of output.now) (T.steps steps.old) (T.steps steps.new)) }
{
    let net = circuit.net();
    add_output(alloc, field, circuit, output, cut)?;
    check_size(cut, bound, 0)?;
    for t in 0..order.len() {
        let gate = &net.gates()[order[t] as usize];
        eliminate(alloc, field, circuit, gate, cut, part, steps)?;
        check_size(cut, bound, t as u32 + 1)?;
    }
    let terms = cut.to_terms()?;
    Ok(terms)
}

// The polynomial of the last cut, with the terms of each in an ordered map.
fn reduce_in_map<F: Field, T: Steps>(
    alloc: Global,
    field: &F,
    circuit: &Combinational,
    output: &Basis,
    order: &[u32],
    bound: u32,
    steps: &mut T,
) -> Result<Vec<Term>, ReduceFault>
    requires bits { circuit.now.binding.k ≡ F.degree field.now }
    requires basis { IsBasisOver (F.degree field.now) (F.product field.now) output.now }
    requires order { IsElimination circuit.now.net order.now }
    ensures last { IfOk result (λ q. IsOfStage (F.degree field.now) (F.product field.now) (BoundCut circuit.now (elements_of output.now) (length circuit.now.net.gates)) q.items) }
    ensures within { OnOk result (AreAllWithin (F.degree field.now) (F.product field.now) (bound_cuts circuit.now (elements_of output.now)) bound) }
    ensures fault { IfErr result (IsRefusal (F.degree field.now) (F.product field.now) (bound_cuts circuit.now (elements_of output.now)) bound) }
    ensures steps { OnOk result (AreAllRecorded (F.degree field.now) (F.product field.now) circuit.now (elements_of output.now) (T.steps steps.old) (T.steps steps.new)) }
{
    let places = places(alloc, circuit, order)?;
    let mut cut = Cut::zero(alloc, places);
    let mut part = Vec::new(alloc);
    eliminate_all(
        alloc, field, circuit, output, order, bound, &mut cut, &mut part, steps,
    )
}

// The same in buckets, if the recorder does not tell its steps and each cut is seen to be within the bound, and else in a map.
fn reduce_in_order<F: Field, T: Steps>(
    alloc: Global,
    field: &F,
    circuit: &Combinational,
    output: &Basis,
    order: &[u32],
    bound: u32,
    steps: &mut T,
) -> Result<Vec<Term>, ReduceFault>
    requires bits { circuit.now.binding.k ≡ F.degree field.now }
    requires basis { IsBasisOver (F.degree field.now) (F.product field.now) output.now }
    requires order { IsElimination circuit.now.net order.now }
    ensures last { IfOk result (λ q. IsOfStage (F.degree field.now) (F.product field.now) (BoundCut circuit.now (elements_of output.now) (length circuit.now.net.gates)) q.items) }
    ensures within { OnOk result (AreAllWithin (F.degree field.now) (F.product field.now) (bound_cuts circuit.now (elements_of output.now)) bound) }
    ensures fault { IfErr result (IsRefusal (F.degree field.now) (F.product field.now) (bound_cuts circuit.now (elements_of output.now)) bound) }
    ensures steps { OnOk result (AreAllRecorded (F.degree field.now) (F.product field.now) circuit.now (elements_of output.now) (T.steps steps.old) (T.steps steps.new)) }
{
    if !steps.tells() {
        match reduce_in_buckets(alloc, field, circuit, output, order, bound) {
            Ok(terms) => return Ok(terms),
            Err(Stop::OutOfMemory) => return Err(ReduceFault::OutOfMemory),
            Err(Stop::GivesUp) => {}
        }
    }
    reduce_in_map(alloc, field, circuit, output, order, bound, steps)
}

/// The polynomial of the output word's element in the bits of the primary inputs: the terms of the last cut, in the order of
/// a text.
///
/// The gates are eliminated one by one, from the greatest level to the least and within a level from the greatest position
/// to the least (Lv, Kalla, Enescu, IEEE TCAD 2013, in an order of this project's own). `output` is the basis of the
/// output word, a basis of this field, and each word has k bits. For each gate whose output stands in the polynomial the
/// recorder gets one pair: the net, and the terms with it, without it. `TooManyTerms` comes exactly at the first cut of
/// more than `bound` terms, with that number. Where the recorder does not tell its steps, terms in buckets are tried first,
/// which are faster and say only that no cut is over the bound.
pub fn reduce_bits<F: Field, T: Steps>(
    alloc: Global,
    field: &F,
    circuit: &Combinational,
    output: &Basis,
    bound: u32,
    steps: &mut T,
) -> Result<Vec<Term>, ReduceFault>
    requires bits { circuit.now.binding.k ≡ F.degree field.now }
    requires basis { IsBasisOver (F.degree field.now) (F.product field.now) output.now }
    ensures last { IfOk result (λ q. IsOfStage (F.degree field.now) (F.product field.now) (BoundCut circuit.now (elements_of output.now) (length circuit.now.net.gates)) q.items) }
    ensures within { OnOk result (AreAllWithin (F.degree field.now) (F.product field.now) (bound_cuts circuit.now (elements_of output.now)) bound) }
    ensures fault { IfErr result (IsRefusal (F.degree field.now) (F.product field.now) (bound_cuts circuit.now (elements_of output.now)) bound) }
    ensures steps { OnOk result (AreAllRecorded (F.degree field.now) (F.product field.now) circuit.now (elements_of output.now) (T.steps steps.old) (T.steps steps.new)) }
{
    let net = circuit.net();
    let order = elimination(alloc, net)?;
    reduce_in_order(alloc, field, circuit, output, &order, bound, steps)
}
