//! The elimination of all gates with terms in buckets, where no recorder asks for its steps.
ghost use Rattle.std.specs.Prelude.{◌≡◌, ◌<◌, ◌≤◌, ℕ, [], length, None, IfOk, OnOk};
ghost use Rattle.std.specs.List.{AllByRecursion};
ghost use Rattle.gf_basis.specs.BasisParts.{elements_of, IsBasisOver};
ghost use Rattle.lists.specs.Lists.{Has};
ghost use Rattle.net_core.specs.NetList.{nets};
ghost use Rattle.net_core.specs.Order.{IsElimination};
ghost use Rattle.net_core.specs.Sound.{IsSound};
ghost use Rattle.poly_mixed.specs.Polynomial.{IsElement, IsPolynomialOf, IsReduced};
ghost use Rattle.stage_model.specs.Cut.{BoundCut};
ghost use Rattle.stage_model.specs.CircuitListing.{bound_cuts};
ghost use Rattle.stage_model.specs.Listing.{AreAllWithin};
ghost use Rattle.stage_model.specs.Stage.{IsOfStage};
ghost use Rattle.rato_reduce.specs.BoundVariables.{bound_variables, ranks_of_inputs, sum_of_ones, AddsWhereBit};
ghost use Rattle.rato_reduce.specs.GatePoint.{HasGatePutIn};
ghost use Rattle.rato_reduce.specs.Monomials.{monomials};
ghost use Rattle.rato_reduce.specs.Recorded.{AreAllRecorded};
ghost use Rattle.rato_reduce.specs.private.CutTerms.{ArePutIn, IsBitTerm};
ghost use Rattle.rato_reduce.specs.private.FirstCut.{IsFirstCut};

use crate::bucket::Bucket;
use crate::buckets::Buckets;
use crate::eliminate::input_sets;
use crate::first_cut::{places, rank};
use crate::pair::pair_at;
use crate::products::{add_all_products, add_rows};
use crate::row::hash_of;
use crate::stop::Stop;
use circuit_model::output_nets;
use gf_basis::Basis;
use gf_field::Field;
use net_core::Gate;
use net_words::Combinational;
use poly_mixed::{Term, exclusive_form};
use std::alloc::{AllocError, Global};

// An output word of fewer bits is not worth the lists.
const FEW: u32 = 2;

// Adds the products of the terms without a bit, which each has to have, and of the form of a table at the inputs of a gate. For
// one input or two no list of sets is made.
fn add_form(
    alloc: Global,
    circuit: &Combinational,
    gate: &Gate,
    form: u64,
    rank: u32,
    part: &Bucket,
    cut: &mut Buckets,
) -> Result<(), Stop>
    requires sound { IsSound circuit.now.net }
    requires gate { Has circuit.now.net.gates gate.now }
    requires part { AllByRecursion IsBitTerm part.now }
    ensures { OnOk result (ArePutIn rank part.now (monomials form [] (ranks_of_inputs circuit.now gate.now) 0 1) cut.old.terms cut.new.terms) }
{
    if part.len() == 0 {
        return Ok(());
    }
    let (ranks, rows) = part.parts();
    if let Some(pair) = pair_at(cut, circuit, gate, form) {
        return add_rows(cut, ranks, rows, rank, &pair);
    }
    let sets = input_sets(alloc, circuit, gate, form)?;
    add_all_products(cut, ranks, rows, rank, &sets)
}

// Puts a gate's table in place of its output. `part` is room for the terms with the net, whatever it holds.
fn put_gate<F: Field>(
    alloc: Global,
    _field: &F,
    circuit: &Combinational,
    gate: &Gate,
    cut: &mut Buckets,
    part: &mut Bucket,
) -> Result<(), Stop>
    requires sound { IsSound circuit.now.net }
    requires gate { Has circuit.now.net.gates gate.now }
    requires cut { IsReduced (F.degree _field.now) cut.old.terms }
    ensures reduced { OnOk result (IsReduced (F.degree _field.now) cut.new.terms) }
    ensures values { OnOk result (HasGatePutIn (F.degree _field.now) (F.product _field.now) (bound_variables circuit.now) gate.now cut.old.terms cut.new.terms) }
{
    let rank = rank(circuit, gate.out());
    cut.take_list(rank, part)?;
    let form = exclusive_form(gate.table());
    add_form(alloc, circuit, gate, form, rank, part, cut)?;
    Ok(())
}

// Adds an element times a bit.
fn put_bit<F: Field>(
    _field: &F,
    sum: &mut Buckets,
    element: u64,
    rank: u32,
) -> Result<(), AllocError>
    requires element { IsElement (F.degree _field.now) element }
    requires sum { IsReduced (F.degree _field.now) sum.old.terms }
    ensures reduced { OnOk result (IsReduced (F.degree _field.now) sum.new.terms) }
    ensures values { OnOk result (AddsWhereBit (F.degree _field.now) (F.product _field.now) rank element sum.old.terms sum.new.terms) }
{
    if element == 0 {
        return Ok(());
    }
    sum.add(&[rank], hash_of(rank), element)
}

// Adds the basis elements of the bits of these nets, all nets being free, to a sum without terms.
fn put_bits<F: Field>(
    field: &F,
    circuit: &Combinational,
    basis: &Basis,
    list: &[u32],
    sum: &mut Buckets,
) -> Result<(), AllocError>
    requires nothing { sum.old.terms ≡ [] }
    requires basis { IsBasisOver (F.degree field.now) (F.product field.now) basis.now }
    requires long { length list.now ≡ F.degree field.now }
    requires inside { (n : ℕ) → Has list.now n → n < nets circuit.now.net }
    ensures { OnOk result (IsPolynomialOf (F.degree field.now) (F.product field.now) (sum_of_ones circuit.now (elements_of basis.now) list.now) sum.new.terms) }
{
    for place in 0..list.len() {
        let rank = rank(circuit, list[place]);
        put_bit(field, sum, basis.element(place as u32), rank)?;
    }
    Ok(())
}

// Adds the output word's element in the bits of its nets, all nets being free, to a sum without terms.
fn put_output<F: Field>(
    alloc: Global,
    field: &F,
    circuit: &Combinational,
    output: &Basis,
    cut: &mut Buckets,
) -> Result<(), AllocError>
    requires bits { circuit.now.binding.k ≡ F.degree field.now }
    requires basis { IsBasisOver (F.degree field.now) (F.product field.now) output.now }
    requires nothing { cut.old.terms ≡ [] }
    ensures { OnOk result (IsFirstCut (F.degree field.now) (F.product field.now) circuit.now (elements_of output.now) cut.new.terms) }
{
    let list = output_nets(alloc, circuit.binding())?;
    put_bits(field, circuit, output, &list, cut)
}

// Ends unless it is seen that there are at most so many terms.
fn check_size(cut: &mut Buckets, bound: u32) -> Result<(), Stop>
    ensures same { OnOk result (cut.new.terms ≡ cut.old.terms) }
    ensures within { OnOk result (length cut.new.terms ≤ bound) }
{
    cut.merge(bound)?;
    if !cut.is_within(bound) {
        return Err(Stop::GivesUp);
    }
    Ok(())
}

// The polynomial of the last cut, if it is seen that no cut has more terms than the bound. `cut` is room for each cut, without
// terms, and `part` for the terms with a net, whatever it holds.
fn put_all<F: Field>(
    alloc: Global,
    field: &F,
    circuit: &Combinational,
    output: &Basis,
    order: &[u32],
    bound: u32,
    cut: &mut Buckets,
    part: &mut Bucket,
) -> Result<Vec<Term>, Stop>
    requires bits { circuit.now.binding.k ≡ F.degree field.now }
    requires basis { IsBasisOver (F.degree field.now) (F.product field.now) output.now }
    requires order { IsElimination circuit.now.net order.now }
    requires nothing { cut.old.terms ≡ [] }
    ensures last { IfOk result (λ q. IsOfStage (F.degree field.now) (F.product field.now) (BoundCut circuit.now (elements_of output.now) (length circuit.now.net.gates)) q.items) }
    ensures within { OnOk result (AreAllWithin (F.degree field.now) (F.product field.now) (bound_cuts circuit.now (elements_of output.now)) bound) }
    ensures steps { OnOk result (AreAllRecorded (F.degree field.now) (F.product field.now) circuit.now (elements_of output.now) None None) }
{
    let net = circuit.net();
    put_output(alloc, field, circuit, output, cut)?;
    check_size(cut, bound)?;
    for t in 0..order.len() {
        let gate = &net.gates()[order[t] as usize];
        put_gate(alloc, field, circuit, gate, cut, part)?;
        check_size(cut, bound)?;
    }
    // Most equal terms are added up at a lower cost where they stand than once they are sorted.
    cut.merge(0)?;
    let terms = cut.to_terms()?;
    Ok(terms)
}

/// The polynomial of the last cut, if the output word has more than one bit, and it is seen that no cut has more terms than the
/// bound. No steps are told.
pub fn reduce_in_buckets<F: Field>(
    alloc: Global,
    field: &F,
    circuit: &Combinational,
    output: &Basis,
    order: &[u32],
    bound: u32,
) -> Result<Vec<Term>, Stop>
    requires bits { circuit.now.binding.k ≡ F.degree field.now }
    requires basis { IsBasisOver (F.degree field.now) (F.product field.now) output.now }
    requires order { IsElimination circuit.now.net order.now }
    ensures last { IfOk result (λ q. IsOfStage (F.degree field.now) (F.product field.now) (BoundCut circuit.now (elements_of output.now) (length circuit.now.net.gates)) q.items) }
    ensures within { OnOk result (AreAllWithin (F.degree field.now) (F.product field.now) (bound_cuts circuit.now (elements_of output.now)) bound) }
    ensures steps { OnOk result (AreAllRecorded (F.degree field.now) (F.product field.now) circuit.now (elements_of output.now) None None) }
{
    if circuit.binding().k() < FEW {
        return Err(Stop::GivesUp);
    }
    let places = places(alloc, circuit, order)?;
    let mut cut = Buckets::new(alloc, places);
    let mut part = Bucket::new(alloc);
    put_all(
        alloc, field, circuit, output, order, bound, &mut cut, &mut part,
    )
}
