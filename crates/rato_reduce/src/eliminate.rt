//! One gate put in place of its output.
ghost use Rattle.std.specs.Prelude.{◌≡◌, [], ◌∷◌, IfOk, OnOk};
ghost use Rattle.std.specs.List.{AllByRecursion};
ghost use Rattle.lists.specs.Lists.{Has};
ghost use Rattle.net_core.specs.Sound.{IsSound};
ghost use Rattle.poly_mixed.specs.Monomial.{text_cmp};
ghost use Rattle.poly_mixed.specs.Polynomial.{IsReduced, IsTerm};
ghost use Rattle.poly_mixed.specs.Product.{with_rank};
ghost use Rattle.poly_mixed.specs.Steps.{Tells};
ghost use Rattle.poly_mixed.specs.Sum.{plus};
ghost use Rattle.poly_mixed.specs.declared.steps.Generator.TheVariants.{Net};
ghost use Rattle.rato_reduce.specs.BoundVariables.{bound_variables, ranks_of_inputs};
ghost use Rattle.rato_reduce.specs.private.CutTerms.{all_products, IsBitTerm};
ghost use Rattle.rato_reduce.specs.GatePoint.{HasGatePutIn, AddsWhereGate};
ghost use Rattle.rato_reduce.specs.Monomials.{monomials};
ghost use Rattle.rato_reduce.specs.Recorded.{IsGateRecorded};

use crate::bit_term::{BitTerm, add_terms};
use crate::cut::Cut;
use crate::first_cut::rank;
use crate::line::put_line;
use crate::monomials::monomials as monomials_of;
use crate::ranks::Ranks;
use gf_field::Field;
use net_core::Gate;
use net_words::Combinational;
use poly_mixed::{Generator, Poly, Steps, exclusive_form};
use std::alloc::{AllocError, Global};

// The ranks of a gate's inputs.
fn input_ranks(alloc: Global, circuit: &Combinational, gate: &Gate) -> Result<Vec<u32>, AllocError>
    requires sound { IsSound circuit.now.net }
    requires gate { Has circuit.now.net.gates gate.now }
    ensures { IfOk result (λ list. list.items ≡ ranks_of_inputs circuit.now gate.now) }
{
    let mut list = Vec::with_capacity(alloc, gate.inputs().len())?;
    for input in gate.inputs() {
        list.push(rank(circuit, *input))?;
    }
    Ok(list)
}

/// The sets of bits of the form of a table at the inputs of a gate.
pub fn input_sets(
    alloc: Global,
    circuit: &Combinational,
    gate: &Gate,
    form: u64,
) -> Result<Vec<Ranks>, AllocError>
    requires sound { IsSound circuit.now.net }
    requires gate { Has circuit.now.net.gates gate.now }
    ensures { IfOk result (λ sets. sets.items ≡ monomials form [] (ranks_of_inputs circuit.now gate.now) 0 1) }
{
    let ranks = input_ranks(alloc, circuit, gate)?;
    monomials_of(alloc, form, &ranks)
}

// Adds the products of each of the terms and of the form of a table of one bit.
fn add_all_lines(cut: &mut Cut, part: &[BitTerm], form: u64, rank: u32) -> Result<(), AllocError>
    requires { AllByRecursion IsBitTerm part.now }
    ensures { OnOk result (cut.new.terms ≡ plus text_cmp cut.old.terms (all_products part.now (monomials form [] (rank ∷ []) 0 1))) }
{
    for term in part {
        cut.add_line(term, form, rank)?;
    }
    Ok(())
}

// Adds the products of each of the terms and of the form of a table of two bits. `both` is the product of these.
fn add_each_pair(
    cut: &mut Cut,
    part: &[BitTerm],
    form: u64,
    first: u32,
    second: u32,
    both: &Ranks,
) -> Result<(), AllocError>
    requires part { AllByRecursion IsBitTerm part.now }
    requires both { both.now ≡ with_rank (first ∷ []) second }
    ensures { OnOk result (cut.new.terms ≡ plus text_cmp cut.old.terms (all_products part.now (monomials form [] (first ∷ second ∷ []) 0 1))) }
{
    for term in part {
        cut.add_pair(term, form, first, second, both)?;
    }
    Ok(())
}

// Adds the products of each of the terms and of the form of a table of two bits.
fn add_all_pairs(
    alloc: Global,
    cut: &mut Cut,
    part: &[BitTerm],
    form: u64,
    first: u32,
    second: u32,
) -> Result<(), AllocError>
    requires { AllByRecursion IsBitTerm part.now }
    ensures { OnOk result (cut.new.terms ≡ plus text_cmp cut.old.terms (all_products part.now (monomials form [] (first ∷ second ∷ []) 0 1))) }
{
    let both = Ranks::of_two(alloc, first, second)?;
    add_each_pair(cut, part, form, first, second, &both)
}

// Adds the products of the terms and of the form of a table at the inputs of a gate. Forms of one bit and of two make no list
// of sets.
fn add_form(
    alloc: Global,
    circuit: &Combinational,
    gate: &Gate,
    form: u64,
    part: &[BitTerm],
    cut: &mut Cut,
) -> Result<(), AllocError>
    requires sound { IsSound circuit.now.net }
    requires gate { Has circuit.now.net.gates gate.now }
    requires part { AllByRecursion IsBitTerm part.now }
    ensures { OnOk result (cut.new.terms ≡ plus text_cmp cut.old.terms (all_products part.now (monomials form [] (ranks_of_inputs circuit.now gate.now) 0 1))) }
{
    let inputs = gate.inputs();
    if inputs.len() == 1 {
        let rank = rank(circuit, inputs[0]);
        return add_all_lines(cut, part, form, rank);
    }
    if inputs.len() == 2 {
        let first = rank(circuit, inputs[0]);
        let second = rank(circuit, inputs[1]);
        return add_all_pairs(alloc, cut, part, form, first, second);
    }
    let sets = input_sets(alloc, circuit, gate, form)?;
    add_all_products(cut, part, &sets)
}

// Adds the products of the terms and of the polynomial of the gate's table.
fn add_table<F: Field>(
    alloc: Global,
    _field: &F,
    circuit: &Combinational,
    gate: &Gate,
    part: &[BitTerm],
    cut: &mut Cut,
) -> Result<(), AllocError>
    requires sound { IsSound circuit.now.net }
    requires gate { Has circuit.now.net.gates gate.now }
    requires part { AllByRecursion IsBitTerm part.now × AllByRecursion (IsTerm (F.degree _field.now)) part.now }
    requires cut { IsReduced (F.degree _field.now) cut.old.terms }
    ensures reduced { OnOk result (IsReduced (F.degree _field.now) cut.new.terms) }
    ensures values { OnOk result (AddsWhereGate (F.degree _field.now) (F.product _field.now) (bound_variables circuit.now) gate.now part.now cut.old.terms cut.new.terms) }
{
    let form = exclusive_form(gate.table());
    add_form(alloc, circuit, gate, form, part, cut)
}

// Adds the products of each of the terms and of each of these sets of bits.
fn add_all_products(cut: &mut Cut, part: &[BitTerm], sets: &[Ranks]) -> Result<(), AllocError>
    requires { AllByRecursion IsBitTerm part.now }
    ensures { OnOk result (cut.new.terms ≡ plus text_cmp cut.old.terms (all_products part.now sets.now)) }
{
    for term in part {
        cut.add_products(term, sets)?;
    }
    Ok(())
}

// Hands the pair of the net and the polynomial of these terms to the recorder, if it tells its steps.
fn tell<T: Steps>(
    alloc: Global,
    net: u32,
    part: &[BitTerm],
    steps: &mut T,
) -> Result<(), AllocError>
    requires { AllByRecursion IsBitTerm part.now }
    ensures { OnOk result (Tells (T.steps steps.old) (T.steps steps.new) ((Net net, plus text_cmp [] part.now) ∷ [])) }
{
    if !steps.tells() {
        return Ok(());
    }
    let mut cofactor = Poly::zero(alloc);
    add_terms(alloc, &mut cofactor, part)?;
    steps.step(Generator::Net(net), &cofactor)
}

// Puts a gate's table in place of its output, and hands the pair of the net and its cofactor to the recorder where the
// net stands in the polynomial. `part` is room for the terms with the net, whatever it holds.
fn put_gate<F: Field, T: Steps>(
    alloc: Global,
    field: &F,
    circuit: &Combinational,
    gate: &Gate,
    cut: &mut Cut,
    part: &mut Vec<BitTerm>,
    steps: &mut T,
) -> Result<(), AllocError>
    requires sound { IsSound circuit.now.net }
    requires gate { Has circuit.now.net.gates gate.now }
    requires cut { IsReduced (F.degree field.now) cut.old.terms }
    ensures reduced { OnOk result (IsReduced (F.degree field.now) cut.new.terms) }
    ensures values { OnOk result (HasGatePutIn (F.degree field.now) (F.product field.now) (bound_variables circuit.now) gate.now cut.old.terms cut.new.terms) }
    ensures steps { OnOk result (IsGateRecorded (F.degree field.now) (bound_variables circuit.now) gate.now cut.old.terms (T.steps steps.old) (T.steps steps.new)) }
{
    let rank = rank(circuit, gate.out());
    cut.take_with(rank, part)?;
    if part.is_empty() {
        return Ok(());
    }
    tell(alloc, gate.out(), part, steps)?;
    add_table(alloc, field, circuit, gate, part, cut)
}

/// Puts a gate's table in place of its output, and hands the pair of the net and its cofactor to the recorder where the
/// net stands in the polynomial. `part` is room for the terms with the net, whatever it holds.
pub fn eliminate<F: Field, T: Steps>(
    alloc: Global,
    field: &F,
    circuit: &Combinational,
    gate: &Gate,
    cut: &mut Cut,
    part: &mut Vec<BitTerm>,
    steps: &mut T,
) -> Result<(), AllocError>
    requires sound { IsSound circuit.now.net }
    requires gate { Has circuit.now.net.gates gate.now }
    requires cut { IsReduced (F.degree field.now) cut.old.terms }
    ensures reduced { OnOk result (IsReduced (F.degree field.now) cut.new.terms) }
    ensures values { OnOk result (HasGatePutIn (F.degree field.now) (F.product field.now) (bound_variables circuit.now) gate.now cut.old.terms cut.new.terms) }
    ensures steps { OnOk result (IsGateRecorded (F.degree field.now) (bound_variables circuit.now) gate.now cut.old.terms (T.steps steps.old) (T.steps steps.new)) }
{
    if steps.tells() {
        return put_gate(alloc, field, circuit, gate, cut, part, steps);
    }
    if put_line(field, circuit, gate, cut) {
        return Ok(());
    }
    put_gate(alloc, field, circuit, gate, cut, part, steps)
}
