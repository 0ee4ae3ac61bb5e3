//! The output word as a polynomial in the bits of its nets.
ghost use Rattle.std.specs.Prelude.{◌≡◌, ◌<◌, ℕ, [], length, OnOk};
ghost use Rattle.lists.specs.Lists.{Has};
ghost use Rattle.gf_basis.specs.BasisParts.{elements_of, IsBasisOver};
ghost use Rattle.net_core.specs.NetList.{nets};
ghost use Rattle.net_core.specs.Order.{IsElimination};
ghost use Rattle.poly_mixed.specs.Polynomial.{IsElement, IsPolynomialOf, IsReduced};
ghost use Rattle.stage_model.specs.Variables.{rank_in};
ghost use Rattle.rato_reduce.specs.BoundVariables.{bound_variables, sum_of_ones, AddsWhereBit};
ghost use Rattle.rato_reduce.specs.private.FirstCut.{IsFirstCut};

use crate::cut::Cut;
use crate::ranks::Ranks;
use circuit_model::output_nets;
use gf_basis::Basis;
use gf_field::Field;
use net_words::Combinational;
use std::alloc::{AllocError, Global};

/// The place of a net among the variables.
pub fn rank(circuit: &Combinational, net: u32) -> u32
    requires { net < nets circuit.now.net }
    ensures { result ≡ rank_in (bound_variables circuit.now) net }
{
    circuit.rank_of(net)
}

/// The places of the outputs of gates in the order of elimination, by rank; what is no gate's output comes after them.
pub fn places(alloc: Global, circuit: &Combinational, order: &[u32]) -> Result<Vec<u32>, AllocError>
    requires { IsElimination circuit.now.net order.now }
{
    let net = circuit.net();
    let gates = net.gates();
    let mut places = vec![in alloc; u32::MAX; net.nets() as usize]?;
    for t in 0..order.len() {
        let rank = rank(circuit, gates[order[t] as usize].out());
        if let Some(place) = places.get_mut(rank as usize) {
            *place = t as u32;
        }
    }
    Ok(places)
}

// Adds an element times a bit.
fn add_bit<F: Field>(
    alloc: Global,
    _field: &F,
    cut: &mut Cut,
    element: u64,
    rank: u32,
) -> Result<(), AllocError>
    requires element { IsElement (F.degree _field.now) element }
    requires cut { IsReduced (F.degree _field.now) cut.old.terms }
    ensures reduced { OnOk result (IsReduced (F.degree _field.now) cut.new.terms) }
    ensures values { OnOk result (AddsWhereBit (F.degree _field.now) (F.product _field.now) rank element cut.old.terms cut.new.terms) }
{
    if element == 0 {
        return Ok(());
    }
    let bits = Ranks::none(alloc).with(rank)?;
    cut.add(bits, element)
}

// Adds the basis elements of the bits of these nets, all nets being free, to a cut without terms.
fn first_cut<F: Field>(
    alloc: Global,
    field: &F,
    circuit: &Combinational,
    basis: &Basis,
    list: &[u32],
    sum: &mut Cut,
) -> Result<(), AllocError>
    requires nothing { sum.old.terms ≡ [] }
    requires basis { IsBasisOver (F.degree field.now) (F.product field.now) basis.now }
    requires long { length list.now ≡ F.degree field.now }
    requires inside { (n : ℕ) → Has list.now n → n < nets circuit.now.net }
    ensures { OnOk result (IsPolynomialOf (F.degree field.now) (F.product field.now) (sum_of_ones circuit.now (elements_of basis.now) list.now) sum.new.terms) }
{
    for place in 0..list.len() {
        let rank = rank(circuit, list[place]);
        add_bit(alloc, field, sum, basis.element(place as u32), rank)?;
    }
    Ok(())
}

/// Adds the output word's element in the bits of its nets, all nets being free, to a cut without terms.
pub fn add_output<F: Field>(
    alloc: Global,
    field: &F,
    circuit: &Combinational,
    output: &Basis,
    cut: &mut Cut,
) -> Result<(), AllocError>
    requires bits { circuit.now.binding.k ≡ F.degree field.now }
    requires basis { IsBasisOver (F.degree field.now) (F.product field.now) output.now }
    requires nothing { cut.old.terms ≡ [] }
    ensures { OnOk result (IsFirstCut (F.degree field.now) (F.product field.now) circuit.now (elements_of output.now) cut.new.terms) }
{
    let list = output_nets(alloc, circuit.binding())?;
    first_cut(alloc, field, circuit, output, &list, cut)
}
