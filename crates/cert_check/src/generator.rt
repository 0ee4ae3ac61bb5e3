//! Generators as sums of monomials and a form.
ghost use Rattle.std.specs.Prelude.{◌≡◌, ◌<◌, length, map, option_map, IfOk, IfSome, OnOk};
ghost use Rattle.lists.specs.Lists.{Has};
ghost use Rattle.net_core.specs.NetList.{nets};
ghost use Rattle.net_core.specs.Sound.{IsSound};
ghost use Rattle.poly_mixed.specs.declared.steps.Generator.TheVariants.{Net as OfNet, Bit as OfBit};
ghost use Rattle.circuit_model.specs.Bases.{AreBases};
ghost use Rattle.cert_check.specs.Driver.{driver as driver_of};
ghost use Rattle.cert_check.specs.Running.{rank_among, bit_value, dual_words};
ghost use Rattle.cert_check.specs.private.Reading.{AreDrivers};
ghost use Rattle.cert_check.specs.private.Units.{AddsValue, AreTerms, IsSumOf};
ghost use Rattle.cert_check.specs.private.Generators.{driver_value, gate_value, ranked, IsSplitOf};
ghost use Rattle.cert_check.specs.private.Kept.{IsGeneratorOf};

use crate::form::Form;
use crate::mono_sum::MonoSum;
use crate::subsets::add_table;
use gf_basis::Basis;
use gf_field::Field;
use net_core::{Gate, Net};
use net_words::Combinational;
use poly_mixed::{Generator, Mono};
use smallvec::SmallVec;
use std::alloc::{AllocError, Global};

/// The place of a net among the variables.
pub(crate) fn rank(circuit: &Combinational, net: u32) -> u32
    requires { net < nets circuit.now.net }
    ensures { result ≡ rank_among (ranked circuit.now) net }
{
    circuit.rank_of(net)
}

// The ranks of a gate's inputs.
fn input_ranks(
    alloc: Global,
    circuit: &Combinational,
    gate: &Gate,
) -> Result<SmallVec<u32, 6>, AllocError>
    requires sound { IsSound circuit.now.net }
    requires gate { Has circuit.now.net.gates gate.now }
    ensures { IfOk result (λ list. list.items ≡ map (rank_among (ranked circuit.now)) gate.now.inputs) }
{
    let mut list = SmallVec::new(alloc);
    for input in gate.inputs() {
        list.push(rank(circuit, *input))?;
    }
    Ok(list)
}

// Adds the monomials of a gate's table over its inputs.
fn add_gate<F: Field>(
    alloc: Global,
    field: &F,
    circuit: &Combinational,
    gate: &Gate,
    sum: &mut MonoSum,
) -> Result<(), AllocError>
    requires sound { IsSound circuit.now.net }
    requires gate { Has circuit.now.net.gates gate.now }
    requires sum { AreTerms (F.degree field.now) sum.old.terms }
    ensures terms { OnOk result (AreTerms (F.degree field.now) sum.new.terms) }
    ensures values { OnOk result (AddsValue (F.degree field.now) (F.product field.now) (gate_value circuit.now gate.now) sum.old.terms sum.new.terms) }
{
    let ranks = input_ranks(alloc, circuit, gate)?;
    add_table(alloc, field, ranks.as_slice(), gate.table(), sum)
}

// The gate that drives a net.
fn driver<'a>(net: &'a Net, drivers: &[Option<u32>], n: u32) -> Option<&'a Gate>
    requires net { n < nets net.now }
    requires drivers { AreDrivers net.now drivers.now }
    ensures gate { option_map (λ g. g.now) result ≡ driver_of net.now n }
    ensures among { IfSome result (λ g. Has net.now.gates g.now) }
{
    match drivers[n as usize] {
        Some(position) => net.gates().get(position as usize),
        None => None,
    }
}

// Adds what the gate that drives a net makes of its inputs.
fn add_driven<F: Field>(
    alloc: Global,
    field: &F,
    circuit: &Combinational,
    drivers: &[Option<u32>],
    n: u32,
    sum: &mut MonoSum,
) -> Result<(), AllocError>
    requires net { n < nets circuit.now.net }
    requires drivers { AreDrivers circuit.now.net drivers.now }
    requires sum { AreTerms (F.degree field.now) sum.old.terms }
    ensures terms { OnOk result (AreTerms (F.degree field.now) sum.new.terms) }
    ensures values { OnOk result (AddsValue (F.degree field.now) (F.product field.now) (driver_value circuit.now n) sum.old.terms sum.new.terms) }
{
    match driver(circuit.net(), drivers, n) {
        Some(gate) => add_gate(alloc, field, circuit, gate, sum),
        None => Ok(()),
    }
}

// The bit of a rank.
fn bit_sum<F: Field>(alloc: Global, _field: &F, rank: u32) -> Result<MonoSum, AllocError>
    ensures { IfOk result (λ s. IsSumOf (F.degree _field.now) (F.product _field.now) (λ p. bit_value (p.is_one rank)) s.terms) }
{
    let mono = Mono::new(alloc, &[rank], &[0; 8])?;
    let mut sum = MonoSum::zero(alloc);
    sum.push(mono)?;
    Ok(sum)
}

/// Monomials and a form, whose sum is a generator.
#[derive(Drop)]
pub(crate) struct Split {
    pub(crate) near: MonoSum,
    pub(crate) form: Option<Form>,
}

// A bit of a word, and the linear form that reads it from the word.
fn bit_split<F: Field>(
    alloc: Global,
    field: &F,
    _circuit: &Combinational,
    _bases: &[Basis],
    word: u32,
    place: u32,
) -> Result<Split, AllocError>
    requires word { word < 8 }
    requires known { word < length (dual_words _circuit.now _bases.now) }
    requires place { place < F.degree field.now }
    ensures { IfOk result (IsSplitOf (F.degree field.now) (F.product field.now) _circuit.now _bases.now (OfBit word place)) }
{
    let near = bit_sum(alloc, field, field.k() * word + place)?;
    Ok(Split {
        near,
        form: Some(Form { word, place }),
    })
}

// A net plus what its gate makes of its inputs.
fn net_split<F: Field>(
    alloc: Global,
    field: &F,
    circuit: &Combinational,
    bases: &[Basis],
    drivers: &[Option<u32>],
    n: u32,
) -> Result<Split, AllocError>
    requires net { n < nets circuit.now.net }
    requires drivers { AreDrivers circuit.now.net drivers.now }
    ensures { IfOk result (IsSplitOf (F.degree field.now) (F.product field.now) circuit.now bases.now (OfNet n)) }
{
    let mut near = bit_sum(alloc, field, rank(circuit, n))?;
    add_driven(alloc, field, circuit, drivers, n, &mut near)?;
    Ok(Split { near, form: None })
}

/// A generator: a net, or a bit of an input, state or fed word.
pub(crate) fn generator_split<F: Field>(
    alloc: Global,
    field: &F,
    circuit: &Combinational,
    bases: &[Basis],
    drivers: &[Option<u32>],
    generator: Generator,
) -> Result<Split, AllocError>
    requires bases { AreBases (F.degree field.now) (F.product field.now) circuit.now bases.now }
    requires drivers { AreDrivers circuit.now.net drivers.now }
    requires generator { IsGeneratorOf (F.degree field.now) circuit.now bases.now generator }
    ensures { IfOk result (IsSplitOf (F.degree field.now) (F.product field.now) circuit.now bases.now generator) }
{
    match generator {
        Generator::Net(n) => net_split(alloc, field, circuit, bases, drivers, n),
        Generator::Bit { word, place } => { bit_split(alloc, field, circuit, bases, word, place) }
    }
}
