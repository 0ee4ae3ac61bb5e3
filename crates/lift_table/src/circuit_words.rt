//! The words of a circuit of one cycle with their bases, for the plain program that evaluates it.
ghost use Rattle.std.specs.Prelude.{◌≡◌, ◌<◌, length, map, slice_get, Some, IfOk, OnOk};
ghost use Rattle.gf_basis.specs.BasisParts.{IsBasisOver};
ghost use Rattle.circuit_model.specs.Bases.{AreBases, circuit_in};
ghost use Rattle.circuit_model.specs.Flat.{AreOver, word_of};
ghost use Rattle.lift_table.specs.private.Circuits.{AddsWord};

use circuit_model::{CircuitWord, output_basis, output_nets};
use gf_basis::Basis;
use gf_field::Field;
use net_words::{Combinational, Role};
use std::alloc::{AllocError, Global};

/// The input, state and fed words of a circuit, with their bases.
pub(crate) fn circuit_words<F: Field>(
    alloc: Global,
    field: &F,
    circuit: &Combinational,
    bases: &[Basis],
) -> Result<Vec<CircuitWord>, AllocError>
    requires { AreBases (F.degree field.now) (F.product field.now) circuit.now bases.now }
    ensures words { IfOk result (λ list. map word_of list.items ≡ (circuit_in (F.degree field.now) (F.product field.now) circuit.now bases.now).words) }
    ensures over { IfOk result (λ list. AreOver (F.degree field.now) (F.product field.now) list.items) }
{
    let binding = circuit.binding();
    let mut list = Vec::new(alloc);
    for w in 0..binding.words() {
        add_word(alloc, field, circuit, w, &bases[w as usize], &mut list)?;
    }
    Ok(list)
}

/// The output word of a circuit, with its basis.
pub(crate) fn output_word<F: Field>(
    alloc: Global,
    _field: &F,
    circuit: &Combinational,
    bases: &[Basis],
) -> Result<CircuitWord, AllocError>
    requires { AreBases (F.degree _field.now) (F.product _field.now) circuit.now bases.now }
    ensures word { IfOk result (λ word. word_of word ≡ (circuit_in (F.degree _field.now) (F.product _field.now) circuit.now bases.now).output) }
    ensures over { IfOk result (λ word. IsBasisOver (F.degree _field.now) (F.product _field.now) word.basis) }
{
    let binding = circuit.binding();
    let basis = output_basis(binding, bases);
    let nets = output_nets(alloc, binding)?;
    Ok(CircuitWord {
        role: Role::Output,
        nets,
        basis: *basis,
    })
}

// Adds the next word, unless it is the output word.
fn add_word<F: Field>(
    alloc: Global,
    _field: &F,
    circuit: &Combinational,
    w: u32,
    basis: &Basis,
    list: &mut Vec<CircuitWord>,
) -> Result<(), AllocError>
    requires word { w < length circuit.now.binding.words }
    requires basis { IsBasisOver (F.degree _field.now) (F.product _field.now) basis.now }
    ensures added { OnOk result ((word : _) → slice_get circuit.now.binding.words w ≡ Some word → AddsWord word basis.now list.old.items list.new.items) }
    ensures over { OnOk result (AreOver (F.degree _field.now) (F.product _field.now) list.old.items → AreOver (F.degree _field.now) (F.product _field.now) list.new.items) }
{
    match circuit.binding().role(w) {
        Role::Input | Role::State | Role::Fed => {
            let nets = nets_of(alloc, circuit, w)?;
            list.push(CircuitWord {
                role: Role::Input,
                nets,
                basis: *basis,
            })?;
            Ok(())
        }
        Role::Output => Ok(()),
    }
}

// The nets of a word.
fn nets_of(alloc: Global, circuit: &Combinational, w: u32) -> Result<Vec<u32>, AllocError>
    requires { w < length circuit.now.binding.words }
    ensures { IfOk result (λ nets. (word : _) → slice_get circuit.now.binding.words w ≡ Some word → nets.items ≡ word.nets) }
{
    let binding = circuit.binding();
    let mut nets = Vec::new(alloc);
    for place in 0..binding.k() {
        nets.push(binding.net(w, place))?;
    }
    Ok(nets)
}
