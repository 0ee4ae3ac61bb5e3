//! Nets made again with other gates.
ghost use Rattle.std.specs.Prelude.{◌≡◌, ◌<◌, ◌+◌, ◌==◌, ◌++◌, ◌↔◌, [], not, map, Some, IfOk, IsTrue, OnOk, if◌then◌else◌, false};
ghost use Rattle.lists.specs.Lists.{Has, times};
ghost use Rattle.net_core.specs.GateValue.{GateValue};
ghost use Rattle.net_core.specs.Inside.{GateIsInside, IsNetName};
ghost use Rattle.net_core.specs.NetList.{empty, nets, number_of, text_of, with_gate, with_label, with_name};
ghost use Rattle.net_core.specs.Sound.{IsSound};
ghost use Rattle.net_simplify.specs.Simplified.{simple_gate};
ghost use Rattle.net_simplify.specs.private.Lists.{form_at, forms_of};
ghost use Rattle.net_simplify.specs.private.Marks.{HasLabelsTo, count_at, remade};

use crate::known::Known;
use crate::marking::mark_at;
use crate::table_form::TableForm;
use net_core::{Gate, Net, NetFault, NetMaker};
use std::alloc::{AllocError, Global};

// Whether a net stands among the leaves.
fn has_leaf(leaves: &[u32], net: u32) -> bool
    ensures { result ≡ not (times net leaves.now == 0) }
{
    match leaves {
        [] => false,
        [first, rest @ ..] => {
            if *first == net {
                true
            } else {
                has_leaf(rest, net)
            }
        }
    }
}

// The form that the net of a gate gets.
fn form_of(known: &Known, net: u32) -> &TableForm
    ensures { result.now ≡ (if times net (form_at known.now.units net).leaves == 0 then form_at known.now.units net else form_at known.now.bodies net) }
{
    if has_leaf(known.unit(net).leaves(), net) {
        known.body(net)
    } else {
        known.unit(net)
    }
}

// Out of memory: a net list that is made again has no other fault.
fn memory(fault: NetFault) -> AllocError {
    let _fault = fault;
    AllocError
}

// Adds a gate.
fn put(maker: &mut NetMaker, out: u32, inputs: &[u32], table: u64) -> Result<(), AllocError>
    requires { GateIsInside (nets maker.old) (record { out = out; inputs = inputs.now; table = table }) }
    ensures { OnOk result (maker.new ≡ with_gate maker.old (record { out = out; inputs = inputs.now; table = table })) }
{
    match maker.gate(out, inputs, table) {
        Ok(()) => Ok(()),
        Err(fault) => Err(memory(fault)),
    }
}

// Adds the gate with its new inputs and its new table.
fn add_gate(
    maker: &mut NetMaker,
    gate: &Gate,
    known: &Known,
    marks: &[u8],
) -> Result<(), AllocError>
    requires { GateIsInside (nets maker.old) (simple_gate (count_at marks.now) (forms_of known.now) gate.now) }
    ensures { OnOk result (maker.new ≡ with_gate maker.old (simple_gate (count_at marks.now) (forms_of known.now) gate.now)) }
{
    if mark_at(marks, gate.out()) == 0 {
        return put(maker, gate.out(), gate.inputs(), gate.table());
    }
    let form = form_of(known, gate.out());
    put(maker, gate.out(), form.leaves(), form.table())
}

// Adds the gates.
fn add_gates(maker: &mut NetMaker, net: &Net, known: &Known, marks: &[u8]) -> Result<(), AllocError>
    requires { (g : GateValue) → Has net.now.gates g → GateIsInside (nets maker.old) (simple_gate (count_at marks.now) (forms_of known.now) g) }
    ensures { OnOk result (maker.new ≡ record maker.old { gates = maker.old.gates ++ map (simple_gate (count_at marks.now) (forms_of known.now)) net.now.gates }) }
{
    for gate in net.gates() {
        add_gate(maker, gate, known, marks)?;
    }
    Ok(())
}

// Adds a net of this name.
fn add_named(maker: &mut NetMaker, name: &str) -> Result<(), AllocError>
    requires { IsNetName name.now }
    ensures { OnOk result (maker.new ≡ with_name maker.old name.now) }
{
    match maker.net(name) {
        Ok(_) => Ok(()),
        Err(fault) => Err(memory(fault)),
    }
}

// Adds a net without a name.
fn add_fresh(maker: &mut NetMaker, label: &str) -> Result<(), AllocError>
    ensures { OnOk result (maker.new ≡ with_label maker.old label.now false) }
{
    match maker.fresh(label) {
        Ok(_) => Ok(()),
        Err(fault) => Err(memory(fault)),
    }
}

// Whether a net is found by its label.
fn is_named(net: &Net, number: u32) -> bool
    requires { number < nets net.now }
    ensures { IsTrue result ↔ (number_of net.now (text_of net.now number) ≡ Some number) }
{
    net.find(net.label(number)) == Some(number)
}

// Adds a net of the other net list.
fn add_net(maker: &mut NetMaker, net: &Net, number: u32) -> Result<(), AllocError>
    requires sound { IsSound net.now }
    requires within { number < nets net.now }
    requires before { HasLabelsTo net.now number maker.old }
    ensures { OnOk result (HasLabelsTo net.now (number + 1) maker.new) }
{
    if is_named(net, number) {
        add_named(maker, net.label(number))
    } else {
        add_fresh(maker, net.label(number))
    }
}

// Adds the nets of a net list, with their labels.
fn add_labels(maker: &mut NetMaker, net: &Net) -> Result<(), AllocError>
    requires { maker.old ≡ empty }
    ensures { OnOk result (maker.new ≡ record empty { labels = net.now.labels }) }
{
    for number in 0..net.nets() {
        add_net(maker, net, number)?;
    }
    Ok(())
}

// Adds the primary inputs.
fn add_inputs(maker: &mut NetMaker, net: &Net) -> Result<(), AllocError>
    requires { nets maker.old ≡ nets net.now }
    ensures { OnOk result (maker.new ≡ record maker.old { inputs = maker.old.inputs ++ net.now.inputs }) }
{
    for input in net.inputs() {
        maker.input(*input)?;
    }
    Ok(())
}

// Adds the outputs.
fn add_outputs(maker: &mut NetMaker, net: &Net) -> Result<(), AllocError>
    requires { nets maker.old ≡ nets net.now }
    ensures { OnOk result (maker.new ≡ record maker.old { outputs = maker.old.outputs ++ net.now.outputs }) }
{
    for output in net.outputs() {
        maker.output(*output)?;
    }
    Ok(())
}

// Adds all of the net list, with the gates that the forms give.
fn add_all(maker: &mut NetMaker, net: &Net, known: &Known, marks: &[u8]) -> Result<(), AllocError>
    requires begun { maker.old ≡ empty }
    requires gates { (g : GateValue) → Has net.now.gates g → GateIsInside (nets net.now) (simple_gate (count_at marks.now) (forms_of known.now) g) }
    ensures { OnOk result (maker.new ≡ remade net.now (count_at marks.now) (forms_of known.now)) }
{
    add_labels(maker, net)?;
    add_inputs(maker, net)?;
    add_outputs(maker, net)?;
    add_gates(maker, net, known, marks)
}

// The net list with the gates that the forms give, which are not used again.
fn with_forms(alloc: Global, net: &Net, known: Known, marks: &[u8]) -> Result<NetMaker, AllocError>
    requires gates { (g : GateValue) → Has net.now.gates g → GateIsInside (nets net.now) (simple_gate (count_at marks.now) (forms_of known) g) }
    ensures { IfOk result (λ maker. maker ≡ remade net.now (count_at marks.now) (forms_of known)) }
{
    let mut maker = NetMaker::new(alloc);
    add_all(&mut maker, net, &known, marks)?;
    Ok(maker)
}

/// The net with the gates that the forms give. The forms are given back before the net is finished.
pub fn rebuilt(alloc: Global, net: &Net, known: Known, marks: &[u8]) -> Result<Net, AllocError>
    requires gates { (g : GateValue) → Has net.now.gates g → GateIsInside (nets net.now) (simple_gate (count_at marks.now) (forms_of known) g) }
    requires flat { net.now.latches ≡ [] }
    ensures { IfOk result (λ made. made ≡ record net.now { gates = map (simple_gate (count_at marks.now) (forms_of known)) net.now.gates }) }
{
    let maker = with_forms(alloc, net, known, marks)?;
    match maker.finish() {
        Ok(made) => Ok(made),
        Err(fault) => Err(memory(fault)),
    }
}
