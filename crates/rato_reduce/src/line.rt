//! A gate of one input put in place of its output, where that is the only bit.
ghost use Rattle.std.specs.Prelude.{◌≡◌, IsFalse, IsTrue};
ghost use Rattle.lists.specs.Lists.{Has};
ghost use Rattle.net_core.specs.Sound.{IsSound};
ghost use Rattle.poly_mixed.specs.Polynomial.{IsReduced};
ghost use Rattle.rato_reduce.specs.BoundVariables.{bound_variables};
ghost use Rattle.rato_reduce.specs.GatePoint.{HasGatePutIn};

use crate::cut::Cut;
use crate::first_cut::rank;
use gf_field::Field;
use net_core::Gate;
use net_words::Combinational;
use poly_mixed::exclusive_form;

/// Puts a gate's table in place of its output, if the gate has one input and its output is the only term with bits, as in a
/// chain. No terms are taken out.
pub fn put_line<F: Field>(_field: &F, circuit: &Combinational, gate: &Gate, cut: &mut Cut) -> bool
    requires sound { IsSound circuit.now.net }
    requires gate { Has circuit.now.net.gates gate.now }
    requires cut { IsReduced (F.degree _field.now) cut.old.terms }
    ensures reduced { IsTrue result → IsReduced (F.degree _field.now) cut.new.terms }
    ensures values { IsTrue result → HasGatePutIn (F.degree _field.now) (F.product _field.now) (bound_variables circuit.now) gate.now cut.old.terms cut.new.terms }
    ensures kept { IsFalse result → cut.new.terms ≡ cut.old.terms }
{
    let inputs = gate.inputs();
    if inputs.len() == 1 {
        let out = rank(circuit, gate.out());
        let by = rank(circuit, inputs[0]);
        let form = exclusive_form(gate.table());
        return cut.put_line(out, form, by);
    }
    false
}
