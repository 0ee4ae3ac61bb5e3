//! The bits of nets where the gates at the end of an order are evaluated, and all other nets have given bits.
ghost use Rattle.std.specs.Prelude.{◌≡◌, ◌≤◌, ◌<◌, ℕ, List, length, IfOk};
ghost use Rattle.net_core.specs.NetList.{nets};
ghost use Rattle.net_core.specs.Order.{IsLevelOrder};
ghost use Rattle.poly_mixed.specs.Polynomial.{Point};
ghost use Rattle.stage_model.specs.Variables.{point_bits};
ghost use Rattle.stage_model.specs.private.Plain.{AreSettledFrom};
ghost use Rattle.plain_runs.specs.CutParts.{AreSettledAt};

use crate::settle::set_gate;
use net_core::{Net, order};
use std::alloc::{AllocError, Global};

// Gives the gates from a place of the order on their values.
fn settle(net: &Net, order: &[u32], from: usize, bits: &mut Vec<bool>)
    requires order { IsLevelOrder net.now order.now }
    requires inside { from ≤ length order.now }
    requires long { length bits.old.items ≡ nets net.now }
    ensures { AreSettledFrom net.now order.now from (length order.now) bits.old.items bits.new.items }
{
    for position in &order[from..] {
        set_gate(net, *position, bits);
    }
}

// The bits of all nets where the gates that are eliminated first are evaluated, and all other nets have these bits.
pub fn settled(alloc: Global, net: &Net, cut: u32, bits: Vec<bool>) -> Result<Vec<bool>, AllocError>
    requires cut { cut ≤ length net.now.gates }
    requires long { length bits.items ≡ nets net.now }
    ensures { IfOk result (λ v. (variables : List ℕ) (p : Point) → bits.items ≡ point_bits (nets net.now) variables p → AreSettledAt net.now variables cut p v.items) }
{
    let order = order(alloc, net)?;
    let mut bits = bits;
    settle(net, &order, order.len() - cut as usize, &mut bits);
    Ok(bits)
}
