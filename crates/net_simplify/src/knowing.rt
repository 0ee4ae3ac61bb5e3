//! What the nets of a net list are.
ghost use Rattle.std.specs.Prelude.{◌≡◌, ◌<◌, length, IfOk, OnOk};
ghost use Rattle.net_core.specs.NetList.{nets};
ghost use Rattle.net_core.specs.Order.{IsLevelOrder};
ghost use Rattle.net_core.specs.Sound.{IsSound};
ghost use Rattle.net_simplify.specs.private.Lists.{AreAllThemselves};
ghost use Rattle.net_simplify.specs.private.Underway.{AreFormsBy, KnowsNext};

use crate::catalog::Catalog;
use crate::known::Known;
use crate::marking::mark_at;
use crate::settling::settle;
use net_core::{Gate, Net};
use std::alloc::{AllocError, Global};

// The unit and the body of the net of a gate, if it is used.
fn know_gate(
    alloc: Global,
    gate: &Gate,
    marks: &[u8],
    known: &mut Known,
    catalog: &mut Catalog,
) -> Result<(), AllocError>
    requires { gate.now.out < length known.old.units }
    ensures long { OnOk result (length known.new.units ≡ length known.old.units) }
    ensures step { OnOk result (KnowsNext gate.now marks.now known.old catalog.old known.new catalog.new) }
{
    if mark_at(marks, gate.out()) == 0 {
        return Ok(());
    }
    settle(alloc, gate, marks, known, catalog)
}

// What the nets are, gate by gate in the order, where nothing is known but that each net is itself.
fn know_all(
    alloc: Global,
    net: &Net,
    order: &[u32],
    marks: &[u8],
    known: &mut Known,
) -> Result<(), AllocError>
    requires order { IsLevelOrder net.now order.now }
    requires begun { AreAllThemselves (nets net.now) known.old }
    ensures { OnOk result (AreFormsBy net.now order.now marks.now known.new) }
{
    let gates = net.gates();
    let mut catalog = Catalog::new(alloc);
    for position in order {
        know_gate(
            alloc,
            &gates[*position as usize],
            marks,
            known,
            &mut catalog,
        )?;
    }
    Ok(())
}

/// What the nets are, gate by gate in the order, where the marks tell how often nets are used.
pub fn know(alloc: Global, net: &Net, order: &[u32], marks: &[u8]) -> Result<Known, AllocError>
    requires { IsLevelOrder net.now order.now }
    ensures sound { IsSound net.now }
    ensures forms { IfOk result (λ known. AreFormsBy net.now order.now marks.now known) }
{
    let mut known = Known::new(alloc, net.nets())?;
    know_all(alloc, net, order, marks, &mut known)?;
    Ok(known)
}
