//! The gates that drive nets.
ghost use Rattle.std.specs.Prelude.{◌≡◌, ◌<◌, length, replicate, is_some, slice_set, get_or, IfOk, None, Some};
ghost use Rattle.net_core.specs.NetList.{nets};
ghost use Rattle.net_words.specs.OneCycle.{IsOneCycle};
ghost use Rattle.cert_check.specs.private.Reading.{AreDrivers};

use net_core::Net;
use net_words::Combinational;
use std::alloc::{AllocError, Global};

// Sets the position of the gate that drives a net.
fn set_driver(drivers: &mut Vec<Option<u32>>, out: u32, position: u32)
    requires { out < length drivers.old.items }
    ensures { drivers.new.items ≡ slice_set drivers.old.items out (Some position) }
{
    drivers[out as usize] = Some(position);
}

// A list for so many nets, none of which is driven so far.
fn no_drivers(alloc: Global, count: u32) -> Result<Vec<Option<u32>>, AllocError>
    ensures { IfOk result (λ list. list.items ≡ replicate count None) }
{
    let list = vec![in alloc; None; count as usize]?;
    Ok(list)
}

// For each net the position of the first gate that drives it.
fn net_drivers(alloc: Global, net: &Net) -> Result<Vec<Option<u32>>, AllocError>
    ensures { IfOk result (λ list. AreDrivers net.now list.items) }
{
    let gates = net.gates();
    let mut list = no_drivers(alloc, net.nets())?;
    let mut i = gates.len();
    while i > 0 {
        i -= 1;
        set_driver(&mut list, gates[i].out(), i as u32);
    }
    Ok(list)
}

/// For each net of a circuit the position of the first gate that drives it; and that its words are bound to the net.
pub(crate) fn drivers(
    alloc: Global,
    circuit: &Combinational,
) -> Result<Vec<Option<u32>>, AllocError>
    ensures drivers { IfOk result (λ list. AreDrivers circuit.now.net list.items) }
    ensures is_bound { IsOneCycle circuit.now.net circuit.now.binding }
{
    let net = circuit.net();
    net_drivers(alloc, net)
}

/// Whether a gate drives the net.
pub(crate) fn has_driver(drivers: &[Option<u32>], n: u32) -> bool
    requires { n < length drivers.now }
    ensures { result ≡ is_some (get_or drivers.now n None) }
{
    drivers[n as usize].is_some()
}
