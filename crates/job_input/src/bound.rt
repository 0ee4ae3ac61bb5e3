//! Nets with the words and feeds that are bound to them, whose cycles are not unrolled yet.
ghost use Rattle.std.specs.Prelude.{◌≡◌};
ghost use Rattle.net_core.specs.Sound.{IsSound};
ghost use Rattle.net_words.specs.BoundTo.{IsBoundTo};

use net_core::Net;
use net_words::Bound;
use std::marker::Model;

/// A netlist: its net, with the words and feeds of a signature bound to it.
#[derive(Drop)]
pub struct BoundNetlist {
    net: Net,
    binding: Bound,
}

impl Model for BoundNetlist {
    ghost use Rattle.net_core.specs.Sound.{IsSound};
    ghost use Rattle.net_words.specs.Binding.{BoundNet};
    ghost use Rattle.net_words.specs.BoundTo.{IsBoundTo};

    ghost Value = { BoundNet };

    ghost view = { λ netlist. record { net = netlist.net; binding = netlist.binding } };

    ghost invariant = { λ netlist. IsSound netlist.net × IsBoundTo netlist.net netlist.binding };
}

impl BoundNetlist {
    // The net with the words and feeds that are bound to it.
    pub(crate) fn new(net: Net, binding: Bound) -> BoundNetlist
        requires sound { IsSound net }
        requires bound_to { IsBoundTo net binding }
        ensures { result ≡ record { net = net; binding = binding } }
    {
        BoundNetlist { net, binding }
    }

    // The two of them.
    pub(crate) fn into_parts(self) -> (Net, Bound)
        ensures net { result.0 ≡ self.net }
        ensures binding { result.1 ≡ self.binding }
        ensures bound_to { IsBoundTo result.0 result.1 }
    {
        let BoundNetlist { net, binding } = self;
        (net, binding)
    }
}
