//! What the multiplier of a tower asks of a signature.
ghost use Rattle.std.specs.Prelude.{◌≡◌, ◌≤◌, [], IfOk, OnOk, IsErrOf};
ghost use Rattle.make_nets.specs.MadeNet.{outer_net};
ghost use Rattle.make_nets.specs.Form.{AllWide};
ghost use Rattle.make_nets.specs.Ports.{outer_names};
ghost use Rattle.mult_gen.specs.Form.{AreWide};
ghost use Rattle.mult_composite.specs.Form.{HasCompositeForm};

use make_nets::all_poly;
use mult_gen::{MakeFault, ports};
use net_core::NetMaker;
use net_signature::Signature;
use std::alloc::Global;

// The nets of the words, where the signature has the form.
pub(crate) fn composite_ports(
    alloc: Global,
    signature: &Signature,
    k: u32,
) -> Result<NetMaker, MakeFault>
    requires wide { AreWide k signature.now.words }
    requires small { k ≤ 64 }
    ensures maker { IfOk result (λ maker. maker ≡ outer_net (outer_names signature.now.words [])) }
    ensures form { OnOk result (HasCompositeForm signature.now) }
    ensures wide { OnOk result (AllWide k signature.now.words) }
    ensures unfit { IsErrOf result MakeFault.Unfit → HasCompositeForm signature.now → ⊥ }
{
    if signature.tower().is_empty() {
        return Err(MakeFault::Unfit);
    }
    if !signature.upper().is_empty() || !all_poly(signature.words()) {
        return Err(MakeFault::Unfit);
    }
    ports(alloc, signature, k, 2)
}
