//! The ports of a net that is made for a signature.
ghost use Rattle.std.specs.Prelude.{◌≡◌, ◌≤◌, ◌<◌, [], Some, None, IfOk, IfErr, OnOk, IsErrOf, IsTrue, ◌↔◌};
ghost use Rattle.make_nets.specs.MadeNet.{outer_net};
ghost use Rattle.make_nets.specs.Form.{AllWide};
ghost use Rattle.make_nets.specs.Ports.{outer_names};
ghost use Rattle.mult_gen.specs.Form.{AreWide, HasPolyForm, HasPorts};

use crate::fault::MakeFault;
use make_nets::{all_poly, has_words, outer_nets};
use net_core::NetMaker;
use net_signature::Signature;
use net_words::Role;
use std::alloc::Global;

// Whether there is no block and no feed.
fn is_plain(signature: &Signature) -> bool
    ensures { IsTrue result ↔ (signature.now.blocks ≡ []) × (signature.now.feeds ≡ []) }
{
    signature.blocks().is_empty() && signature.feeds().is_empty()
}

// The nets; a signature that has none is unfit.
fn or_unfit(maker: Option<NetMaker>) -> Result<NetMaker, MakeFault>
    ensures made { IfOk result (λ found. maker ≡ Some found) }
    ensures unfit { IfErr result (λ fault. (fault ≡ MakeFault.Unfit) × (maker ≡ None)) }
{
    match maker {
        Some(maker) => Ok(maker),
        None => Err(MakeFault::Unfit),
    }
}

/// The nets of the words, if one is the output word, `count` others are inputs, nothing is fed, there is no block, and the
/// nets are different and have plain names of at most 128 bytes.
pub fn ports(
    alloc: Global,
    signature: &Signature,
    _k: u32,
    count: usize,
) -> Result<NetMaker, MakeFault>
    requires wide { AreWide _k signature.now.words }
    requires small { _k ≤ 64 }
    requires few { count < 8 }
    ensures maker { IfOk result (λ maker. maker ≡ outer_net (outer_names signature.now.words [])) }
    ensures form { OnOk result (HasPorts count signature.now) }
    ensures wide { OnOk result (AllWide _k signature.now.words) }
    ensures unfit { IsErrOf result MakeFault.Unfit → HasPorts count signature.now → ⊥ }
{
    if !is_plain(signature) {
        return Err(MakeFault::Unfit);
    }
    if !has_words(signature.words(), Role::Input, count) {
        return Err(MakeFault::Unfit);
    }
    or_unfit(outer_nets(alloc, signature.words(), signature.feeds())?)
}

/// The nets of the words, where also each has the basis of powers and there is no tower.
pub fn poly_ports(
    alloc: Global,
    signature: &Signature,
    k: u32,
    count: usize,
) -> Result<NetMaker, MakeFault>
    requires wide { AreWide k signature.now.words }
    requires small { k ≤ 64 }
    requires few { count < 8 }
    ensures maker { IfOk result (λ maker. maker ≡ outer_net (outer_names signature.now.words [])) }
    ensures form { OnOk result (HasPolyForm count signature.now) }
    ensures wide { OnOk result (AllWide k signature.now.words) }
    ensures unfit { IsErrOf result MakeFault.Unfit → HasPolyForm count signature.now → ⊥ }
{
    if !signature.tower().is_empty() || !all_poly(signature.words()) {
        return Err(MakeFault::Unfit);
    }
    ports(alloc, signature, k, count)
}
