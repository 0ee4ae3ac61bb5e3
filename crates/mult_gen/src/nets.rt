//! The nets of the words of a signature, and the net of a plan over them.
ghost use Rattle.std.specs.Prelude.{◌≡◌, ◌≤◌, ◌*◌, [], List, ℕ, IfOk, length};
ghost use Rattle.make_nets.specs.MadeNet.{outer_net};
ghost use Rattle.net_words.specs.declared.word.Role.TheVariants.{Input};
ghost use Rattle.make_nets.specs.Form.{AllWide, HasWords};
ghost use Rattle.make_nets.specs.Made.{made_of, IsPlanFor};
ghost use Rattle.make_nets.specs.Ports.{outer_names};
ghost use Rattle.mult_gen.specs.Form.{HasPorts, inputs_in, outer_of, outputs_in};

use make_nets::{PlanMaker, count_of, make, role_nets};
use net_core::{Latch, Net, NetMaker};
use net_signature::Signature;
use net_words::Role;
use std::alloc::{AllocError, Global};

/// How many nets the words have.
pub fn outer(signature: &Signature, _k: u32, _count: usize) -> u32
    requires words { HasWords Input _count signature.now.words }
    requires wide { AllWide _k signature.now.words }
    requires small { _k ≤ 64 }
    requires few { _count ≤ 2 }
    ensures count { result ≡ outer_of signature.now.words }
    ensures few { result ≤ 192 }
{
    count_of(signature.words())
}

/// The nets of the inputs.
pub fn inputs(
    alloc: Global,
    signature: &Signature,
    _k: u32,
    _count: usize,
) -> Result<Vec<u32>, AllocError>
    requires words { HasWords Input _count signature.now.words }
    requires wide { AllWide _k signature.now.words }
    requires small { _k ≤ 64 }
    requires few { _count ≤ 2 }
    ensures nets { IfOk result (λ list. list.items ≡ inputs_in signature.now.words) }
    ensures long { IfOk result (λ list. length list.items ≡ _count * _k) }
{
    role_nets(alloc, signature.words(), Role::Input)
}

/// The nets of the output word.
pub fn outputs(
    alloc: Global,
    signature: &Signature,
    _k: u32,
    _count: usize,
) -> Result<Vec<u32>, AllocError>
    requires words { HasWords Input _count signature.now.words }
    requires wide { AllWide _k signature.now.words }
    requires small { _k ≤ 64 }
    requires few { _count ≤ 2 }
    ensures nets { IfOk result (λ list. list.items ≡ outputs_in signature.now.words) }
    ensures long { IfOk result (λ list. length list.items ≡ _k) }
{
    role_nets(alloc, signature.words(), Role::Output)
}

/// The net of the gates of a plan, without latches.
pub fn net_of(
    alloc: Global,
    maker: NetMaker,
    signature: &Signature,
    _count: usize,
    plan: &PlanMaker,
) -> Result<Net, AllocError>
    requires maker { maker ≡ outer_net (outer_names signature.now.words []) }
    requires ports { HasPorts _count signature.now }
    requires fits { (targets : List ℕ) × IsPlanFor signature.now.words [] [] targets plan.now }
    ensures { IfOk result (λ net. net ≡ made_of signature.now.words [] [] plan.now) }
{
    let latches: Vec<Latch> = Vec::new(alloc);
    make(
        alloc,
        maker,
        signature.words(),
        signature.feeds(),
        &latches,
        plan,
    )
}
