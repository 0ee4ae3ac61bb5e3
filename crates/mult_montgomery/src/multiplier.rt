//! Montgomery's multiplier: its rounds put together over the nets of a signature.
ghost use Rattle.std.specs.Prelude.{◌≡◌, ◌≢◌, ◌≤◌, ◌^◌, [], IfOk, OnOk, IsErrOf, length};
ghost use Rattle.gf_field.specs.Quotient.{product};
ghost use Rattle.gf_field.specs.Ring2k.{degree_of, modulus_of};
ghost use Rattle.irreducible.specs.Proved.{ring_of};
ghost use Rattle.net_core.specs.Sound.{IsSound};
ghost use Rattle.make_nets.specs.MadeNet.{outer_net};
ghost use Rattle.net_words.specs.declared.word.Role.TheVariants.{Input};
ghost use Rattle.net_write.specs.Plain.{HasPlainNames};
ghost use Rattle.make_nets.specs.Form.{AllWide, HasWords};
ghost use Rattle.make_nets.specs.Ports.{outer_names};
ghost use Rattle.mult_gen.specs.Form.{AreWide, HasPorts};
ghost use Rattle.mult_montgomery.specs.Form.{HasMontgomeryForm, MultipliesWithInverse, made_montgomery, plan_of_words};
ghost use Rattle.mult_montgomery.specs.Montgomery.{montgomery_plan};

use crate::rounds::{buffered, rounds};
use gf_field::{Ring, Ring2k};
use irreducible::Proved;
use make_nets::PlanMaker;
use mult_gen::{MakeFault, inputs, net_of, outer, outputs, poly_ports};
use net_core::{Net, NetMaker};
use net_signature::Signature;
use std::alloc::{AllocError, Global};

// The gates over nets of the factors and of the product.
fn gates(
    alloc: Global,
    modulus: u128,
    outer: u32,
    a: &[u32],
    b: &[u32],
    z: &[u32],
) -> Result<PlanMaker, AllocError>
    requires some { 1 ≤ length b.now }
    requires small { length b.now ≤ 64 }
    requires first { length a.now ≡ length b.now }
    requires product { length z.now ≡ length b.now }
    requires room { outer ≤ 192 }
    ensures { IfOk result (λ plan. plan ≡ montgomery_plan outer (length b.now) modulus a.now b.now z.now) }
{
    let mut plan = PlanMaker::new(alloc, outer);
    let row = rounds(alloc, &mut plan, modulus, a, b)?;
    buffered(&mut plan, z, row.as_slice())?;
    Ok(plan)
}

// The gates over the nets of the words.
fn plan_of(
    alloc: Global,
    ring: &Proved<Ring2k>,
    signature: &Signature,
) -> Result<PlanMaker, AllocError>
    requires words { HasWords Input 2 signature.now.words }
    requires wide { AllWide (degree_of (ring_of ring.now)) signature.now.words }
    requires some { 1 ≤ degree_of (ring_of ring.now) }
    requires small { degree_of (ring_of ring.now) ≤ 64 }
    ensures { IfOk result (λ plan. plan ≡ plan_of_words (degree_of (ring_of ring.now)) (modulus_of (ring_of ring.now)) signature.now.words) }
{
    let k = ring.k();
    let inputs = inputs(alloc, signature, k, 2)?;
    let outputs = outputs(alloc, signature, k, 2)?;
    let (a, b) = inputs.as_slice().split_at(k as usize);
    let first = outer(signature, k, 2);
    gates(
        alloc,
        ring.ring().modulus(),
        first,
        a,
        b,
        outputs.as_slice(),
    )
}

// The net over the nets of the words.
fn made(
    alloc: Global,
    ring: &Proved<Ring2k>,
    maker: NetMaker,
    signature: &Signature,
) -> Result<Net, AllocError>
    requires ports { HasPorts 2 signature.now }
    requires wide { AllWide (degree_of (ring_of ring.now)) signature.now.words }
    requires maker { maker ≡ outer_net (outer_names signature.now.words []) }
    requires modulus { modulus_of (ring_of ring.now) ≢ 2 }
    ensures made { IfOk result (λ net. net ≡ made_montgomery (degree_of (ring_of ring.now)) (modulus_of (ring_of ring.now)) signature.now.words) }
    ensures sound { IfOk result (λ net. IsSound net) }
    ensures plain { IfOk result (λ net. HasPlainNames net) }
    ensures computes { IfOk result (λ net. MultipliesWithInverse (degree_of (ring_of ring.now)) (modulus_of (ring_of ring.now)) net signature.now.words) }
{
    let plan = plan_of(alloc, ring, signature)?;
    let net = net_of(alloc, maker, signature, 2, &plan)?;
    Ok(net)
}

/// A netlist of Montgomery's product: A * B times the inverse of x^k. After each coefficient of A, which adds B, the sum is
/// divided by x. The words are two inputs and the output, all by `poly`, over a field without a tower whose modulus is not
/// x, without feeds and blocks; their nets are different and have plain names of at most 128 bytes. Else it is `Unfit`.
/// The field is the signature's, and each word that is not fed has as many nets as its
/// degree.
/// Source: Koç and Acar, Montgomery multiplication in GF(2^k), Designs, Codes and Cryptography 14, 1998.
pub fn montgomery(
    alloc: Global,
    ring: &Proved<Ring2k>,
    signature: &Signature,
) -> Result<Net, MakeFault>
    requires field { modulus_of (ring_of ring.now) ≡ signature.now.modulus }
    requires wide { AreWide (degree_of (ring_of ring.now)) signature.now.words }
    ensures made { IfOk result (λ net. net ≡ made_montgomery (degree_of (ring_of ring.now)) (modulus_of (ring_of ring.now)) signature.now.words) }
    ensures sound { IfOk result (λ net. IsSound net) }
    ensures plain { IfOk result (λ net. HasPlainNames net) }
    ensures computes { IfOk result (λ net. MultipliesWithInverse (degree_of (ring_of ring.now)) (modulus_of (ring_of ring.now)) net signature.now.words) }
    ensures form { OnOk result (HasMontgomeryForm signature.now) }
    ensures unfit { IsErrOf result MakeFault.Unfit → HasMontgomeryForm signature.now → ⊥ }
    ensures refused { signature.now.modulus ≡ 2 → IsErrOf result MakeFault.Unfit }
{
    if signature.modulus() == 2 {
        return Err(MakeFault::Unfit);
    }
    let maker = match poly_ports(alloc, signature, ring.k(), 2) {
        Ok(maker) => maker,
        Err(fault) => return Err(fault),
    };
    let net = made(alloc, ring, maker, signature)?;
    Ok(net)
}
