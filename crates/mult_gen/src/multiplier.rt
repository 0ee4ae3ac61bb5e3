//! Mastrovito's multiplier.
ghost use Rattle.std.specs.Prelude.{◌≡◌, ◌≤◌, ◌<◌, ◌+◌, ◌*◌, ◌^◌, Some, IfOk, OnOk, IsErrOf, length};
ghost use Rattle.gf_field.specs.Quotient.{product};
ghost use Rattle.gf_field.specs.Ring2k.{degree_of, modulus_of};
ghost use Rattle.irreducible.specs.Proved.{ring_of};
ghost use Rattle.net_core.specs.Sound.{IsSound};
ghost use Rattle.net_write.specs.Plain.{HasPlainNames};
ghost use Rattle.net_words.specs.declared.word.Role.TheVariants.{Input};
ghost use Rattle.make_nets.specs.Form.{AllWide, HasWords};
ghost use Rattle.make_nets.specs.Plan.{with_chain};
ghost use Rattle.make_nets.specs.PlanShape.{HasRoom};
ghost use Rattle.mult_gen.specs.Chains.{added_products as added_products_of, mastrovito_plan};
ghost use Rattle.mult_gen.specs.Powers.{ArePowers};
ghost use Rattle.mult_gen.specs.Form.{AreWide, HasPolyForm, MultipliesModulo, made_mastrovito, mastrovito_over};

use crate::added_nets::added_products;
use crate::fault::MakeFault;
use crate::form::poly_ports;
use crate::nets::{inputs, net_of, outer, outputs};
use crate::powers::powers_of_x;
use crate::products::bit_products;
use gf_field::{Ring, Ring2k};
use irreducible::Proved;
use make_nets::PlanMaker;
use net_core::Net;
use net_signature::Signature;
use std::alloc::{AllocError, Global};

// The chain of the products that add to bit l, into the net of this bit.
fn add_chain(
    alloc: Global,
    ring: &Proved<Ring2k>,
    powers: &[u64],
    plan: &mut PlanMaker,
    k: usize,
    first: u32,
    l: usize,
    out: u32,
) -> Result<(), AllocError>
    requires powers { ArePowers (degree_of (ring_of ring.now)) (modulus_of (ring_of ring.now)) powers.now }
    requires degree { k ≡ degree_of (ring_of ring.now) }
    requires small { k ≤ 64 }
    requires long { length powers.now ≡ 2 * k }
    requires bit { l < 64 }
    requires few { first ≤ 2 ^ 16 }
    requires room { HasRoom plan.old 4097 }
    ensures made { OnOk result (plan.new ≡ with_chain (Some out) (added_products_of k (modulus_of (ring_of ring.now)) first l) plan.old) }
    ensures next { OnOk result (plan.new.next ≤ plan.old.next + 4097) }
{
    let list = added_products(alloc, ring, powers, k, first, l)?;
    plan.chain_into(out, &list)
}

// The gates of the multiplier of the words on these nets.
fn gates(
    alloc: Global,
    ring: &Proved<Ring2k>,
    outer: u32,
    a: &[u32],
    b: &[u32],
    z: &[u32],
) -> Result<PlanMaker, AllocError>
    requires first { length a.now ≡ degree_of (ring_of ring.now) }
    requires second { length b.now ≡ degree_of (ring_of ring.now) }
    requires product { length z.now ≡ degree_of (ring_of ring.now) }
    requires small { degree_of (ring_of ring.now) ≤ 64 }
    requires few { outer ≤ 2 ^ 16 }
    ensures { IfOk result (λ plan. plan ≡ mastrovito_plan outer (degree_of (ring_of ring.now)) (modulus_of (ring_of ring.now)) a.now b.now z.now) }
{
    let k = z.len();
    let powers = powers_of_x(alloc, ring, 2 * k)?;
    let mut plan = PlanMaker::new(alloc, outer);
    bit_products(&mut plan, a, b)?;
    for l in 0..k {
        add_chain(alloc, ring, &powers, &mut plan, k, outer, l, z[l])?;
    }
    Ok(plan)
}

// The gates of the multiplier of the words.
fn plan_of(
    alloc: Global,
    ring: &Proved<Ring2k>,
    signature: &Signature,
) -> Result<PlanMaker, AllocError>
    requires words { HasWords Input 2 signature.now.words }
    requires wide { AllWide (degree_of (ring_of ring.now)) signature.now.words }
    ensures { IfOk result (λ plan. plan ≡ mastrovito_over (degree_of (ring_of ring.now)) (modulus_of (ring_of ring.now)) signature.now.words) }
{
    let k = ring.k();
    let inputs = inputs(alloc, signature, k, 2)?;
    let outputs = outputs(alloc, signature, k, 2)?;
    let (a, b) = inputs.split_at(k as usize);
    gates(alloc, ring, outer(signature, k, 2), a, b, &outputs)
}

/// A netlist of the product A * B: the products of each bit of A and each of B, and for each bit of the product a chain of
/// those that reach it. Words are two inputs and the output, all by `poly`, with no tower, feed or block; their nets are
/// different and have plain names of at most 128 bytes. Else it is `Unfit`.
/// The field is the signature's, and each word that is not fed has as many nets as its degree.
/// Source: Mastrovito, VLSI Architectures for Computations in Galois Fields, Linköping, 1991.
pub fn mastrovito(
    alloc: Global,
    ring: &Proved<Ring2k>,
    signature: &Signature,
) -> Result<Net, MakeFault>
    requires field { modulus_of (ring_of ring.now) ≡ signature.now.modulus }
    requires wide { AreWide (degree_of (ring_of ring.now)) signature.now.words }
    ensures made { IfOk result (λ net. net ≡ made_mastrovito (degree_of (ring_of ring.now)) (modulus_of (ring_of ring.now)) signature.now.words) }
    ensures sound { IfOk result (λ net. IsSound net) }
    ensures plain { IfOk result (λ net. HasPlainNames net) }
    ensures computes { IfOk result (λ net. MultipliesModulo (degree_of (ring_of ring.now)) (modulus_of (ring_of ring.now)) net signature.now.words) }
    ensures form { OnOk result (HasPolyForm 2 signature.now) }
    ensures unfit { IsErrOf result MakeFault.Unfit → HasPolyForm 2 signature.now → ⊥ }
{
    let maker = match poly_ports(alloc, signature, ring.k(), 2) {
        Ok(maker) => maker,
        Err(fault) => return Err(fault),
    };
    let plan = plan_of(alloc, ring, signature)?;
    let net = net_of(alloc, maker, signature, 2, &plan)?;
    Ok(net)
}
