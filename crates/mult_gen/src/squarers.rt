//! Squarers.
ghost use Rattle.std.specs.Prelude.{◌≡◌, ◌≤◌, ◌<◌, ◌+◌, ◌*◌, ◌^◌, Some, IfOk, OnOk, IsErrOf, length};
ghost use Rattle.gf_field.specs.Quotient.{product};
ghost use Rattle.gf_field.specs.Ring2k.{degree_of, modulus_of};
ghost use Rattle.irreducible.specs.Proved.{ring_of};
ghost use Rattle.net_words.specs.declared.word.Role.TheVariants.{Input};
ghost use Rattle.net_core.specs.Sound.{IsSound};
ghost use Rattle.net_write.specs.Plain.{HasPlainNames};
ghost use Rattle.make_nets.specs.Form.{AllWide, HasWords};
ghost use Rattle.make_nets.specs.Plan.{with_chain};
ghost use Rattle.make_nets.specs.PlanShape.{HasRoom};
ghost use Rattle.mult_gen.specs.Chains.{added_bits as added_bits_of, squarer_plan};
ghost use Rattle.mult_gen.specs.Powers.{ArePowers};
ghost use Rattle.mult_gen.specs.Form.{AreWide, HasPolyForm, SquaresModulo, made_squarer, squarer_over};

use crate::added_nets::added_bits;
use crate::fault::MakeFault;
use crate::form::poly_ports;
use crate::nets::{inputs, net_of, outer, outputs};
use crate::powers::powers_of_x;
use gf_field::{Ring, Ring2k};
use irreducible::Proved;
use make_nets::PlanMaker;
use net_core::Net;
use net_signature::Signature;
use std::alloc::{AllocError, Global};

// The chain of the bits that add to bit l of the square, into the net of this bit.
fn add_chain(
    alloc: Global,
    ring: &Proved<Ring2k>,
    powers: &[u64],
    plan: &mut PlanMaker,
    a: &[u32],
    l: usize,
    out: u32,
) -> Result<(), AllocError>
    requires powers { ArePowers (degree_of (ring_of ring.now)) (modulus_of (ring_of ring.now)) powers.now }
    requires degree { length a.now ≡ degree_of (ring_of ring.now) }
    requires small { length a.now ≤ 64 }
    requires long { length powers.now ≡ 2 * length a.now }
    requires bit { l < 64 }
    requires room { HasRoom plan.old 65 }
    ensures made { OnOk result (plan.new ≡ with_chain (Some out) (added_bits_of (length a.now) (modulus_of (ring_of ring.now)) a.now l) plan.old) }
    ensures next { OnOk result (plan.new.next ≤ plan.old.next + 65) }
{
    let list = added_bits(alloc, ring, powers, a, l)?;
    plan.chain_into(out, &list)
}

// The gates of the squarer of the words on these nets.
fn gates(
    alloc: Global,
    ring: &Proved<Ring2k>,
    outer: u32,
    a: &[u32],
    z: &[u32],
) -> Result<PlanMaker, AllocError>
    requires first { length a.now ≡ degree_of (ring_of ring.now) }
    requires product { length z.now ≡ degree_of (ring_of ring.now) }
    requires small { degree_of (ring_of ring.now) ≤ 64 }
    requires few { outer ≤ 2 ^ 16 }
    ensures { IfOk result (λ plan. plan ≡ squarer_plan outer (degree_of (ring_of ring.now)) (modulus_of (ring_of ring.now)) a.now z.now) }
{
    let k = z.len();
    let powers = powers_of_x(alloc, ring, 2 * k)?;
    let mut plan = PlanMaker::new(alloc, outer);
    for l in 0..k {
        add_chain(alloc, ring, &powers, &mut plan, a, l, z[l])?;
    }
    Ok(plan)
}

// The gates of the squarer of the words.
fn plan_of(
    alloc: Global,
    ring: &Proved<Ring2k>,
    signature: &Signature,
) -> Result<PlanMaker, AllocError>
    requires words { HasWords Input 1 signature.now.words }
    requires wide { AllWide (degree_of (ring_of ring.now)) signature.now.words }
    ensures { IfOk result (λ plan. plan ≡ squarer_over (degree_of (ring_of ring.now)) (modulus_of (ring_of ring.now)) signature.now.words) }
{
    let k = ring.k();
    let inputs = inputs(alloc, signature, k, 1)?;
    let outputs = outputs(alloc, signature, k, 1)?;
    gates(alloc, ring, outer(signature, k, 1), &inputs, &outputs)
}

/// A netlist of the square of A: for each bit of the square a chain of the bits of A that reach it. Words are one input and
/// the output, both by `poly`, with no tower, feed or block; their nets are different and have plain names of at most 128
/// bytes. Else it is `Unfit`.
/// The field is the signature's, and each word that is not fed has as many nets as its degree.
/// Source: Lidl and Niederreiter, Finite Fields, chapter 2: squaring is linear over the field of two elements.
pub fn squarer(
    alloc: Global,
    ring: &Proved<Ring2k>,
    signature: &Signature,
) -> Result<Net, MakeFault>
    requires field { modulus_of (ring_of ring.now) ≡ signature.now.modulus }
    requires wide { AreWide (degree_of (ring_of ring.now)) signature.now.words }
    ensures made { IfOk result (λ net. net ≡ made_squarer (degree_of (ring_of ring.now)) (modulus_of (ring_of ring.now)) signature.now.words) }
    ensures sound { IfOk result (λ net. IsSound net) }
    ensures plain { IfOk result (λ net. HasPlainNames net) }
    ensures computes { IfOk result (λ net. SquaresModulo (degree_of (ring_of ring.now)) (modulus_of (ring_of ring.now)) net signature.now.words) }
    ensures form { OnOk result (HasPolyForm 1 signature.now) }
    ensures unfit { IsErrOf result MakeFault.Unfit → HasPolyForm 1 signature.now → ⊥ }
{
    let maker = match poly_ports(alloc, signature, ring.k(), 1) {
        Ok(maker) => maker,
        Err(fault) => return Err(fault),
    };
    let plan = plan_of(alloc, ring, signature)?;
    let net = net_of(alloc, maker, signature, 1, &plan)?;
    Ok(net)
}
