//! Adders.
ghost use Rattle.std.specs.Prelude.{◌≡◌, ◌≤◌, ◌<◌, IfOk, OnOk, IsErrOf, length};
ghost use Rattle.net_words.specs.declared.word.Role.TheVariants.{Input};
ghost use Rattle.net_core.specs.Sound.{IsSound};
ghost use Rattle.net_write.specs.Plain.{HasPlainNames};
ghost use Rattle.make_nets.specs.Form.{AllWide, HasWords};
ghost use Rattle.mult_gen.specs.Chains.{adder_plan};
ghost use Rattle.mult_gen.specs.Form.{AddsInEachBasis, AreWide, HasAdderForm, adder_over, made_adder};

use crate::fault::MakeFault;
use crate::form::ports;
use crate::nets::{inputs, net_of, outer, outputs};
use gf_field::Field;
use make_nets::{PlanMaker, all_alike};
use net_core::Net;
use net_signature::Signature;
use std::alloc::{AllocError, Global};

// The gates of the adder of the words on these nets.
fn gates(
    alloc: Global,
    outer: u32,
    a: &[u32],
    b: &[u32],
    z: &[u32],
) -> Result<PlanMaker, AllocError>
    requires first { length a.now ≡ length z.now }
    requires second { length b.now ≡ length z.now }
    ensures { IfOk result (λ plan. plan ≡ adder_plan outer (length z.now) a.now b.now z.now) }
{
    let mut plan = PlanMaker::new(alloc, outer);
    for i in 0..z.len() {
        plan.xor_into(z[i], a[i], b[i])?;
    }
    Ok(plan)
}

// The gates of the adder of the words.
fn plan_of(alloc: Global, k: u32, signature: &Signature) -> Result<PlanMaker, AllocError>
    requires words { HasWords Input 2 signature.now.words }
    requires wide { AllWide k signature.now.words }
    requires small { k ≤ 64 }
    ensures { IfOk result (λ plan. plan ≡ adder_over k signature.now.words) }
{
    let inputs = inputs(alloc, signature, k, 2)?;
    let outputs = outputs(alloc, signature, k, 2)?;
    let (a, b) = inputs.split_at(k as usize);
    gates(alloc, outer(signature, k, 2), a, b, &outputs)
}

// The adder of words of k bits.
fn adder_of(alloc: Global, k: u32, signature: &Signature) -> Result<Net, MakeFault>
    requires small { k ≤ 64 }
    requires wide { AreWide k signature.now.words }
    ensures made { IfOk result (λ net. net ≡ made_adder k signature.now.words) }
    ensures form { OnOk result (HasAdderForm signature.now) }
    ensures unfit { IsErrOf result MakeFault.Unfit → HasAdderForm signature.now → ⊥ }
{
    if !all_alike(signature.words()) {
        return Err(MakeFault::Unfit);
    }
    let maker = match ports(alloc, signature, k, 2) {
        Ok(maker) => maker,
        Err(fault) => return Err(fault),
    };
    let plan = plan_of(alloc, k, signature)?;
    let net = net_of(alloc, maker, signature, 2, &plan)?;
    Ok(net)
}

/// A netlist of the sum A + B: an exclusive or gate for each bit. Words are two inputs and the output, all in one basis by
/// its text's values, with no feed or block; their nets are different and have plain names of at most 128 bytes. Else it is
/// `Unfit`. It is the sum in any basis of the field.
/// The field is the signature's, and each word that is not fed has as many nets as its degree.
pub fn adder<F: Field>(alloc: Global, field: &F, signature: &Signature) -> Result<Net, MakeFault>
    requires wide { AreWide (F.degree field.now) signature.now.words }
    ensures made { IfOk result (λ net. net ≡ made_adder (F.degree field.now) signature.now.words) }
    ensures sound { IfOk result (λ net. IsSound net) }
    ensures plain { IfOk result (λ net. HasPlainNames net) }
    ensures computes { IfOk result (λ net. AddsInEachBasis (F.degree field.now) (F.product field.now) net signature.now.words) }
    ensures form { OnOk result (HasAdderForm signature.now) }
    ensures unfit { IsErrOf result MakeFault.Unfit → HasAdderForm signature.now → ⊥ }
{
    adder_of(alloc, field.k(), signature)
}
