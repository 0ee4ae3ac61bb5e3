//! The multiplier bit by bit in a normal basis: its products, latches and nets put together.
ghost use Rattle.std.specs.Prelude.{◌≡◌, ◌≤◌, [], IfOk, OnOk, IsErrOf};
ghost use Rattle.gf_basis.specs.BasisFault.{conjugates_of};
ghost use Rattle.gf_basis.specs.BasisParts.{elements_of, IsBasisOver};
ghost use Rattle.make_nets.specs.MadeNet.{outer_net};
ghost use Rattle.make_nets.specs.MakerNames.{AreMakerNames};
ghost use Rattle.make_nets.specs.Ports.{outer_names};
ghost use Rattle.make_nets.specs.Form.{AllWide, HasWords};
ghost use Rattle.net_core.specs.Sound.{IsSound};
ghost use Rattle.net_words.specs.declared.word.Role.TheVariants.{State};
ghost use Rattle.net_write.specs.Plain.{HasPlainNames};
ghost use Rattle.mult_gen.specs.Form.{AreWide};
ghost use Rattle.mult_normal.specs.NormalForm.{HasNormalForm};
ghost use Rattle.mult_normal.specs.NormalNet.{MultipliesInCycles, first_factor, normal_net, product_nets, second_factor};

use crate::form::has_form;
use crate::held::latches;
use crate::products::last_sum;
use gf_basis::Basis;
use gf_field::Field;
use make_nets::{count_of, make, outer_nets, role_nets};
use mult_gen::MakeFault;
use net_core::{Net, NetMaker};
use net_signature::Signature;
use net_words::{Role, WordText};
use std::alloc::{AllocError, Global};

// The net over these words, whose nets were made; a, b and z are those of the factors and of the product.
fn assembled<F: Field>(
    alloc: Global,
    field: &F,
    basis: &Basis,
    maker: NetMaker,
    words: &[WordText],
    a: &[u32],
    b: &[u32],
    z: &[u32],
) -> Result<Net, AllocError>
    requires over { IsBasisOver (F.degree field.now) (F.product field.now) basis.now }
    requires form { HasWords State 2 words.now }
    requires bits { AllWide (F.degree field.now) words.now }
    requires names { AreMakerNames (outer_names words.now []) }
    requires maker { maker ≡ outer_net (outer_names words.now []) }
    requires a { a.now ≡ first_factor (F.degree field.now) words.now }
    requires b { b.now ≡ second_factor (F.degree field.now) words.now }
    requires z { z.now ≡ product_nets words.now }
    ensures { IfOk result (λ net. net ≡ normal_net (F.degree field.now) (F.product field.now) (elements_of basis.now) words.now) }
{
    let (plan, last) = last_sum(alloc, field, basis, count_of(words), a, b)?;
    let list = latches(alloc, last, a, b, z)?;
    make(alloc, maker, words, &[], &list, &plan)
}

// The net over these words, whose nets were made.
fn made<F: Field>(
    alloc: Global,
    field: &F,
    basis: &Basis,
    maker: NetMaker,
    words: &[WordText],
) -> Result<Net, AllocError>
    requires over { IsBasisOver (F.degree field.now) (F.product field.now) basis.now }
    requires form { HasWords State 2 words.now }
    requires bits { AllWide (F.degree field.now) words.now }
    requires names { AreMakerNames (outer_names words.now []) }
    requires maker { maker ≡ outer_net (outer_names words.now []) }
    ensures { IfOk result (λ net. net ≡ normal_net (F.degree field.now) (F.product field.now) (elements_of basis.now) words.now) }
{
    let states = role_nets(alloc, words, Role::State)?;
    let outputs = role_nets(alloc, words, Role::Output)?;
    let (a, b) = states.split_at(field.k() as usize);
    assembled(alloc, field, basis, maker, words, a, b, &outputs)
}

// The nets of the words, by name, where the signature has the form.
fn outer_for(alloc: Global, k: u32, signature: &Signature) -> Result<NetMaker, MakeFault>
    requires few { k ≤ 64 }
    requires wide { AreWide k signature.now.words }
    ensures maker { IfOk result (λ maker. maker ≡ outer_net (outer_names signature.now.words [])) }
    ensures form { OnOk result (HasNormalForm signature.now) }
    ensures unfit { IsErrOf result MakeFault.Unfit → HasNormalForm signature.now → ⊥ }
{
    if !has_form(signature) {
        return Err(MakeFault::Unfit);
    }
    match outer_nets(alloc, signature.words(), &[])? {
        Some(maker) => Ok(maker),
        None => Err(MakeFault::Unfit),
    }
}

/// The multiplier bit by bit in a normal basis, whose factors are the signature's state words: `A * B` stands in the output
/// word after k cycles. The words are two states and the output, all in the normal basis of one element, without feeds and
/// blocks; their nets are different and have plain names of at most 128 bytes. Else it is `Unfit`. Each word that is not fed
/// has as many nets as the field has bits; where the signature has the form, the basis is that of its words.
pub fn normal_serial<F: Field>(
    alloc: Global,
    field: &F,
    basis: &Basis,
    signature: &Signature,
) -> Result<Net, MakeFault>
    requires over { IsBasisOver (F.degree field.now) (F.product field.now) basis.now }
    requires wide { AreWide (F.degree field.now) signature.now.words }
    requires basis { (form : HasNormalForm signature.now) → elements_of basis.now ≡ conjugates_of (F.degree field.now) (F.product field.now) form.gamma }
    ensures made { IfOk result (λ net. net ≡ normal_net (F.degree field.now) (F.product field.now) (elements_of basis.now) signature.now.words) }
    ensures sound { IfOk result (λ net. IsSound net) }
    ensures plain { IfOk result (λ net. HasPlainNames net) }
    ensures computes { IfOk result (λ net. MultipliesInCycles (F.degree field.now) (F.product field.now) net signature.now.words (elements_of basis.now)) }
    ensures form { OnOk result (HasNormalForm signature.now) }
    ensures unfit { IsErrOf result MakeFault.Unfit → HasNormalForm signature.now → ⊥ }
{
    let maker = match outer_for(alloc, field.k(), signature) {
        Ok(maker) => maker,
        Err(fault) => return Err(fault),
    };
    let net = made(alloc, field, basis, maker, signature.words())?;
    Ok(net)
}
