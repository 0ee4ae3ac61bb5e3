//! The command `make`: a netlist of a kind that is made for a signature.
ghost use Rattle.std.specs.Prelude.{◌≡◌, ℕ, ◌<◌, ◌^◌, IfNone, IfOk, IfSome, IsErrOf, OnOk};
ghost use Rattle.gf_basis.specs.BasisFault.{conjugates_of};
ghost use Rattle.gf_basis.specs.BasisParts.{IsBasisOver, elements_of};
ghost use Rattle.irreducible.specs.Span.{IsIndependent};
ghost use Rattle.net_words.specs.declared.word.BasisText.TheVariants as text_basis;
ghost use Rattle.gf_field.specs.Ring2k.{degree_of, modulus_of};
ghost use Rattle.gf_tower.specs.declared.any_field.AnyField.TheVariants.{Base, Tower as OneStep, Upper};
ghost use Rattle.irreducible.specs.Proved.{ring_of};
ghost use Rattle.job_input.specs.Setting.{any_degree, any_product, setting_in, setting_value, IsNamedBy, IsReady};
ghost use Rattle.job_words.specs.Stop.{GivesBy};
ghost use Rattle.job_words.specs.declared.kind.Kind.TheVariants.{Adder, Composite, Digit, Normal};
ghost use Rattle.mult_gen.specs.Form.{AreWide};
ghost use Rattle.net_write.specs.Plain.{HasPlainNames};
ghost use Rattle.answer_core.specs.Reply.{reply_of};
ghost use Rattle.answer_makers.specs.Make.{MadeOf, MakeAnswer};
ghost use Rattle.answer_makers.specs.private.Making.{FirstIsNormal, HasRingForm, IsOfRing, IsRingNet};

use answer_core::Output;
use gf_basis::Basis;
use gf_field::{Field, Ring2k};
use gf_tower::{AnyField, Tower};
use irreducible::Proved;
use job_input::{NamedSetting, Setting};
use job_words::{Fault, Kind, Stop};
use mult_composite::composite;
use mult_digit::digit_serial;
use mult_gen::{MakeFault, adder, mastrovito, squarer};
use mult_montgomery::montgomery;
use mult_normal::normal_serial;
use net_core::Net;
use net_signature::Signature;
use net_words::{BasisText, WordText};
use net_write::write_blif;
use std::alloc::Global;

/// What the command answers over a setting with the field that its signature names.
pub fn answer(alloc: Global, named: &NamedSetting, kind: Kind) -> Result<Output, Stop>
    requires ready { IsReady (any_degree named.now.field.now) (any_product named.now.field.now) named.now.setting.now }
    ensures { GivesBy reply_of result (MakeAnswer (setting_in named.now.field.now named.now.setting.now) kind) ⊥ ⊥ }
{
    match made(alloc, named, kind) {
        Ok(net) => {
            let text = write_blif(alloc, &net)?;
            Ok(Output { status: 0, text })
        }
        Err(stop) => Err(stop),
    }
}

// The net of a kind.
fn made(alloc: Global, named: &NamedSetting, kind: Kind) -> Result<Net, Stop>
    requires ready { IsReady (any_degree named.now.field.now) (any_product named.now.field.now) named.now.setting.now }
    ensures gives { GivesBy (λ net. net) result (MadeOf (setting_in named.now.field.now named.now.setting.now) kind) ⊥ ⊥ }
    ensures plain { IfOk result (λ net. HasPlainNames net) }
{
    let setting = named.setting;
    let field = named.field;
    match field {
        AnyField::Base(ring) => over_base(alloc, ring, setting, kind),
        AnyField::Tower(tower) => over_tower(alloc, tower, setting, kind),
        AnyField::Upper(upper) => over_upper(alloc, upper, setting, kind),
    }
}

// The net of a kind over a field without a tower.
fn over_base(
    alloc: Global,
    ring: &Proved<Ring2k>,
    setting: &Setting,
    kind: Kind,
) -> Result<Net, Stop>
    requires ready { IsReady (any_degree (Base ring.now)) (any_product (Base ring.now)) setting.now }
    requires named { IsNamedBy setting.now.signature (Base ring.now) }
    ensures gives { GivesBy (λ net. net) result (MadeOf (setting_in (Base ring.now) setting.now) kind) ⊥ ⊥ }
    ensures plain { IfOk result (λ net. HasPlainNames net) }
{
    match kind {
        Kind::Mastrovito | Kind::Montgomery | Kind::Squarer => {
            in_ring(alloc, ring, setting, kind)
        }
        Kind::Composite => Err(Stop::Refused(Fault::Form(kind))),
        Kind::Normal => in_normal_basis(alloc, ring, setting),
        Kind::Adder => in_any_basis(alloc, ring, setting),
        Kind::Digit => in_digits(alloc, ring, setting),
    }
}

// The net of a kind over a tower of one step.
fn over_tower(
    alloc: Global,
    tower: &Proved<Tower<Proved<Ring2k>>>,
    setting: &Setting,
    kind: Kind,
) -> Result<Net, Stop>
    requires ready { IsReady (any_degree (OneStep tower.now)) (any_product (OneStep tower.now)) setting.now }
    requires named { IsNamedBy setting.now.signature (OneStep tower.now) }
    ensures gives { GivesBy (λ net. net) result (MadeOf (setting_in (OneStep tower.now) setting.now) kind) ⊥ ⊥ }
    ensures plain { IfOk result (λ net. HasPlainNames net) }
{
    match kind {
        Kind::Composite => in_tower(alloc, tower, setting),
        Kind::Normal => in_normal_basis(alloc, tower, setting),
        Kind::Adder => in_any_basis(alloc, tower, setting),
        Kind::Mastrovito | Kind::Montgomery | Kind::Squarer | Kind::Digit => {
            Err(Stop::Refused(Fault::Form(kind)))
        }
    }
}

// The net of a kind over a tower of two steps.
fn over_upper(
    alloc: Global,
    upper: &Proved<Tower<Proved<Tower<Proved<Ring2k>>>>>,
    setting: &Setting,
    kind: Kind,
) -> Result<Net, Stop>
    requires ready { IsReady (any_degree (Upper upper.now)) (any_product (Upper upper.now)) setting.now }
    requires named { IsNamedBy setting.now.signature (Upper upper.now) }
    ensures gives { GivesBy (λ net. net) result (MadeOf (setting_in (Upper upper.now) setting.now) kind) ⊥ ⊥ }
    ensures plain { IfOk result (λ net. HasPlainNames net) }
{
    match kind {
        Kind::Normal => in_normal_basis(alloc, upper, setting),
        Kind::Adder => in_any_basis(alloc, upper, setting),
        Kind::Mastrovito | Kind::Montgomery | Kind::Squarer | Kind::Digit | Kind::Composite => {
            Err(Stop::Refused(Fault::Form(kind)))
        }
    }
}

// The net of a kind that asks for a field without a tower.
fn in_ring(alloc: Global, ring: &Proved<Ring2k>, setting: &Setting, kind: Kind) -> Result<Net, Stop>
    requires wide { AreWide (any_degree (Base ring.now)) setting.now.signature.words }
    requires base { IsOfRing kind }
    requires named { IsNamedBy setting.now.signature (Base ring.now) }
    ensures gives { GivesBy (λ net. net) result (MadeOf (setting_in (Base ring.now) setting.now) kind) ⊥ ⊥ }
    ensures plain { IfOk result (λ net. HasPlainNames net) }
{
    match over_ring(alloc, ring, &setting.signature, kind) {
        Ok(net) => Ok(net),
        Err(MakeFault::Unfit) => Err(Stop::Refused(Fault::Form(kind))),
        Err(MakeFault::OutOfMemory) => Err(Stop::OutOfMemory),
    }
}

// The net of a kind that asks for a field without a tower, by its maker.
fn over_ring(
    alloc: Global,
    ring: &Proved<Ring2k>,
    signature: &Signature,
    kind: Kind,
) -> Result<Net, MakeFault>
    requires base { IsOfRing kind }
    requires modulus { modulus_of (ring_of ring.now) ≡ signature.now.modulus }
    requires wide { AreWide (degree_of (ring_of ring.now)) signature.now.words }
    ensures made { IfOk result (λ net. IsRingNet kind (degree_of (ring_of ring.now)) (modulus_of (ring_of ring.now)) signature.now net) }
    ensures plain { IfOk result (λ net. HasPlainNames net) }
    ensures form { OnOk result (HasRingForm kind signature.now) }
    ensures unfit { IsErrOf result MakeFault.Unfit → HasRingForm kind signature.now → ⊥ }
{
    match kind {
        Kind::Mastrovito => mastrovito(alloc, ring, signature),
        Kind::Montgomery => montgomery(alloc, ring, signature),
        Kind::Squarer => squarer(alloc, ring, signature),
        Kind::Composite | Kind::Normal | Kind::Adder | Kind::Digit => Err(MakeFault::Unfit),
    }
}

// A multiplier in a tower of one step.
fn in_tower(
    alloc: Global,
    tower: &Proved<Tower<Proved<Ring2k>>>,
    setting: &Setting,
) -> Result<Net, Stop>
    requires wide { AreWide (any_degree (OneStep tower.now)) setting.now.signature.words }
    requires named { IsNamedBy setting.now.signature (OneStep tower.now) }
    ensures gives { GivesBy (λ net. net) result (MadeOf (setting_in (OneStep tower.now) setting.now) Composite) ⊥ ⊥ }
    ensures plain { IfOk result (λ net. HasPlainNames net) }
{
    match composite(alloc, tower, &setting.signature) {
        Ok(net) => Ok(net),
        Err(MakeFault::Unfit) => Err(Stop::Refused(Fault::Form(Kind::Composite))),
        Err(MakeFault::OutOfMemory) => Err(Stop::OutOfMemory),
    }
}

// A multiplier in a normal basis.
fn in_normal_basis<F: Field>(alloc: Global, field: &F, setting: &Setting) -> Result<Net, Stop>
    requires ready { IsReady (F.degree field.now) (F.product field.now) setting.now }
    requires wide { AreWide (F.degree field.now) setting.now.signature.words }
    ensures gives { GivesBy (λ net. net) result (MadeOf (setting_value (F.degree field.now) (F.product field.now) setting.now) Normal) ⊥ ⊥ }
    ensures plain { IfOk result (λ net. HasPlainNames net) }
{
    match first_element(setting.signature.words()) {
        Some(gamma) => in_basis_of(alloc, field, setting, gamma),
        None => Err(Stop::Refused(Fault::Form(Kind::Normal))),
    }
}

// The element whose normal basis the first word is in.
fn first_element(words: &[WordText]) -> Option<u64>
    ensures some { IfSome result (λ gamma. FirstIsNormal words.now gamma) }
    ensures none { IfNone result ((gamma : ℕ) → FirstIsNormal words.now gamma → ⊥) }
{
    match words {
        [word, ..] => element_of(&word.basis),
        [] => None,
    }
}

// The element of a normal basis.
fn element_of(text: &BasisText) -> Option<u64>
    ensures some { IfSome result (λ gamma. text.now ≡ text_basis.Normal gamma) }
    ensures none { IfNone result ((gamma : ℕ) → text.now ≡ text_basis.Normal gamma → ⊥) }
{
    match text {
        BasisText::Normal { gamma } => Some(*gamma),
        _ => None,
    }
}

// A multiplier in the normal basis of this element.
fn in_basis_of<F: Field>(
    alloc: Global,
    field: &F,
    setting: &Setting,
    gamma: u64,
) -> Result<Net, Stop>
    requires ready { IsReady (F.degree field.now) (F.product field.now) setting.now }
    requires wide { AreWide (F.degree field.now) setting.now.signature.words }
    requires first { FirstIsNormal setting.now.signature.words gamma }
    ensures gives { GivesBy (λ net. net) result (MadeOf (setting_value (F.degree field.now) (F.product field.now) setting.now) Normal) ⊥ ⊥ }
    ensures plain { IfOk result (λ net. HasPlainNames net) }
{
    match Basis::normal(field, gamma) {
        Ok(basis) => beside_basis(alloc, field, setting, gamma, &basis),
        Err(_) => Err(Stop::Refused(Fault::Form(Kind::Normal))),
    }
}

// A multiplier in this basis, which is that of the element.
fn beside_basis<F: Field>(
    alloc: Global,
    field: &F,
    setting: &Setting,
    _gamma: u64,
    basis: &Basis,
) -> Result<Net, Stop>
    requires ready { IsReady (F.degree field.now) (F.product field.now) setting.now }
    requires wide { AreWide (F.degree field.now) setting.now.signature.words }
    requires first { FirstIsNormal setting.now.signature.words _gamma }
    requires over { IsBasisOver (F.degree field.now) (F.product field.now) basis.now }
    requires small { _gamma < 2 ^ F.degree field.now }
    requires independent { IsIndependent (conjugates_of (F.degree field.now) (F.product field.now) _gamma) }
    requires elements { elements_of basis.now ≡ conjugates_of (F.degree field.now) (F.product field.now) _gamma }
    ensures gives { GivesBy (λ net. net) result (MadeOf (setting_value (F.degree field.now) (F.product field.now) setting.now) Normal) ⊥ ⊥ }
    ensures plain { IfOk result (λ net. HasPlainNames net) }
{
    match normal_serial(alloc, field, basis, &setting.signature) {
        Ok(net) => Ok(net),
        Err(MakeFault::Unfit) => Err(Stop::Refused(Fault::Form(Kind::Normal))),
        Err(MakeFault::OutOfMemory) => Err(Stop::OutOfMemory),
    }
}

// An adder.
fn in_any_basis<F: Field>(alloc: Global, field: &F, setting: &Setting) -> Result<Net, Stop>
    requires wide { AreWide (F.degree field.now) setting.now.signature.words }
    ensures gives { GivesBy (λ net. net) result (MadeOf (setting_value (F.degree field.now) (F.product field.now) setting.now) Adder) ⊥ ⊥ }
    ensures plain { IfOk result (λ net. HasPlainNames net) }
{
    match adder(alloc, field, &setting.signature) {
        Ok(net) => Ok(net),
        Err(MakeFault::Unfit) => Err(Stop::Refused(Fault::Form(Kind::Adder))),
        Err(MakeFault::OutOfMemory) => Err(Stop::OutOfMemory),
    }
}

// A multiplier that is fed digit by digit.
fn in_digits(alloc: Global, ring: &Proved<Ring2k>, setting: &Setting) -> Result<Net, Stop>
    requires ready { IsReady (any_degree (Base ring.now)) (any_product (Base ring.now)) setting.now }
    requires named { IsNamedBy setting.now.signature (Base ring.now) }
    ensures gives { GivesBy (λ net. net) result (MadeOf (setting_in (Base ring.now) setting.now) Digit) ⊥ ⊥ }
    ensures plain { IfOk result (λ net. HasPlainNames net) }
{
    match digit_serial(alloc, ring, &setting.signature) {
        Ok(net) => Ok(net),
        Err(MakeFault::Unfit) => Err(Stop::Refused(Fault::Form(Kind::Digit))),
        Err(MakeFault::OutOfMemory) => Err(Stop::OutOfMemory),
    }
}
