//! The command `iso`: the isomorphism from a tower to a field of polynomials over 0 and 1.
ghost use Rattle.answer_core.specs.Replies.{Replies};
ghost use Rattle.std.specs.Prelude.{◌≡◌, ◌≤◌, ◌++◌, ◌∷◌, ◌^◌, [], IfOk, OnOk};
ghost use Rattle.gf_basis.specs.Basis.{first_values};
ghost use Rattle.gf_field.specs.Ring2k.{modulus_of};
ghost use Rattle.gf_iso.specs.IsoParts.{size_of, there_of};
ghost use Rattle.gf_tower.specs.TowerParts.{base_of, coefficients_of};
ghost use Rattle.gf_tower.specs.declared.any_field.AnyField.TheVariants.{Base};
ghost use Rattle.irreducible.specs.Proved.{ring_of};
ghost use Rattle.job_input.specs.Setting.{IsNamedBy};
ghost use Rattle.job_words.specs.Stop.{GivesBy};
ghost use Rattle.lift_table.specs.TableText.{value_lines};
ghost use Rattle.poly_mixed.specs.Text.{hex_text};
ghost use Rattle.answer_core.specs.Reply.{reply_of};
ghost use Rattle.answer_tables.specs.Iso.{IsoReply, IsoAnswer};

use answer_core::Output;
use gf_field::{Ring, Ring2k};
use gf_iso::Iso;
use gf_tower::{AnyField, Tower};
use irreducible::Proved;
use job_input::{NamedSetting, read_second};
use job_io::Shelf;
use job_words::{Fault, Stop};
use net_signature::Signature;
use std::alloc::{AllocError, Global};

/// What the command answers over a setting with the field that its signature names, and the file of its second signature.
pub fn answer<S: Shelf>(
    alloc: Global,
    named: &NamedSetting,
    file: &str,
    shelf: &mut S,
) -> Result<Output, Stop>
    ensures held { S.held shelf.new ≡ S.held shelf.old }
    ensures never_fall { (S.faults shelf.old ≤ S.faults shelf.new) × (S.misses shelf.old ≤ S.misses shelf.new) }
    ensures gives { Replies S.held S.misses S.faults shelf.old shelf.new result (λ held. IsoAnswer held named.now.setting.now.signature file.now) }
{
    let first = &named.setting.signature;
    match read_second(alloc, shelf, file) {
        Ok(second) => reply(alloc, first, named.field, &second.signature, &second.field),
        Err(stop) => Err(stop),
    }
}

// The images of the numbers 2^i, or fault 45 where the fields, which both signatures name, do not fit.
fn reply(
    alloc: Global,
    first: &Signature,
    field: &AnyField,
    second: &Signature,
    other: &AnyField,
) -> Result<Output, Stop>
    requires first { IsNamedBy first.now field.now }
    requires second { IsNamedBy second.now other.now }
    ensures { GivesBy reply_of result (IsoReply first.now second.now) ⊥ ⊥ }
{
    match field {
        AnyField::Base(big) => beside(alloc, first, big, second, other),
        AnyField::Tower(_) | AnyField::Upper(_) => Err(Stop::Refused(Fault::Fields)),
    }
}

// The images under the isomorphism to the first signature's field; fault 45 where the second has no tower of one step.
fn beside(
    alloc: Global,
    first: &Signature,
    big: &Proved<Ring2k>,
    second: &Signature,
    other: &AnyField,
) -> Result<Output, Stop>
    requires first { IsNamedBy first.now (Base big.now) }
    requires second { IsNamedBy second.now other.now }
    ensures { GivesBy reply_of result (IsoReply first.now second.now) ⊥ ⊥ }
{
    match other {
        AnyField::Tower(tower) => between(alloc, first, second, big, tower),
        AnyField::Base(_) | AnyField::Upper(_) => Err(Stop::Refused(Fault::Fields)),
    }
}

// The images under the isomorphism between the fields of both, where their degrees fit.
fn between(
    alloc: Global,
    _first: &Signature,
    _second: &Signature,
    big: &Proved<Ring2k>,
    tower: &Proved<Tower<Proved<Ring2k>>>,
) -> Result<Output, Stop>
    requires modulus { modulus_of (ring_of big.now) ≡ _first.now.modulus }
    requires no_tower { _first.now.tower ≡ [] }
    requires base { modulus_of (ring_of (base_of (ring_of tower.now))) ≡ _second.now.modulus }
    requires tower { coefficients_of (ring_of tower.now) ≡ _second.now.tower }
    requires one_step { _second.now.upper ≡ [] }
    ensures { GivesBy reply_of result (IsoReply _first.now _second.now) ⊥ ⊥ }
{
    match Iso::find(big, tower) {
        Ok(iso) => {
            let text = images(alloc, &iso, big.k())?;
            Ok(Output { status: 0, text })
        }
        Err(_) => Err(Stop::Refused(Fault::Fields)),
    }
}

// The lines of the images of the first numbers 2^i.
fn images(alloc: Global, iso: &Iso, k: u32) -> Result<Vec<u8>, AllocError>
    requires size { size_of iso.now ≡ k }
    requires small { k ≤ 64 }
    ensures { IfOk result (λ text. text.items ≡ value_lines (first_values k (λ i. there_of iso.now (2 ^ i)))) }
{
    let mut text = Vec::new(alloc);
    for i in 0..k {
        add_value(alloc, &mut text, iso.to_big(1 << i))?;
    }
    Ok(text)
}

// Appends the line of a value.
fn add_value(alloc: Global, text: &mut Vec<u8>, value: u64) -> Result<(), AllocError>
    ensures { OnOk result (text.new.items ≡ text.old.items ++ (hex_text value ++ (10 ∷ []))) }
{
    let number = format!(in alloc; "0x{value:x}\n")?;
    text.extend_from_slice(number.as_bytes())
}
