//! The second of two signatures.
ghost use Rattle.std.specs.Prelude.{◌≡◌, ◌≤◌, IfOk};
ghost use Rattle.job_words.specs.Stop.{GivesBy};
ghost use Rattle.job_input.specs.Reads.{GivesOver};
ghost use Rattle.job_input.specs.SettingOf.{signed_over};
ghost use Rattle.job_input.specs.SignedIn.{SecondIn, SecondOf};
ghost use Rattle.job_input.specs.Setting.{any_degree, any_product, signed_value, second_stop as stop_of_second, AreSaid, IsNamedBy};

use crate::setting::setting_over;
use crate::signed::{Signed, read_signed};
use gf_field::Field;
use gf_tower::AnyField;
use job_io::Shelf;
use job_words::{Fault, Stop};
use net_signature::Signature;
use std::alloc::Global;

/// The second signature of a job with its field, which is judged as the first, or its first fault.
pub fn read_second<S: Shelf>(alloc: Global, shelf: &mut S, file: &str) -> Result<Signed, Stop>
    ensures held { S.held shelf.new ≡ S.held shelf.old }
    ensures never_fall { (S.faults shelf.old ≤ S.faults shelf.new) × (S.misses shelf.old ≤ S.misses shelf.new) }
    ensures gives { GivesOver S.held S.misses S.faults shelf.old shelf.new (λ signed. signed.signature) result (λ held. SecondIn held file.now) }
    ensures named { IfOk result (λ signed. IsNamedBy signed.signature signed.field) }
{
    match read_signed(alloc, shelf, file) {
        Ok(signed) => judged(alloc, signed),
        Err(stop) => Err(second_stop(stop)),
    }
}

// A second signature with its field, whose words must have bases.
fn judged(alloc: Global, signed: Signed) -> Result<Signed, Stop>
    requires said { AreSaid signed.signature }
    requires named { IsNamedBy signed.signature signed.field }
    ensures gives { GivesBy (λ signed. signed.signature) result (SecondOf (signed_value signed)) ⊥ ⊥ }
    ensures named { IfOk result (λ signed. IsNamedBy signed.signature signed.field) }
{
    let Signed { signature, field } = signed;
    match judged_in(alloc, &field, signature) {
        Ok(signature) => Ok(Signed { signature, field }),
        Err(stop) => Err(stop),
    }
}

// A second signature in its field, where its words have bases.
fn judged_in(alloc: Global, field: &AnyField, signature: Signature) -> Result<Signature, Stop>
    requires { AreSaid signature }
    ensures gives { GivesBy (λ signature. signature) result (SecondOf (signed_over (any_degree field.now) (any_product field.now) signature)) ⊥ ⊥ }
    ensures own { IfOk result (λ own. own ≡ signature) }
{
    match field {
        AnyField::Base(field) => judged_over(alloc, field, signature),
        AnyField::Tower(field) => judged_over(alloc, field, signature),
        AnyField::Upper(field) => judged_over(alloc, field, signature),
    }
}

// A second signature over its field, where its words have bases.
fn judged_over<F: Field>(alloc: Global, field: &F, signature: Signature) -> Result<Signature, Stop>
    requires { AreSaid signature }
    ensures gives { GivesBy (λ signature. signature) result (SecondOf (signed_over (F.degree field.now) (F.product field.now) signature)) ⊥ ⊥ }
    ensures own { IfOk result (λ own. own ≡ signature) }
{
    match setting_over(alloc, field, signature) {
        Ok(setting) => Ok(setting.signature),
        Err(stop) => Err(second_stop(stop)),
    }
}

// A stop of the second signature.
fn second_stop(stop: Stop) -> Stop
    ensures { result ≡ stop_of_second stop }
{
    match stop {
        Stop::Refused(Fault::Signature(fault)) => Stop::Refused(Fault::SecondSignature(fault)),
        other => other,
    }
}
