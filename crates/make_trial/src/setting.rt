//! The setting of a trial.
ghost use Rattle.std.specs.Prelude.{◌≡◌, IfOk};
ghost use Rattle.gf_field.specs.Bit.{bit_mul};
ghost use Rattle.gf_field.specs.Quotient.{product};
ghost use Rattle.gf_field.specs.Ring2k.{degree_of, modulus_of};
ghost use Rattle.irreducible.specs.Proved.{ring_of};
ghost use Rattle.job_words.specs.declared.stop.Stop.TheVariants.{OutOfMemory};
ghost use Rattle.job_input.specs.Setting.{IsReady};
ghost use Rattle.make_trial.specs.Trial.{IsTrialSetting};

use crate::inputs::two_inputs;
use gf_field::{Ring, Ring2k};
use irreducible::Proved;
use job_input::{Setting, setting_over};
use job_words::Stop;
use std::alloc::{AllocError, Global};

/// The setting over this field: input words A and B and an output word Z in the basis of powers.
pub fn trial_setting(alloc: Global, ring: &Proved<Ring2k>) -> Result<Setting, AllocError>
    ensures value { IfOk result (λ setting. IsTrialSetting (degree_of (ring_of ring.now)) (modulus_of (ring_of ring.now)) setting) }
    ensures ready { IfOk result (λ setting. IsReady (degree_of (ring_of ring.now)) (product 1 (degree_of (ring_of ring.now)) bit_mul (modulus_of (ring_of ring.now))) setting) }
{
    let signature = two_inputs(alloc, ring.k(), ring.ring().modulus())?;
    match setting_over(alloc, ring, signature) {
        Ok(setting) => Ok(setting),
        Err(stop) => Err(want_of_memory(stop)),
    }
}

// Nothing of it is refused.
fn want_of_memory(stop: Stop) -> AllocError
    requires { stop ≡ OutOfMemory }
{
    match stop {
        Stop::OutOfMemory => AllocError,
        _ => unreachable!(),
    }
}
