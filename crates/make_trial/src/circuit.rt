//! The circuit of a trial.
ghost use Rattle.std.specs.Prelude.{◌≡◌, IfOk};
ghost use Rattle.gf_field.specs.Bit.{bit_mul};
ghost use Rattle.gf_field.specs.Quotient.{product};
ghost use Rattle.gf_field.specs.Ring2k.{degree_of, modulus_of};
ghost use Rattle.irreducible.specs.Proved.{ring_of};
ghost use Rattle.job_input.specs.Setting.{IsReady, IsTakenFor};
ghost use Rattle.net_words.specs.BoundTo.{IsBoundTo};
ghost use Rattle.net_words.specs.declared.binding.BindFault.TheVariants.{OutOfMemory};
ghost use Rattle.make_trial.specs.TwoInputs.{two_inputs as signature_of_two};
ghost use Rattle.make_trial.specs.Trial.{trial_circuit as circuit_of, trial_net};

use crate::place::{trial_index, trial_place};
use gf_field::{Ring, Ring2k};
use irreducible::Proved;
use job_input::Setting;
use mult_gen::{MakeFault, mastrovito, mutate};
use net_core::Net;
use net_signature::Signature;
use net_words::{BindFault, Bound, Combinational, bind};
use std::alloc::{AllocError, Global};
use unroll::{UnrollFault, unroll};

// The multiplier with the bit turned over.
fn turned_net(
    alloc: Global,
    ring: &Proved<Ring2k>,
    signature: &Signature,
    number: u64,
) -> Result<Net, AllocError>
    requires { signature.now ≡ signature_of_two (degree_of (ring_of ring.now)) (modulus_of (ring_of ring.now)) }
    ensures { IfOk result (λ net. net ≡ trial_net (degree_of (ring_of ring.now)) (modulus_of (ring_of ring.now)) number) }
{
    let position = trial_place(ring.k(), number);
    let index = trial_index(ring.k(), number);
    match mastrovito(alloc, ring, signature) {
        Ok(net) => Ok(mutate(net, position, index)),
        Err(MakeFault::OutOfMemory) => Err(AllocError),
        Err(MakeFault::Unfit) => unreachable!(),
    }
}

// The words on its nets.
fn binding(
    alloc: Global,
    ring: &Proved<Ring2k>,
    signature: &Signature,
    net: &Net,
    _number: u64,
) -> Result<Bound, AllocError>
    requires signature { signature.now ≡ signature_of_two (degree_of (ring_of ring.now)) (modulus_of (ring_of ring.now)) }
    requires net { net.now ≡ trial_net (degree_of (ring_of ring.now)) (modulus_of (ring_of ring.now)) _number }
    ensures value { IfOk result (λ bound. bound ≡ (circuit_of (degree_of (ring_of ring.now)) (modulus_of (ring_of ring.now)) _number).binding) }
    ensures bound { IfOk result (λ bound. IsBoundTo net.now bound) }
{
    let _k = ring.k();
    match bind(alloc, signature.words(), signature.feeds(), net) {
        Ok(bound) => Ok(bound),
        Err(fault) => Err(want_of_memory(fault)),
    }
}

// The words bind.
fn want_of_memory(fault: BindFault) -> AllocError
    requires { fault ≡ OutOfMemory }
{
    match fault {
        BindFault::OutOfMemory => AllocError,
        _ => unreachable!(),
    }
}

/// The multiplier of a trial with the bit of this number turned over, to whose nets the words are bound.
pub fn trial_circuit(
    alloc: Global,
    ring: &Proved<Ring2k>,
    setting: &Setting,
    number: u64,
) -> Result<Combinational, AllocError>
    requires signature { setting.now.signature ≡ signature_of_two (degree_of (ring_of ring.now)) (modulus_of (ring_of ring.now)) }
    requires ready { IsReady (degree_of (ring_of ring.now)) (product 1 (degree_of (ring_of ring.now)) bit_mul (modulus_of (ring_of ring.now))) setting.now }
    ensures circuit { IfOk result (λ circuit. circuit ≡ circuit_of (degree_of (ring_of ring.now)) (modulus_of (ring_of ring.now)) number) }
    ensures taken { IfOk result (λ circuit. IsTakenFor (degree_of (ring_of ring.now)) setting.now circuit) }
{
    let net = turned_net(alloc, ring, &setting.signature, number)?;
    let bound = binding(alloc, ring, &setting.signature, &net, number)?;
    match unroll(alloc, net, bound, 0) {
        Ok(circuit) => Ok(circuit),
        Err(UnrollFault::OutOfMemory) => Err(AllocError),
        Err(UnrollFault::TooManyNets) => unreachable!(),
        Err(UnrollFault::TooManyGates) => unreachable!(),
    }
}
