//! A field of polynomials over 0 and 1.
ghost use Rattle.std.specs.Prelude.{◌≡◌, [], IfErr, IfOk};
ghost use Rattle.outcome.specs.Outcome.{Within};
ghost use Rattle.gf_field.specs.Ring2k.{degree_of, modulus_of};
ghost use Rattle.irreducible.specs.Proved.{ring_of};
ghost use Rattle.job_words.specs.Stop.{GivesBy};
ghost use Rattle.job_words.specs.declared.signature_fault.SignatureFault.{SignatureFault};
ghost use Rattle.job_words.specs.declared.stop.Stop.TheVariants.{Refused};
ghost use Rattle.job_words.specs.declared.fault.Fault.TheVariants.{Signature};
ghost use Rattle.job_input.specs.FieldOf.{FieldOf, base_field};

use crate::signed::{field_fault, refused};
use gf_field::Ring2k;
use gf_tower::AnyField;
use irreducible::Proved;
use job_words::Stop;

/// The field of the polynomials modulo this one, bit i of which is the coefficient of x^i, or the refusal of a signature that
/// names it. It takes no memory.
pub fn field_of_modulus(modulus: u128) -> Result<Proved<Ring2k>, Stop>
    ensures gives { GivesBy (λ ring. base_field (degree_of (ring_of ring)) (modulus_of (ring_of ring))) result (Within Signature (FieldOf modulus [] [])) ⊥ ⊥ }
    ensures refused { IfErr result (λ stop. (fault : SignatureFault) × (stop ≡ Refused (Signature fault))) }
    ensures modulus { IfOk result (λ ring. modulus_of (ring_of ring) ≡ modulus) }
{
    match AnyField::new(modulus, &[], &[]) {
        Ok(AnyField::Base(ring)) => Ok(ring),
        Ok(AnyField::Tower(_)) => unreachable!(),
        Ok(AnyField::Upper(_)) => unreachable!(),
        Err(fault) => Err(refused(field_fault(fault))),
    }
}
