//! A law of the multiplier. The function does nothing: its contract is proved of the definitions alone.
ghost use Rattle.gf_field.specs.Ring2k.{degree_of, modulus_of};
ghost use Rattle.irreducible.specs.Proved.{ring_of};
ghost use Rattle.net_core.specs.NetList.{NetList};
ghost use Rattle.net_signature.specs.Signature.{SignatureValue};
ghost use Rattle.mult_digit.specs.ComputesFed.{HoldWideDigitSums};

use gf_field::Ring2k;
use irreducible::Proved;

/// After t cycles the latches of the product hold the sum of the digits of A that were fed so far, the t highest, times B.
pub fn latches_hold_the_sums(_ring: &Proved<Ring2k>)
    ensures { (signature : SignatureValue) (net : NetList) → HoldWideDigitSums (degree_of (ring_of _ring.now)) (modulus_of (ring_of _ring.now)) signature net }
{}
