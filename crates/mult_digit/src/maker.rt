//! The multiplier that takes one factor digit by digit: its products, sums, latches and nets put together.
ghost use Rattle.std.specs.Prelude.{◌≡◌, ◌≤◌, IfOk, OnOk, IsErrOf, IfSome, IsSome, length};
ghost use Rattle.gf_field.specs.Ring2k.{degree_of, modulus_of};
ghost use Rattle.irreducible.specs.Proved.{ring_of};
ghost use Rattle.net_core.specs.Sound.{IsSound};
ghost use Rattle.net_words.specs.declared.word.Role.TheVariants.{Output};
ghost use Rattle.net_write.specs.Plain.{HasPlainNames};
ghost use Rattle.make_nets.specs.MadeNet.{outer_net};
ghost use Rattle.make_nets.specs.MakerNames.{AreMakerNames};
ghost use Rattle.make_nets.specs.Ports.{outer_names, role_nets as nets_of_role, word_names};
ghost use Rattle.mult_gen.specs.Form.{AreWide};
ghost use Rattle.mult_digit.specs.DigitForm.{AreDigitWords, HasDigitForm, fed_names};
ghost use Rattle.mult_digit.specs.private.Front.{IsFront};
ghost use Rattle.mult_digit.specs.private.WordSums.{sums_modulo};
ghost use Rattle.mult_digit.specs.DigitNet.{net_modulo};
ghost use Rattle.mult_digit.specs.IsDigitNet.{IsDigitNetModulo};
ghost use Rattle.mult_digit.specs.ComputesFed.{ComputesDigitsModulo};

use crate::form::{are_words, width_of};
use crate::held::{digit_nets, latches};
use crate::sums::digit_sums;
use gf_field::{Ring, Ring2k};
use irreducible::Proved;
use make_nets::{PlanMaker, count_of, make, outer_nets, role_nets};
use mult_gen::{MakeFault, indeterminate};
use net_core::{Net, NetMaker};
use net_signature::Signature;
use net_words::{FeedText, Role, WordText};
use std::alloc::{AllocError, Global};

// The gates over these words, whose nets are the first ones, and the nets of the sums that the nets z take.
fn word_sums(
    alloc: Global,
    ring: &Proved<Ring2k>,
    words: &[WordText],
    first: u32,
    width: u32,
    z: &[u32],
) -> Result<(PlanMaker, Vec<u32>), AllocError>
    requires words { AreDigitWords words.now }
    requires wide { AreWide (degree_of (ring_of ring.now)) words.now }
    requires narrow { width ≤ degree_of (ring_of ring.now) }
    requires first { first ≡ length (word_names words.now) }
    requires z { z.now ≡ nets_of_role Output 0 words.now }
    ensures plan { IfOk result (λ pair. pair.0 ≡ (sums_modulo (degree_of (ring_of ring.now)) (modulus_of (ring_of ring.now)) width words.now).plan) }
    ensures nets { IfOk result (λ pair. pair.1.items ≡ (sums_modulo (degree_of (ring_of ring.now)) (modulus_of (ring_of ring.now)) width words.now).nets) }
{
    let d = digit_nets(alloc, first, width)?;
    let b = role_nets(alloc, words, Role::Input)?;
    let x = indeterminate(ring);
    digit_sums(alloc, ring, x, first + width, &d, &b, z)
}

// The net over these words and the nets that the lines of the first cycle feed; all these nets were made.
fn made(
    alloc: Global,
    ring: &Proved<Ring2k>,
    maker: NetMaker,
    words: &[WordText],
    front: &[FeedText],
) -> Result<Net, AllocError>
    requires words { AreDigitWords words.now }
    requires wide { AreWide (degree_of (ring_of ring.now)) words.now }
    requires narrow { length front.now ≤ degree_of (ring_of ring.now) }
    requires names { AreMakerNames (outer_names words.now (fed_names front.now)) }
    requires maker { maker ≡ outer_net (outer_names words.now (fed_names front.now)) }
    ensures { IfOk result (λ net. net ≡ net_modulo (degree_of (ring_of ring.now)) (modulus_of (ring_of ring.now)) (length front.now) words.now (fed_names front.now)) }
{
    let width = front.len() as u32;
    let outputs = role_nets(alloc, words, Role::Output)?;
    let z = outputs.as_slice();
    let (plan, sums) = word_sums(alloc, ring, words, count_of(words), width, z)?;
    let list = latches(alloc, sums.as_slice(), z)?;
    make(alloc, maker, words, front, list.as_slice(), &plan)
}

// The number of bits of a digit, where the signature has the form but for the names of its nets.
fn digit_width(k: u32, signature: &Signature) -> Option<u32>
    requires some { 1 ≤ k }
    requires few { k ≤ 64 }
    ensures some { IfSome result (λ width. IsFront k width signature.now) }
    ensures none { HasDigitForm k signature.now → IsSome result }
{
    if !signature.tower().is_empty() || !signature.upper().is_empty() {
        return None;
    }
    if !signature.blocks().is_empty() || !are_words(signature.words()) {
        return None;
    }
    width_of(k, signature.feeds())
}

// The net over these words and the nets that the lines of the first cycle feed, where the names of these nets fit.
fn over(
    alloc: Global,
    ring: &Proved<Ring2k>,
    words: &[WordText],
    front: &[FeedText],
) -> Result<Net, MakeFault>
    requires words { AreDigitWords words.now }
    requires wide { AreWide (degree_of (ring_of ring.now)) words.now }
    requires narrow { length front.now ≤ degree_of (ring_of ring.now) }
    ensures made { IfOk result (λ net. net ≡ net_modulo (degree_of (ring_of ring.now)) (modulus_of (ring_of ring.now)) (length front.now) words.now (fed_names front.now)) }
    ensures names { OnOk result (AreMakerNames (outer_names words.now (fed_names front.now))) }
    ensures unfit { IsErrOf result MakeFault.Unfit → AreMakerNames (outer_names words.now (fed_names front.now)) → ⊥ }
{
    match outer_nets(alloc, words, front)? {
        Some(maker) => {
            let net = made(alloc, ring, maker, words, front)?;
            Ok(net)
        }
        None => Err(MakeFault::Unfit),
    }
}

/// The multiplier that takes its first factor digit by digit, the highest digit first: `A * B` stands in the output word after
/// k / D cycles, where digits have D bits. The words are A, which is fed and has no nets, the input B and the output, all by
/// `poly`, over a field without a tower, with feeds of the digits and no block; their nets and the fed ones are different and
/// have plain names of at most 128 bytes. Else it is `Unfit`.
/// The degree of the field is that of the signature, and each word that is not fed has as many nets as this degree.
pub fn digit_serial(
    alloc: Global,
    ring: &Proved<Ring2k>,
    signature: &Signature,
) -> Result<Net, MakeFault>
    requires wide { AreWide (degree_of (ring_of ring.now)) signature.now.words }
    ensures made { IfOk result (λ net. IsDigitNetModulo (degree_of (ring_of ring.now)) (modulus_of (ring_of ring.now)) signature.now net) }
    ensures sound { IfOk result (λ net. IsSound net) }
    ensures plain { IfOk result (λ net. HasPlainNames net) }
    ensures computes { IfOk result (λ net. ComputesDigitsModulo (degree_of (ring_of ring.now)) (modulus_of (ring_of ring.now)) signature.now net) }
    ensures form { OnOk result (HasDigitForm (degree_of (ring_of ring.now)) signature.now) }
    ensures unfit { IsErrOf result MakeFault.Unfit → HasDigitForm (degree_of (ring_of ring.now)) signature.now → ⊥ }
{
    let width = match digit_width(ring.k(), signature) {
        Some(width) => width,
        None => return Err(MakeFault::Unfit),
    };
    let front = &signature.feeds()[..width as usize];
    match over(alloc, ring, signature.words(), front) {
        Ok(net) => Ok(net),
        Err(fault) => Err(fault),
    }
}
