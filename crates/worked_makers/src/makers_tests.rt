//! Signatures with the netlists that are made for them.
ghost use Rattle.std.specs.Prelude.{All, IsTrue, IfOk};
ghost use Rattle.net_write.specs.Plain.{HasPlainNames};
ghost use Rattle.mult_gen.specs.Form.{AreWide};
ghost use Rattle.worked_makers.specs.Wide.{IsWide};

use gf_field::{Ring, Ring2k};
use irreducible::Proved;
use mult_gen::{MakeFault, adder, mastrovito, squarer};
use net_core::Net;
use net_signature::{Signature, read_signature};
use net_words::{Role, WordText};
use net_write::write_blif;
use std::alloc::Global;
use std::test::Fail;

// What is made.
#[derive(Clone, Copy)]
enum Kind {
    Adder,
    Mastrovito,
    Squarer,
}

// Whether a word has k nets, or is fed.
fn is_wide(word: &WordText, k: u32) -> bool
    ensures { IsTrue result → IsWide k word.now }
{
    word.role == Role::Fed || word.nets.as_slice().len() == k as usize
}

// Whether all words have k nets, or are fed.
fn all_wide(words: &[WordText], k: u32) -> bool
    ensures { IsTrue result → All (IsWide k) words.now }
{
    words.iter().all(|word| is_wide(word, k))
}

// Whether each word that is not fed has k nets.
fn are_wide(words: &[WordText], k: u32) -> bool
    ensures { IsTrue result → AreWide k words.now }
{
    let wide = all_wide(words, k);
    wide
}

// The text of a net, or why there is none.
fn text_of(alloc: Global, made: Result<Net, MakeFault>) -> Result<Vec<u8>, Fail>
    requires { IfOk made (λ net. HasPlainNames net) }
{
    match made {
        Ok(net) => Ok(write_blif(alloc, &net)?),
        Err(MakeFault::Unfit) => Ok(Vec::from_slice(alloc, b"unfit")?),
        Err(MakeFault::OutOfMemory) => Ok(Vec::from_slice(alloc, b"out of memory")?),
    }
}

// The net that is made for a signature over its field.
fn made_over(
    alloc: Global,
    kind: Kind,
    ring: &Proved<Ring2k>,
    signature: &Signature,
) -> Result<Vec<u8>, Fail> {
    if ring.ring().modulus() != signature.modulus() || !are_wide(signature.words(), ring.k()) {
        return Ok(Vec::from_slice(alloc, b"not wide")?);
    }
    match kind {
        Kind::Adder => text_of(alloc, adder(alloc, ring, signature)),
        Kind::Mastrovito => text_of(alloc, mastrovito(alloc, ring, signature)),
        Kind::Squarer => text_of(alloc, squarer(alloc, ring, signature)),
    }
}

// The text of what is made for the signature of a text.
fn made(alloc: Global, kind: Kind, text: &[u8]) -> Result<Vec<u8>, Fail> {
    if text.len() > 67_108_864 {
        return Ok(Vec::from_slice(alloc, b"long")?);
    }
    let signature = read_signature(alloc, text)?;
    let ring = Ring2k::new(signature.modulus())?;
    match Proved::new(ring) {
        Ok(field) => made_over(alloc, kind, &field, &signature),
        Err(_) => Ok(Vec::from_slice(alloc, b"no field")?),
    }
}

#[test]
fn adders(rt: HostRuntime) -> Result<(), Fail> {
    for (text, wanted) in [
        (
            "gfsig 1\nfield 0x7\nword A input poly a0 a1\nword B input poly b0 b1\nword Z output poly z0 z1\n",
            ".model make\n.inputs a0 a1 b0 b1\n.outputs z0 z1\n.names a0 b0 z0\n10 1\n01 1\n.names a1 b1 z1\n10 1\n01 1\n.end\n",
        ),
        (
            "gfsig 1\nfield 0x7\nword Z output poly z0 wz\nword A input poly a0 a1\nword B input poly b0 b1\n",
            ".model make\n.inputs a0 a1 b0 b1\n.outputs z0 wz\n.names a0 b0 z0\n10 1\n01 1\n.names a1 b1 wz\n10 1\n01 1\n.end\n",
        ),
        (
            "gfsig 1\nfield 0x7\nword A input poly a0 a1\nword B input poly b0 b1\nword Z output list:0x1,0x2 z0 z1\n",
            "unfit",
        ),
    ] {
        let found = made(rt.alloc(), Kind::Adder, text.as_bytes())?;
        assert_eq!(rt; found.as_slice(), wanted.as_bytes(), "at {text}");
    }
    Ok(())
}

#[test]
fn multipliers(rt: HostRuntime) -> Result<(), Fail> {
    for (text, wanted) in [
        (
            "gfsig 1\nfield 0x7\nword A input poly a0 a1\nword B input poly b0 b1\nword Z output poly z0 z1\n",
            ".model make\n.inputs a0 a1 b0 b1\n.outputs z0 z1\n.names a0 b0 w0\n11 1\n.names a0 b1 w1\n11 1\n.names a1 b0 w2\n11 1\n.names a1 b1 w3\n11 1\n.names w0 w3 z0\n10 1\n01 1\n.names w1 w2 w4\n10 1\n01 1\n.names w4 w3 z1\n10 1\n01 1\n.end\n",
        ),
        (
            "gfsig 1\nfield 0x7\nword Z output poly z0 wz\nword A input poly a0 a1\nword B input poly b0 b1\n",
            ".model make\n.inputs a0 a1 b0 b1\n.outputs z0 wz\n.names a0 b0 ww0\n11 1\n.names a0 b1 ww1\n11 1\n.names a1 b0 ww2\n11 1\n.names a1 b1 ww3\n11 1\n.names ww0 ww3 z0\n10 1\n01 1\n.names ww1 ww2 ww4\n10 1\n01 1\n.names ww4 ww3 wz\n10 1\n01 1\n.end\n",
        ),
        (
            "gfsig 1\nfield 0x2\nword A input poly a\nword B input poly b\nword Z output poly z\n",
            ".model make\n.inputs a b\n.outputs z\n.names a b w0\n11 1\n.names w0 z\n1 1\n.end\n",
        ),
        (
            "gfsig 1\nfield 0x7\nword A input poly a0 a1\nword Z output poly z0 z1\n",
            "unfit",
        ),
        (
            "gfsig 1\nfield 0x7\nword A input poly a0 a1\nword B input poly b0 a0\nword Z output poly z0 z1\n",
            "unfit",
        ),
        (
            "gfsig 1\nfield 0x7\nword A state poly a0 a1\nword B input poly b0 b1\nword Z output poly z0 z1\n",
            "unfit",
        ),
        (
            "gfsig 2\nfield 0x7\nword A fed poly\nword B input poly b0 b1\nword Z output poly z0 z1\nfeed d 0 A[1]\nfeed d 1 A[0]\n",
            "unfit",
        ),
    ] {
        let found = made(rt.alloc(), Kind::Mastrovito, text.as_bytes())?;
        assert_eq!(rt; found.as_slice(), wanted.as_bytes(), "at {text}");
    }
    Ok(())
}

#[test]
fn squarers(rt: HostRuntime) -> Result<(), Fail> {
    for (text, wanted) in [
        (
            "gfsig 1\nfield 0x7\nword A input poly a0 a1\nword Z output poly z0 z1\n",
            ".model make\n.inputs a0 a1\n.outputs z0 z1\n.names a0 a1 z0\n10 1\n01 1\n.names a1 z1\n1 1\n.end\n",
        ),
        (
            "gfsig 1\nfield 0xb\nword A input poly a0 a1 a2\nword Z output poly z0 z1 z2\n",
            ".model make\n.inputs a0 a1 a2\n.outputs z0 z1 z2\n.names a0 z0\n1 1\n.names a2 z1\n1 1\n.names a1 a2 z2\n10 1\n01 1\n.end\n",
        ),
        (
            "gfsig 1\nfield 0x7\nword A input list:0x1,0x2 a0 a1\nword Z output poly z0 z1\n",
            "unfit",
        ),
        (
            "gfsig 1\nfield 0x7\nword A input poly a0 a1\nword Z output poly z0 z1\nblock m\nword A input poly a0 a1\nword Z output poly z0 z1\n",
            "unfit",
        ),
    ] {
        let found = made(rt.alloc(), Kind::Squarer, text.as_bytes())?;
        assert_eq!(rt; found.as_slice(), wanted.as_bytes(), "at {text}");
    }
    Ok(())
}
