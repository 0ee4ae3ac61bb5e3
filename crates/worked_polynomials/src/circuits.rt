//! The field of 4 elements, nets over it and their words, for the tests of this crate.
ghost use Rattle.std.specs.Prelude.{◌≡◌, IfOk};
ghost use Rattle.gf_basis.specs.BasisParts.{IsBasisOver};
ghost use Rattle.circuit_model.specs.Flat.{AreOver};

use circuit_model::{CircuitWord, output};
use gf_basis::Basis;
use gf_field::{Field, Ring2k, first_outside};
use irreducible::Proved;
use net_blif::read_blif;
use net_core::Net;
use net_flat::flatten;
use net_words::Role;
use std::alloc::{AllocError, Global};
use std::process::Abort;

// A field that is known to exist.
pub(crate) fn field_of(rt: &impl Abort, modulus: u128) -> Proved<Ring2k> {
    let ring = Ring2k::new(modulus).expect(rt, "a modulus");
    Proved::new(ring).ok().expect(rt, "a field")
}

// The field of 4 elements, whose element 2 is a root of x^2 + x + 1.
pub(crate) fn field(rt: &impl Abort) -> Proved<Ring2k> {
    field_of(rt, 0x7)
}

// The net of a model in BLIF, whose nets are numbered as the text mentions them first.
fn net_of(alloc: Global, text: &[u8]) -> Option<Net> {
    if text.len() > 1000 {
        return None;
    }
    match read_blif(alloc, text) {
        Ok(design) => flatten(alloc, &design, 0).ok(),
        Err(_) => None,
    }
}

// The net of a model in BLIF that has one.
pub(crate) fn net(rt: &impl Abort, alloc: Global, text: &[u8]) -> Net {
    net_of(alloc, text).expect(rt, "a net")
}

// Nets 0 and 1 are the first factor, 2 and 3 the second, 4 and 5 the product, 6 to 9 the products of bits.
pub(crate) const MULTIPLIER: &[u8] = b"\
    .model multiplier\n\
    .inputs a0 a1 b0 b1\n\
    .outputs z0 z1\n\
    .names a0 b0 p0\n11 1\n\
    .names a0 b1 p1\n11 1\n\
    .names a1 b0 p2\n11 1\n\
    .names a1 b1 p3\n11 1\n\
    .names p0 p3 z0\n10 1\n01 1\n\
    .names p1 p2 t\n10 1\n01 1\n\
    .names t p3 z1\n10 1\n01 1\n";

// A word with the polynomial basis.
pub(crate) fn word<F: Field>(
    alloc: Global,
    field: &F,
    role: Role,
    nets: &[u32],
) -> Result<CircuitWord, AllocError>
    ensures over { IfOk result (λ w. IsBasisOver (F.degree field.now) (F.product field.now) w.basis) }
    ensures nets { IfOk result (λ w. w.nets.items ≡ nets.now) }
{
    Ok(CircuitWord {
        role,
        nets: nets.to_vec(alloc)?,
        basis: Basis::poly(field),
    })
}

// Two input words with the polynomial basis.
pub(crate) fn two_words<F: Field>(
    alloc: Global,
    field: &F,
    nets: [&[u32]; 2],
) -> Result<[CircuitWord; 2], AllocError>
    ensures { IfOk result (λ words. AreOver (F.degree field.now) (F.product field.now) words) }
{
    let first = word(alloc, field, Role::Input, nets[0])?;
    let second = word(alloc, field, Role::Input, nets[1])?;
    Ok([first, second])
}

// The output of a net without latches at elements, one for each word; none where they are not, as where words do not fit.
pub(crate) fn output_at<F: Field>(
    alloc: Global,
    field: &F,
    net: &Net,
    words: &[CircuitWord],
    to: &CircuitWord,
    xs: &[u64],
) -> Result<Option<u64>, AllocError>
    requires words { AreOver (F.degree field.now) (F.product field.now) words.now }
    requires over { IsBasisOver (F.degree field.now) (F.product field.now) to.now.basis }
{
    if xs.len() != words.len() || first_outside(field, xs).is_some() {
        return Ok(None);
    }
    match net.latches() {
        [] => output(alloc, field, net, words, to, xs),
        _ => Ok(None),
    }
}
