//! A job over the field of 4 elements, one of whose words is fed bit by bit, worked by hand.
ghost use Rattle.gf_basis.specs.BasisParts.{IsBasisOver};
ghost use Rattle.circuit_model.specs.Flat.{AreOver};

use crate::circuits::{field, net, word};
use circuit_model::{CircuitFeed, CircuitWord, FeedSource};
use gf_field::{Field, first_outside};
use net_core::Net;
use net_words::Role;
use plain_runs::job_output;
use std::alloc::{AllocError, Global};

// Nets 0 and 1 are a factor, and net 2 is fed the other one's bits; latches 3 and 4 hold the product so far.
const SERIAL: &[u8] = b"\
    .model serial\n\
    .inputs b0 b1 d\n\
    .outputs z0 z1\n\
    .names d b0 w0\n11 1\n\
    .names d b1 w1\n11 1\n\
    .names z1 w0 w2\n10 1\n01 1\n\
    .names z0 z1 w3\n10 1\n01 1\n\
    .names w3 w1 w4\n10 1\n01 1\n\
    .latch w2 z0 0\n\
    .latch w4 z1 0\n";

// The feed of net 2 in a cycle: the bit of the first word at a place.
fn fed(cycle: u32, place: u32) -> CircuitFeed {
    CircuitFeed {
        net: 2,
        cycle,
        source: FeedSource::Bit { word: 0, place },
    }
}

// Two elements, cycles, and the product so far. After two cycles the product stands in the latches. After one it is that
// of the highest bit, and after three it is taken times the root once more, since nothing is fed.
static PRODUCTS: [([u64; 2], u32, u64); 18] = [
    ([0, 0], 2, 0),
    ([0, 1], 2, 0),
    ([0, 2], 2, 0),
    ([0, 3], 2, 0),
    ([1, 0], 2, 0),
    ([1, 1], 2, 1),
    ([1, 2], 2, 2),
    ([1, 3], 2, 3),
    ([2, 0], 2, 0),
    ([2, 1], 2, 2),
    ([2, 2], 2, 3),
    ([2, 3], 2, 1),
    ([3, 0], 2, 0),
    ([3, 1], 2, 3),
    ([3, 2], 2, 1),
    ([3, 3], 2, 2),
    ([2, 3], 1, 3),
    ([1, 1], 3, 2),
];

// The product so far of two words, of which the first is fed, its highest bit first.
fn output_after<F: Field>(
    alloc: Global,
    field: &F,
    net: &Net,
    words: &[CircuitWord],
    to: &CircuitWord,
    xs: &[u64],
    cycles: u32,
) -> Result<Option<u64>, AllocError>
    requires words { AreOver (F.degree field.now) (F.product field.now) words.now }
    requires over { IsBasisOver (F.degree field.now) (F.product field.now) to.now.basis }
{
    if xs.len() != words.len() || first_outside(field, xs).is_some() {
        return Ok(None);
    }
    let feeds = [fed(0, 1), fed(1, 0)];
    job_output(alloc, field, net, words, to, &feeds, xs, cycles)
}

// Whether the products of these words are those of the table.
fn are_products<F: Field>(
    alloc: Global,
    field: &F,
    net: &Net,
    words: &[CircuitWord],
    to: &CircuitWord,
) -> Result<bool, AllocError>
    requires words { AreOver (F.degree field.now) (F.product field.now) words.now }
    requires over { IsBasisOver (F.degree field.now) (F.product field.now) to.now.basis }
{
    for (xs, cycles, want) in &PRODUCTS {
        if output_after(alloc, field, net, words, to, xs, *cycles)? != Some(*want) {
            return Ok(false);
        }
    }
    Ok(true)
}

// Whether the net multiplies.
fn multiplies<F: Field>(alloc: Global, field: &F, net: &Net) -> Result<bool, AllocError> {
    let first = word(alloc, field, Role::Fed, &[])?;
    let second = word(alloc, field, Role::Input, &[0, 1])?;
    let product = word(alloc, field, Role::Output, &[3, 4])?;
    are_products(alloc, field, net, &[first, second], &product)
}

#[test]
fn a_product_of_fed_bits(rt: HostRuntime) {
    let net = net(&rt, rt.alloc(), SERIAL);
    assert!(rt; matches!(multiplies(rt.alloc(), &field(&rt), &net), Ok(true)));
}
