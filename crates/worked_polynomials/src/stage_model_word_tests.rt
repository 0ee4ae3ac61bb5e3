//! A conjunction over the field of 4 elements, whose word is replaced bit by bit.
ghost use Rattle.std.specs.Prelude.{◌≡◌, ◌≤◌, length};
ghost use Rattle.gf_basis.specs.BasisParts.{IsBasisOver};
ghost use Rattle.poly_mixed.specs.Polynomial.{IsReduced};
ghost use Rattle.circuit_model.specs.Flat.{AreOver};

use crate::circuits::{field, net, word};
use circuit_model::CircuitWord;
use gf_field::Field;
use net_core::Net;
use net_words::Role;
use plain_runs::{cut_poly, word_product, word_sum};
use poly_mixed::Poly;
use std::alloc::{AllocError, Global};

// Nets 0 and 1 are the word, 2 and 3 the output: the product of both bits, and 0.
const CONJUNCTION: &[u8] = b".model conjunction\n.inputs a0 a1\n.names a0 a1 z0\n11 1\n.names z1\n";

// The number of a term and a place, and the sizes of the product stage and of the sum stage; none where there is no such
// stage. The conjunction of both bits is A^3 + 3 A^2 + 2 A: the first bit has 2 terms, and both 3.
static SIZES: [(u32, u32, Option<usize>, Option<usize>); 4] = [
    (1, 1, Some(2), Some(3)),
    (1, 2, Some(3), Some(3)),
    (1, 3, None, Some(3)),
    (2, 1, None, None),
];

// How many terms there are.
fn size(poly: &Option<Poly>) -> Option<usize> {
    match poly {
        Some(poly) => Some(poly.len()),
        None => None,
    }
}

// Whether the stages of a term and a place have these sizes.
fn have_sizes<F: Field>(
    alloc: Global,
    field: &F,
    words: &[CircuitWord],
    before: &Poly,
    row: &(u32, u32, Option<usize>, Option<usize>),
) -> Result<bool, AllocError>
    requires over { AreOver (F.degree field.now) (F.product field.now) words.now }
    requires few { length words.now ≤ 8 }
    requires before { IsReduced (F.degree field.now) before.now.terms }
{
    let (term, bit, product, sum) = *row;
    let of_product = word_product(alloc, field, words, before, 0, term, bit)?;
    let of_sum = word_sum(alloc, field, words, before, 0, term)?;
    Ok(size(&of_product) == product && size(&of_sum) == sum)
}

// Whether the stages of a polynomial have the sizes of the table.
fn are_sizes<F: Field>(
    alloc: Global,
    field: &F,
    words: &[CircuitWord],
    before: &Poly,
) -> Result<bool, AllocError>
    requires over { AreOver (F.degree field.now) (F.product field.now) words.now }
    requires few { length words.now ≤ 8 }
    requires before { IsReduced (F.degree field.now) before.now.terms }
{
    for row in &SIZES {
        if !have_sizes(alloc, field, words, before, row)? {
            return Ok(false);
        }
    }
    Ok(true)
}

// Whether those of the last cut have.
fn of_last_cut<F: Field>(
    alloc: Global,
    field: &F,
    net: &Net,
    words: &[CircuitWord],
    to: &CircuitWord,
) -> Result<bool, AllocError>
    requires words { AreOver (F.degree field.now) (F.product field.now) words.now }
    requires few { length words.now ≤ 8 }
    requires over { IsBasisOver (F.degree field.now) (F.product field.now) to.now.basis }
    requires nets { length to.now.nets.items ≡ F.degree field.now }
{
    if net.gates().len() != 2 {
        return Ok(false);
    }
    match cut_poly(alloc, field, net, words, to, 2)? {
        Some(before) => are_sizes(alloc, field, words, &before),
        None => Ok(false),
    }
}

// Whether the stages of the last cut of the conjunction have these sizes.
fn of_conjunction<F: Field>(alloc: Global, field: &F, net: &Net) -> Result<bool, AllocError> {
    if field.k() != 2 {
        return Ok(false);
    }
    let word_a = word(alloc, field, Role::Input, &[0, 1])?;
    let to = word(alloc, field, Role::Output, &[2, 3])?;
    of_last_cut(alloc, field, net, &[word_a], &to)
}

#[test]
fn sizes_of_word_stages(rt: HostRuntime) {
    let net = net(&rt, rt.alloc(), CONJUNCTION);
    assert!(rt; matches!(of_conjunction(rt.alloc(), &field(&rt), &net), Ok(true)));
}
