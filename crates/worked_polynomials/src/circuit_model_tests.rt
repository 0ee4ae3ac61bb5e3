//! Circuits over the field of 4 elements, worked by hand.
ghost use Rattle.std.specs.Prelude.{IfOk};
ghost use Rattle.gf_basis.specs.BasisParts.{IsBasisOver};
ghost use Rattle.circuit_model.specs.Flat.{AreOver};

use crate::circuits::{MULTIPLIER, field, net, output_at, two_words};
use circuit_model::CircuitWord;
use gf_basis::Basis;
use gf_field::Field;
use net_core::Net;
use net_words::Role;
use std::alloc::{AllocError, Global};
use std::process::Abort;

// Two input words and an output word over a net, the output's basis (that of an element and its square where they are
// one, else the polynomial basis), and outputs at two elements each.
struct Row {
    model: &'static [u8],
    inputs: [&'static [u32]; 2],
    output: &'static [u32],
    element: u64,
    outputs: &'static [([u64; 2], Option<u64>)],
}

// Nets 0 and 1 are a factor and 2 and 3 another, which nothing reads; 5 is 1. Net 4 drives 6, which leads nowhere.
const WIRES: &[u8] = b"\
    .model wires\n\
    .inputs a0 a1 b0 b1 u\n\
    .names one\n1\n\
    .names u t\n1 1\n";

static ROWS: [Row; 6] = [
    // Products of elements.
    Row {
        model: MULTIPLIER,
        inputs: [&[0, 1], &[2, 3]],
        output: &[4, 5],
        element: 0,
        outputs: &[
            ([0, 0], Some(0)),
            ([0, 1], Some(0)),
            ([0, 2], Some(0)),
            ([0, 3], Some(0)),
            ([1, 0], Some(0)),
            ([1, 1], Some(1)),
            ([1, 2], Some(2)),
            ([1, 3], Some(3)),
            ([2, 0], Some(0)),
            ([2, 1], Some(2)),
            ([2, 2], Some(3)),
            ([2, 3], Some(1)),
            ([3, 0], Some(0)),
            ([3, 1], Some(3)),
            ([3, 2], Some(1)),
            ([3, 3], Some(2)),
        ],
    },
    // A word on a gate's output, a net in two words, and a word with a net too few have no output.
    Row {
        model: MULTIPLIER,
        inputs: [&[0, 1], &[2, 9]],
        output: &[4, 5],
        element: 0,
        outputs: &[([0, 3], None)],
    },
    Row {
        model: MULTIPLIER,
        inputs: [&[0, 1], &[1, 3]],
        output: &[4, 5],
        element: 0,
        outputs: &[([2, 2], None)],
    },
    Row {
        model: MULTIPLIER,
        inputs: [&[0, 1], &[2, 3]],
        output: &[4],
        element: 0,
        outputs: &[([1, 1], None)],
    },
    // An output bit that is an input, and one that is 1.
    Row {
        model: WIRES,
        inputs: [&[0, 1], &[2, 3]],
        output: &[0, 5],
        element: 0,
        outputs: &[
            ([0, 1], Some(2)),
            ([1, 1], Some(3)),
            ([2, 1], Some(2)),
            ([3, 1], Some(3)),
        ],
    },
    // A factor read in the basis 2, 3 is twice the factor.
    Row {
        model: WIRES,
        inputs: [&[0, 1], &[2, 3]],
        output: &[0, 1],
        element: 2,
        outputs: &[
            ([0, 0], Some(0)),
            ([1, 0], Some(2)),
            ([2, 0], Some(3)),
            ([3, 0], Some(1)),
        ],
    },
];

// The output word of a row.
fn output_word<F: Field>(alloc: Global, field: &F, row: &Row) -> Result<CircuitWord, AllocError>
    ensures { IfOk result (λ w. IsBasisOver (F.degree field.now) (F.product field.now) w.basis) }
{
    let basis = match Basis::normal(field, row.element) {
        Ok(basis) => basis,
        Err(_) => Basis::poly(field),
    };
    Ok(CircuitWord {
        role: Role::Output,
        nets: row.output.to_vec(alloc)?,
        basis,
    })
}

// Whether these are outputs.
fn are_outputs<F: Field>(
    alloc: Global,
    field: &F,
    net: &Net,
    words: &[CircuitWord],
    to: &CircuitWord,
    outputs: &[([u64; 2], Option<u64>)],
) -> Result<bool, AllocError>
    requires words { AreOver (F.degree field.now) (F.product field.now) words.now }
    requires over { IsBasisOver (F.degree field.now) (F.product field.now) to.now.basis }
{
    for (xs, want) in outputs {
        if output_at(alloc, field, net, words, to, xs)? != *want {
            return Ok(false);
        }
    }
    Ok(true)
}

// Whether a row holds over the row's net.
fn holds<F: Field>(alloc: Global, field: &F, net: &Net, row: &Row) -> Result<bool, AllocError> {
    let words = two_words(alloc, field, row.inputs)?;
    let to = output_word(alloc, field, row)?;
    are_outputs(alloc, field, net, &words, &to, row.outputs)
}

// Whether a row holds.
fn is_right(rt: &impl Abort, alloc: Global, row: &Row) -> bool {
    let net = net(rt, alloc, row.model);
    matches!(holds(alloc, &field(rt), &net, row), Ok(true))
}

#[test]
fn outputs(rt: HostRuntime) {
    for (i, row) in ROWS.iter().enumerate() {
        assert!(rt; is_right(&rt, rt.alloc(), row), "row {i}");
    }
}
