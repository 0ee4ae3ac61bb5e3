//! Small nets over the field of 4 elements, with sizes of cuts and values worked by hand, beside the plain programs.
ghost use Rattle.std.specs.Prelude.{IfOk};
ghost use Rattle.circuit_model.specs.Flat.{AreOver};

use crate::circuits::{MULTIPLIER, field, word};
use crate::rato_reduce_plain_tests::agrees;
use crate::rato_reduce_tests::circuit;
use circuit_model::CircuitWord;
use gf_field::Field;
use net_words::{Combinational, Role};
use std::alloc::{AllocError, Global};
use std::process::Abort;

// A net, a signature with so many input words over nets in their order, the output's nets, the sizes of the cuts, and the
// outputs where the first word has the elements 0 to 3 and the others are 0.
struct Row {
    model: &'static [u8],
    signature: &'static [u8],
    words: u32,
    output: [u32; 2],
    sizes: &'static [usize],
    values: [u64; 4],
}

// Net 2 is 1.
const WIRES: &[u8] = b".model wires\n.inputs a0 a1\n.names one\n1\n";

// Net 2 is net 0, net 3 its negation, and net 4 is 0.
const COPIES: &[u8] =
    b".model copies\n.inputs a0 a1\n.names a0 w\n1 1\n.names w z0\n0 1\n.names z1\n";

// Net 2 is net 0 and itself, net 3 is what two of its inputs are, and two of them are net 1.
const TWICE: &[u8] = b"\
    .model twice\n\
    .inputs a0 a1\n\
    .names a0 a0 z0\n11 1\n\
    .names a1 a0 a1 z1\n11- 1\n1-1 1\n-11 1\n";

// Net 2 is the disjunction of the inputs, and net 3, which leads nowhere, their sum.
const DISJUNCTION: &[u8] = b"\
    .model disjunction\n\
    .inputs a0 a1\n\
    .names a0 a1 z\n1- 1\n-1 1\n\
    .names a0 a1 u\n10 1\n01 1\n";

// Net 6 has six inputs, in an order of its own, and a table in which no input goes without effect; net 7 is the sum of
// net 6 and an input.
const SIX: &[u8] = b"\
    .model six\n\
    .inputs a0 a1 b0 b1 c0 c1\n\
    .names b1 a0 c1 a1 c0 b0 z0\n001100 1\n000110 1\n111111 1\n\
    .names z0 a1 z1\n10 1\n01 1\n";

// Net 2 has six inputs, which are two nets in turn, and net 3 has one of them twice and net 2 four times.
const SIX_OF_TWO: &[u8] = b"\
    .model six_of_two\n\
    .inputs a0 a1\n\
    .names a0 a1 a1 a0 a1 a0 z0\n000000 1\n111111 1\n\
    .names z0 a1 z0 z0 a1 z0 z1\n000000 0\n111111 0\n";

static ROWS: [Row; 8] = [
    // An output bit that is an input, and one that is 1.
    Row {
        model: WIRES,
        signature: b"gfsig 1\nfield 0x7\nword A input poly a0 a1\nword Z output poly a0 one\n",
        words: 1,
        output: [0, 2],
        sizes: &[2, 2],
        values: [2, 3, 2, 3],
    },
    // A wire, its negation, and a bit that is 0; an input that nothing reads.
    Row {
        model: COPIES,
        signature: b"gfsig 1\nfield 0x7\nword A input poly a0 a1\nword Z output poly z0 z1\n",
        words: 1,
        output: [3, 4],
        sizes: &[2, 3, 2, 2],
        values: [1, 0, 1, 0],
    },
    // A net twice among a gate's inputs.
    Row {
        model: TWICE,
        signature: b"gfsig 1\nfield 0x7\nword A input poly a0 a1\nword Z output poly z0 z1\n",
        words: 1,
        output: [2, 3],
        sizes: &[2, 2, 2],
        values: [0, 1, 2, 3],
    },
    // Two output bits that are one net, beside a gate that reaches no output.
    Row {
        model: DISJUNCTION,
        signature: b"gfsig 1\nfield 0x7\nword A input poly a0 a1\nword Z output poly z z\n",
        words: 1,
        output: [2, 2],
        sizes: &[1, 1, 3],
        values: [0, 3, 3, 3],
    },
    // A gate that reaches no output; the other's table adds the product of the inputs.
    Row {
        model: DISJUNCTION,
        signature: b"gfsig 1\nfield 0x7\nword A input poly a0 a1\nword Z output poly z a1\n",
        words: 1,
        output: [2, 1],
        sizes: &[2, 2, 3],
        values: [0, 1, 3, 3],
    },
    // Gates of six inputs that are two nets: one is 1 where both inputs are equal, the other where they are not.
    Row {
        model: SIX_OF_TWO,
        signature: b"gfsig 1\nfield 0x7\nword A input poly a0 a1\nword Z output poly z0 z1\n",
        words: 1,
        output: [2, 3],
        sizes: &[2, 2, 3],
        values: [3, 0, 2, 1],
    },
    // The multiplier, whose outputs at all inputs are those of the tests of circuits.
    Row {
        model: MULTIPLIER,
        signature: b"gfsig 1\nfield 0x7\nword A input poly a0 a1\nword B input poly b0 b1\nword Z output poly z0 z1\n",
        words: 2,
        output: [4, 5],
        sizes: &[2, 3, 4, 4, 4, 4, 4, 4],
        values: [0, 0, 0, 0],
    },
    // A gate of six inputs, whose table has 17 terms, and its sum with an input.
    Row {
        model: SIX,
        signature: b"gfsig 1\nfield 0x7\nword A input poly a0 a1\nword B input poly b0 b1\nword C input poly c0 c1\nword Z output poly z0 z1\n",
        words: 3,
        output: [6, 7],
        sizes: &[2, 2, 18],
        values: [0, 0, 2, 2],
    },
];

// So many input words of two nets each, in their order.
fn input_words<F: Field>(
    alloc: Global,
    field: &F,
    count: u32,
) -> Result<Vec<CircuitWord>, AllocError>
    ensures { IfOk result (λ list. AreOver (F.degree field.now) (F.product field.now) list.items) }
{
    let mut list = Vec::new(alloc);
    for i in 0..count.min(3) {
        list.push(word(alloc, field, Role::Input, &[2 * i, 2 * i + 1])?)?;
    }
    Ok(list)
}

// Whether a row holds of its circuit.
fn holds<F: Field>(
    rt: &impl Abort,
    alloc: Global,
    field: &F,
    circuit: &Combinational,
    row: &Row,
) -> Result<bool, AllocError> {
    if field.k() != 2 {
        return Ok(false);
    }
    let words = input_words(alloc, field, row.words)?;
    let to = word(alloc, field, Role::Output, &row.output)?;
    Ok(agrees(
        rt,
        alloc,
        field,
        circuit,
        &words,
        &to,
        row.sizes,
        &row.values,
    ))
}

// Whether a row holds.
fn is_right(rt: &impl Abort, alloc: Global, row: &Row) -> bool {
    let circuit = circuit(rt, alloc, row.model, row.signature);
    matches!(holds(rt, alloc, &field(rt), &circuit, row), Ok(true))
}

#[test]
fn small_nets(rt: HostRuntime) {
    for (i, row) in ROWS.iter().enumerate() {
        assert!(rt; is_right(&rt, rt.alloc(), row), "row {i}");
    }
}
