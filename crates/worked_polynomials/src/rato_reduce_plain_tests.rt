//! The elimination beside the plain programs: each cut's size with each bound, and the output at each input.
ghost use Rattle.std.specs.Prelude.{◌≡◌, length};
ghost use Rattle.gf_basis.specs.BasisParts.{IsBasisOver};
ghost use Rattle.circuit_model.specs.Flat.{AreOver};

use crate::circuits::output_at;
use crate::rato_reduce_tests::reduced;
use circuit_model::CircuitWord;
use gf_field::Field;
use net_core::Net;
use net_words::Combinational;
use plain_runs::cut_size;
use poly_mixed::{NoSteps, ReduceFault, Stage, Term};
use std::alloc::{AllocError, Global};
use std::process::Abort;

// Whether the plain program gives these sizes of all cuts.
fn have_sizes<F: Field>(
    alloc: Global,
    field: &F,
    net: &Net,
    words: &[CircuitWord],
    output: &CircuitWord,
    sizes: &[usize],
) -> Result<bool, AllocError>
    requires over { IsBasisOver (F.degree field.now) (F.product field.now) output.now.basis }
    requires nets { length output.now.nets.items ≡ F.degree field.now }
{
    if sizes.len() > 10 || sizes.len() != net.gates().len() + 1 {
        return Ok(false);
    }
    for (cut, size) in sizes.iter().enumerate() {
        if cut_size(alloc, field, net, words, output, cut as u32)? != Some(*size) {
            return Ok(false);
        }
    }
    Ok(true)
}

// The first cut over a bound, and its size; none where all are within.
fn first_over(sizes: &[usize], bound: u32) -> Option<(usize, usize)> {
    for (cut, size) in sizes.iter().enumerate() {
        if *size > bound as usize {
            return Some((cut, *size));
        }
    }
    None
}

// Whether the elimination answers with this bound as the cuts of these sizes have it: the last one, or the first over it.
fn has_outcome<F: Field>(
    rt: &impl Abort,
    alloc: Global,
    field: &F,
    circuit: &Combinational,
    sizes: &[usize],
    bound: u32,
) -> bool {
    let over = first_over(sizes, bound);
    match reduced(rt, alloc, field, circuit, bound, &mut NoSteps) {
        Ok(terms) => over.is_none() && sizes.last() == Some(&terms.len()),
        Err(
            ReduceFault::TooManyTerms {
                stage: Stage::Cut(cut),
                terms,
            },
        ) => over == Some((cut as usize, terms as usize)),
        Err(_) => false,
    }
}

// The bits of a number, the lowest first.
fn low_bits(number: u64) -> [bool; 6] {
    [
        number % 2 == 1,
        number / 2 % 2 == 1,
        number / 4 % 2 == 1,
        number / 8 % 2 == 1,
        number / 16 % 2 == 1,
        number / 32 % 2 == 1,
    ]
}

// Whether all of these bits are 1; a rank past the end is 0.
fn are_ones(bits: &[bool], ranks: &[u32]) -> bool {
    for rank in ranks {
        if bits.get(*rank as usize) != Some(&true) {
            return false;
        }
    }
    true
}

// The value of the sum of terms where the bits are those of a number; none where a word stands in one of them.
fn value(terms: &[Term], number: u64) -> Option<u64> {
    let bits = low_bits(number);
    let mut sum = 0;
    for term in terms {
        if *term.mono().exponents() != [0; 8] {
            return None;
        }
        if are_ones(&bits, term.mono().bits()) {
            sum ^= term.coefficient();
        }
    }
    Some(sum)
}

// The output by the plain program where the bits are those of a number, two for each of at most three words.
fn plain_output<F: Field>(
    alloc: Global,
    field: &F,
    net: &Net,
    words: &[CircuitWord],
    to: &CircuitWord,
    number: u64,
) -> Result<Option<u64>, AllocError>
    requires words { AreOver (F.degree field.now) (F.product field.now) words.now }
    requires over { IsBasisOver (F.degree field.now) (F.product field.now) to.now.basis }
{
    if words.len() > 3 {
        return Ok(None);
    }
    let xs = [number % 4, number / 4 % 4, number / 16 % 4];
    output_at(alloc, field, net, words, to, &xs[..words.len()])
}

// Whether the sum of terms has the values of the plain program's outputs at each input, and the first of them are these.
fn are_values<F: Field>(
    alloc: Global,
    field: &F,
    net: &Net,
    words: &[CircuitWord],
    to: &CircuitWord,
    terms: &[Term],
    values: &[u64; 4],
) -> Result<bool, AllocError>
    requires words { AreOver (F.degree field.now) (F.product field.now) words.now }
    requires over { IsBasisOver (F.degree field.now) (F.product field.now) to.now.basis }
{
    for number in 0..1u64 << (2 * words.len().min(3)) {
        let found = value(terms, number);
        if number < 4 && found != Some(values[number as usize]) {
            return Ok(false);
        }
        if found != plain_output(alloc, field, net, words, to, number)? {
            return Ok(false);
        }
    }
    Ok(true)
}

// Whether the last cut has them.
fn has_values<F: Field>(
    rt: &impl Abort,
    alloc: Global,
    field: &F,
    circuit: &Combinational,
    words: &[CircuitWord],
    to: &CircuitWord,
    values: &[u64; 4],
) -> bool
    requires words { AreOver (F.degree field.now) (F.product field.now) words.now }
    requires over { IsBasisOver (F.degree field.now) (F.product field.now) to.now.basis }
{
    match reduced(rt, alloc, field, circuit, u32::MAX, &mut NoSteps) {
        Ok(terms) => {
            matches!(
                are_values(alloc, field, circuit.net(), words, to, &terms, values),
                Ok(true)
            )
        }
        Err(_) => false,
    }
}

// Whether the elimination's outcomes are those of these sizes, with each bound up to the largest in the tests.
fn has_outcomes<F: Field>(
    rt: &impl Abort,
    alloc: Global,
    field: &F,
    circuit: &Combinational,
    sizes: &[usize],
) -> bool {
    for bound in 0..=18 {
        if !has_outcome(rt, alloc, field, circuit, sizes, bound) {
            return false;
        }
    }
    true
}

// Compares the elimination with the plain programs, and their answers with these: the sizes of the cuts, and the outputs
// where the first word has the elements 0 to 3 and the others are 0.
pub(crate) fn agrees<F: Field>(
    rt: &impl Abort,
    alloc: Global,
    field: &F,
    circuit: &Combinational,
    words: &[CircuitWord],
    to: &CircuitWord,
    sizes: &[usize],
    values: &[u64; 4],
) -> bool
    requires words { AreOver (F.degree field.now) (F.product field.now) words.now }
    requires over { IsBasisOver (F.degree field.now) (F.product field.now) to.now.basis }
    requires nets { length to.now.nets.items ≡ F.degree field.now }
{
    matches!(
        have_sizes(alloc, field, circuit.net(), words, to, sizes),
        Ok(true)
    ) && has_outcomes(rt, alloc, field, circuit, sizes)
        && has_values(rt, alloc, field, circuit, words, to, values)
}
