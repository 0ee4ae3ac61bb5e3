//! The table of a circuit's output.
ghost use Rattle.std.specs.Prelude.{◌≡◌, ◌≤◌, ◌<◌, ◌^◌, ℕ, length, IfOk};
ghost use Rattle.lists.specs.Lists.{Has};
ghost use Rattle.circuit_model.specs.Bases.{AreBases, circuit_in};
ghost use Rattle.circuit_model.specs.Flat.{circuit_of_parts};
ghost use Rattle.circuit_model.specs.Out.{IsOut};
ghost use Rattle.lift_table.specs.CircuitTable.{IsTableOf};
ghost use Rattle.lift_table.specs.Small.{IsSmall};
ghost use Rattle.lift_table.specs.private.Circuits.{AreParts, IsOutAtRow};
ghost use Rattle.lift_table.specs.private.Digits.{digits_of};

use crate::circuit_words::{circuit_words, output_word};
use crate::small::{rows_of, two_to};
use circuit_model::{CircuitWord, output};
use gf_basis::Basis;
use gf_field::Field;
use net_core::Net;
use net_words::Combinational;
use std::alloc::{AllocError, Global};

/// The output of a circuit at each input, by row; there is one basis of this field for each word of the binding, and each
/// word has k bits. It answers nothing but the table, or runs out of memory.
pub fn table<F: Field>(
    alloc: Global,
    field: &F,
    circuit: &Combinational,
    bases: &[Basis],
) -> Result<Vec<u64>, AllocError>
    requires k { circuit.now.binding.k ≡ F.degree field.now }
    requires bases { AreBases (F.degree field.now) (F.product field.now) circuit.now bases.now }
    requires small { IsSmall (F.degree field.now) (length (circuit_in (F.degree field.now) (F.product field.now) circuit.now bases.now).words) }
    ensures { IfOk result (λ table. IsTableOf (circuit_in (F.degree field.now) (F.product field.now) circuit.now bases.now) table.items) }
{
    let words = circuit_words(alloc, field, circuit, bases)?;
    let to = output_word(alloc, field, circuit, bases)?;
    table_over(alloc, field, circuit.net(), &words, &to)
}

// The output of the circuit of these parts at each input, by row.
fn table_over<F: Field>(
    alloc: Global,
    field: &F,
    net: &Net,
    words: &[CircuitWord],
    to: &CircuitWord,
) -> Result<Vec<u64>, AllocError>
    requires small { IsSmall (F.degree field.now) (length words.now) }
    requires parts { AreParts (F.degree field.now) (F.product field.now) net.now words.now to.now }
    ensures { IfOk result (λ table. IsTableOf (circuit_of_parts (F.degree field.now) (F.product field.now) net.now words.now to.now) table.items) }
{
    let rows = rows_of(field, words.len() as u32);
    let mut table = Vec::new(alloc);
    for row in 0..rows {
        let value = value_at(alloc, field, net, words, to, row)?;
        table.push(value)?;
    }
    Ok(table)
}

/// The output of a circuit at an input, whose elements stand in the order of the input, state and fed words; there is one
/// basis of this field for each word of the binding, and each word has k bits. It answers nothing but the output and want
/// of memory.
pub fn output_at<F: Field>(
    alloc: Global,
    field: &F,
    circuit: &Combinational,
    bases: &[Basis],
    xs: &[u64],
) -> Result<u64, AllocError>
    requires k { circuit.now.binding.k ≡ F.degree field.now }
    requires bases { AreBases (F.degree field.now) (F.product field.now) circuit.now bases.now }
    requires long { length xs.now ≡ length (circuit_in (F.degree field.now) (F.product field.now) circuit.now bases.now).words }
    requires elements { (x : ℕ) → Has xs.now x → x < 2 ^ F.degree field.now }
    ensures { IfOk result (IsOut (circuit_in (F.degree field.now) (F.product field.now) circuit.now bases.now) xs.now) }
{
    let words = circuit_words(alloc, field, circuit, bases)?;
    let to = output_word(alloc, field, circuit, bases)?;
    output_over(alloc, field, circuit.net(), &words, &to, xs)
}

// The output of the circuit of these parts at an input.
fn output_over<F: Field>(
    alloc: Global,
    field: &F,
    net: &Net,
    words: &[CircuitWord],
    to: &CircuitWord,
    xs: &[u64],
) -> Result<u64, AllocError>
    requires parts { AreParts (F.degree field.now) (F.product field.now) net.now words.now to.now }
    requires long { length xs.now ≡ length words.now }
    requires elements { (x : ℕ) → Has xs.now x → x < 2 ^ F.degree field.now }
    ensures { IfOk result (IsOut (circuit_of_parts (F.degree field.now) (F.product field.now) net.now words.now to.now) xs.now) }
{
    match output(alloc, field, net, words, to, xs)? {
        Some(value) => Ok(value),
        None => unreachable!(),
    }
}

// The output at the input of a row.
fn value_at<F: Field>(
    alloc: Global,
    field: &F,
    net: &Net,
    words: &[CircuitWord],
    to: &CircuitWord,
    row: usize,
) -> Result<u64, AllocError>
    requires small { F.degree field.now ≤ 8 }
    requires parts { AreParts (F.degree field.now) (F.product field.now) net.now words.now to.now }
    ensures { IfOk result (IsOutAtRow (F.degree field.now) (F.product field.now) net.now words.now to.now row) }
{
    let xs = digits(alloc, field, words.len(), row)?;
    output_over(alloc, field, net, words, to, &xs)
}

// The digits of a row in base `2^k`, the lowest one first.
fn digits<F: Field>(
    alloc: Global,
    field: &F,
    count: usize,
    row: usize,
) -> Result<Vec<u64>, AllocError>
    requires { F.degree field.now ≤ 8 }
    ensures digits { IfOk result (λ list. list.items ≡ digits_of (F.degree field.now) count row) }
    ensures long { IfOk result (λ list. length list.items ≡ count) }
    ensures elements { IfOk result (λ list. (x : ℕ) → Has list.items x → x < 2 ^ F.degree field.now) }
{
    let base = u64::from(two_to(field.k()));
    let mut list = Vec::new(alloc);
    let mut left = row as u64;
    for _ in 0..count {
        list.push(left % base)?;
        left /= base;
    }
    Ok(list)
}
