//! The value of a cut at a point, gate by gate.
ghost use Rattle.std.specs.Prelude.{◌≡◌, ◌≤◌, ◌<◌, ◌^◌, ℕ, List, length, IfOk, false, slice_index_or};
ghost use Rattle.net_core.specs.NetList.{nets};
ghost use Rattle.gf_basis.specs.BasisParts.{IsBasisOver};
ghost use Rattle.circuit_model.specs.Flat.{circuit_of_parts, word_of};
ghost use Rattle.poly_mixed.specs.Polynomial.{point};
ghost use Rattle.stage_model.specs.Variables.{point_bits};
ghost use Rattle.stage_model.specs.Cut.{IsCut, CutOf};

use crate::cut_settle::settled;
use crate::ranks::{rank_of, variables};
use circuit_model::{CircuitWord, number_of_bits};
use gf_field::Field;
use net_core::Net;
use std::alloc::{AllocError, Global};

// The bit of a rank; ranks past the end are 0.
fn bit_at_rank(bits: &[bool], rank: usize) -> bool
    ensures { result ≡ slice_index_or bits.now rank false }
{
    bits.get(rank).copied().unwrap_or(false)
}

// The bit of each net, by number, out of the bits by rank.
fn bits_by_net(
    alloc: Global,
    net: &Net,
    variables: &[u32],
    bits: &[bool],
) -> Result<Vec<bool>, AllocError>
    ensures { IfOk result (λ v. (ws : List ℕ) → v.items ≡ point_bits (nets net.now) variables.now (point ws bits.now)) }
{
    let mut list = Vec::new(alloc);
    for n in 0..net.nets() {
        list.push(bit_at_rank(bits, rank_of(variables, n)))?;
    }
    Ok(list)
}

// The value of a cut where the variables have these ranks.
pub fn cut_value<F: Field>(
    alloc: Global,
    field: &F,
    net: &Net,
    variables: &[u32],
    output: &CircuitWord,
    cut: u32,
    bits: &[bool],
) -> Result<u64, AllocError>
    requires cut { cut ≤ length net.now.gates }
    requires over { IsBasisOver (F.degree field.now) (F.product field.now) output.now.basis }
    requires nets { length output.now.nets.items ≡ F.degree field.now }
    ensures cut { IfOk result (λ e. (ws : List ℕ) → IsCut net.now variables.now (word_of output.now) cut (point ws bits.now) e) }
    ensures element { IfOk result (λ e. e < 2 ^ F.degree field.now) }
{
    let _k = field.k();
    let start = bits_by_net(alloc, net, variables, bits)?;
    let bits = settled(alloc, net, cut, start)?;
    Ok(output.basis.element_of(number_of_bits(&bits, &output.nets)))
}

/// The value of a cut of a circuit at a point, by evaluation gate by gate: slow, and no more than the definition. The
/// bits stand by rank, the nets of the words first and then the other nets by number; ranks past their end are 0. It
/// answers nothing but the value, or runs out of memory.
pub fn cut_at<F: Field>(
    alloc: Global,
    field: &F,
    net: &Net,
    words: &[CircuitWord],
    output: &CircuitWord,
    cut: u32,
    bits: &[bool],
) -> Result<u64, AllocError>
    requires cut { cut ≤ length net.now.gates }
    requires over { IsBasisOver (F.degree field.now) (F.product field.now) output.now.basis }
    requires nets { length output.now.nets.items ≡ F.degree field.now }
    ensures cut { IfOk result (λ e. (ws : List ℕ) → CutOf (circuit_of_parts (F.degree field.now) (F.product field.now) net.now words.now output.now) cut (point ws bits.now) e) }
    ensures element { IfOk result (λ e. e < 2 ^ F.degree field.now) }
{
    let variables = variables(alloc, net, words)?;
    cut_value(alloc, field, net, &variables, output, cut, bits)
}
