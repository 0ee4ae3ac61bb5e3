//! The polynomial and the size of a cut out of its values at all bits.
ghost use Rattle.std.specs.Prelude.{◌≡◌, ◌≤◌, ◌<◌, ◌↔◌, ◌∷◌, ◌++◌, [], length, IfOk, IsSome};
ghost use Rattle.gf_basis.specs.BasisParts.{IsBasisOver};
ghost use Rattle.circuit_model.specs.Flat.{circuit_of_parts, word_of};
ghost use Rattle.poly_mixed.specs.Polynomial.{IsReduced};
ghost use Rattle.stage_model.specs.Variables.{variables_of};
ghost use Rattle.stage_model.specs.private.Plain.{HasEachNet, IsChoice, IsCutAfter};
ghost use Rattle.plain_runs.specs.CutParts.{HasCutSize, IsOfCut};
ghost use Rattle.plain_runs.specs.Found.{IfFound};

use crate::cut_value::cut_value;
use crate::ranks::variables;
use circuit_model::CircuitWord;
use gf_field::Field;
use net_core::Net;
use poly_mixed::{Poly, constant, scaled_bit};
use std::alloc::{AllocError, Global};

// One polynomial where a bit is 1, and another where it is 0: zero + bit * (zero + one).
fn choose<F: Field>(
    alloc: Global,
    field: &F,
    rank: u32,
    zero: Poly,
    one: Poly,
) -> Result<Poly, AllocError>
    requires zero { IsReduced (F.degree field.now) zero.terms }
    requires one { IsReduced (F.degree field.now) one.terms }
    ensures reduced { IfOk result (λ q. IsReduced (F.degree field.now) q.terms) }
    ensures choice { IfOk result (λ q. IsChoice (F.degree field.now) (F.product field.now) rank zero.terms one.terms q.terms) }
{
    let mut change = one;
    change.add_into(field, &zero)?;
    let bit = scaled_bit(alloc, field, 1, rank)?;
    let product = bit.mul(alloc, field, &change)?;
    let mut sum = zero;
    sum.add_into(field, &product)?;
    Ok(sum)
}

// The bits with one more.
fn with_bit(alloc: Global, bits: &[bool], bit: bool) -> Result<Vec<bool>, AllocError>
    ensures { IfOk result (λ v. v.items ≡ bits.now ++ bit ∷ []) }
{
    let mut list = bits.to_vec(alloc)?;
    list.push(bit)?;
    Ok(list)
}

// The polynomial of a cut where the first ranks have these bits.
fn poly_after<F: Field>(
    alloc: Global,
    field: &F,
    net: &Net,
    variables: &[u32],
    output: &CircuitWord,
    cut: u32,
    bits: &[bool],
) -> Result<Poly, AllocError>
    requires cut { cut ≤ length net.now.gates }
    requires over { IsBasisOver (F.degree field.now) (F.product field.now) output.now.basis }
    requires nets { length output.now.nets.items ≡ F.degree field.now }
    requires each { HasEachNet net.now variables.now }
    requires few { length bits.now ≤ length variables.now }
    requires tiny { length variables.now ≤ 20 }
    ensures { IfOk result (λ q. IsCutAfter (F.degree field.now) (F.product field.now) net.now variables.now (word_of output.now) cut bits.now q.terms) }
{
    if bits.len() == variables.len() {
        let value = cut_value(alloc, field, net, variables, output, cut, bits)?;
        let poly = constant(alloc, field, value)?;
        Ok(poly)
    } else {
        let off = with_bit(alloc, bits, false)?;
        let on = with_bit(alloc, bits, true)?;
        let zero = poly_after(alloc, field, net, variables, output, cut, &off)?;
        let one = poly_after(alloc, field, net, variables, output, cut, &on)?;
        let poly = choose(alloc, field, bits.len() as u32, zero, one)?;
        Ok(poly)
    }
}

/// The polynomial of a cut of a circuit, out of the cut's values at all bits of all nets: slow, and no more than the
/// definition. It is none where there are more than 20 variables. Else it may only run out of memory.
pub fn cut_poly<F: Field>(
    alloc: Global,
    field: &F,
    net: &Net,
    words: &[CircuitWord],
    output: &CircuitWord,
    cut: u32,
) -> Result<Option<Poly>, AllocError>
    requires cut { cut ≤ length net.now.gates }
    requires over { IsBasisOver (F.degree field.now) (F.product field.now) output.now.basis }
    requires nets { length output.now.nets.items ≡ F.degree field.now }
    ensures tiny { IfOk result (λ found. IsSome found ↔ (length (variables_of (circuit_of_parts (F.degree field.now) (F.product field.now) net.now words.now output.now)) ≤ 20)) }
    ensures cut { IfFound result (λ q. IsOfCut (circuit_of_parts (F.degree field.now) (F.product field.now) net.now words.now output.now) cut q.terms) }
{
    let variables = variables(alloc, net, words)?;
    if variables.len() <= 20 {
        let poly = poly_after(alloc, field, net, &variables, output, cut, &[])?;
        Ok(Some(poly))
    } else {
        Ok(None)
    }
}

/// The size of a cut of a circuit: how many terms its polynomial has. It is none where there are more than 20 variables.
/// Else it may only run out of memory.
pub fn cut_size<F: Field>(
    alloc: Global,
    field: &F,
    net: &Net,
    words: &[CircuitWord],
    output: &CircuitWord,
    cut: u32,
) -> Result<Option<usize>, AllocError>
    requires cut { cut ≤ length net.now.gates }
    requires over { IsBasisOver (F.degree field.now) (F.product field.now) output.now.basis }
    requires nets { length output.now.nets.items ≡ F.degree field.now }
    ensures tiny { IfOk result (λ found. IsSome found ↔ (length (variables_of (circuit_of_parts (F.degree field.now) (F.product field.now) net.now words.now output.now)) ≤ 20)) }
    ensures size { IfFound result (λ n. HasCutSize (circuit_of_parts (F.degree field.now) (F.product field.now) net.now words.now output.now) cut n) }
{
    match cut_poly(alloc, field, net, words, output, cut)? {
        Some(poly) => Ok(Some(poly.len())),
        None => Ok(None),
    }
}
