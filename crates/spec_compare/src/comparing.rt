//! The comparison of two polynomials in input, state and fed bits.
ghost use Rattle.std.specs.Prelude.{◌≡◌, ◌≤◌, ◌<◌, ◌+◌, ℕ, List, length, take, drop, IfOk, OnOk};
ghost use Rattle.std.specs.List.{AllByRecursion};
ghost use Rattle.gf_basis.specs.BasisParts.{elements_of, IsBasisOver};
ghost use Rattle.net_words.specs.OneCycle.{IsOneCycle};
ghost use Rattle.poly_mixed.specs.Polynomial.{IsReduced, value};
ghost use Rattle.poly_mixed.specs.laws.Uniqueness.{IsZeros};
ghost use Rattle.circuit_model.specs.OfBinding.{word_with};
ghost use Rattle.circuit_model.specs.Bases.{AreBases, circuit_in};
ghost use Rattle.spec_compare.specs.private.First.{IsSumOf};
ghost use Rattle.spec_compare.specs.ValueAt.{at_ones, IsInInputBits};
ghost use Rattle.spec_compare.specs.Verdict.{IsVerdict};
ghost use Rattle.spec_compare.specs.private.InputOf.{AddsElement, input_of_ones};

use crate::Verdict;
use crate::first::{bits_at, first_term, number};
use gf_basis::Basis;
use gf_field::Field;
use net_words::{Bound, Combinational, Role};
use poly_mixed::{Poly, Term};
use std::alloc::{AllocError, Global};

// Adds the element of the next word, unless it is the output word, where the bits of these ranks are 1.
fn add_element<F: Field>(
    field: &F,
    role: Role,
    basis: &Basis,
    ones: &[u32],
    list: &mut Vec<u64>,
) -> Result<(), AllocError>
    requires over { IsBasisOver (F.degree field.now) (F.product field.now) basis.now }
    requires few { (nets : List ℕ) → length list.old.items + length (word_with role nets (elements_of basis.now)) ≤ 8 }
    ensures { OnOk result (AddsElement (F.degree field.now) ones.now role (elements_of basis.now) list.old.items list.new.items) }
{
    match role {
        Role::Input | Role::State | Role::Fed => {
            let k = field.k();
            let bits = number(ones, k * list.len() as u32, k);
            list.push(basis.element_of(bits))?;
            Ok(())
        }
        Role::Output => Ok(()),
    }
}

// The elements of the input, state and fed words of a circuit's binding where the bits of these ranks are 1.
fn elements<F: Field>(
    alloc: Global,
    field: &F,
    _circuit: &Combinational,
    binding: &Bound,
    bases: &[Basis],
    ones: &[u32],
) -> Result<Vec<u64>, AllocError>
    requires binding { binding.now ≡ _circuit.now.binding }
    requires is_bound { IsOneCycle _circuit.now.net _circuit.now.binding }
    requires bases { AreBases (F.degree field.now) (F.product field.now) _circuit.now bases.now }
    ensures { IfOk result (λ list. list.items ≡ input_of_ones (circuit_in (F.degree field.now) (F.product field.now) _circuit.now bases.now) ones.now) }
{
    let mut list = Vec::new(alloc);
    for v in 0..binding.words() {
        add_element(field, binding.role(v), &bases[v as usize], ones, &mut list)?;
    }
    Ok(list)
}

// These elements and then zeros.
fn padded(list: &[u64]) -> [u64; 8]
    requires { length list.now ≤ 8 }
    ensures front { take (length list.now) result ≡ list.now }
    ensures rest { IsZeros (drop (length list.now) result) }
    ensures long { length result ≡ 8 }
{
    let mut out = [0; 8];
    for i in 0..list.len() {
        out[i] = list[i];
    }
    out
}

// The value of a polynomial in bits where the bits of these ranks are 1.
fn value_at<F: Field>(field: &F, poly: &Poly, ones: &[u32]) -> u64
    requires over { IsReduced (F.degree field.now) poly.now.terms }
    requires few { AllByRecursion (λ r. r < 512) ones.now }
    ensures { result ≡ value (F.product field.now) (at_ones ones.now) poly.now.terms }
{
    let bits = bits_at(ones);
    poly.value(field, &[0; 8], &bits)
}

// The terms of the sum of two polynomials.
fn sum_of<F: Field>(
    alloc: Global,
    field: &F,
    left: &Poly,
    right: &Poly,
) -> Result<Vec<Term>, AllocError>
    requires left { IsReduced (F.degree field.now) left.now.terms }
    requires right { IsReduced (F.degree field.now) right.now.terms }
    ensures { IfOk result (λ list. IsSumOf (F.degree field.now) (F.product field.now) left.now.terms right.now.terms list.items) }
{
    let mut sum = Poly::zero(alloc);
    sum.add_into(field, left)?;
    sum.add_into(field, right)?;
    sum.terms(alloc)
}

/// Whether two polynomials in the bits of a circuit's input, state and fed words have equal values at every input.
///
/// There is one basis of this field for each word of the binding, and each word has k bits. Where the values differ
/// somewhere, the input is the one with the fewest bits that are 1 among those, and of several the one whose rising list of
/// ranks of these bits is lexicographically first; the two values there come with it.
pub fn compare<F: Field>(
    alloc: Global,
    field: &F,
    circuit: &Combinational,
    bases: &[Basis],
    left: &Poly,
    right: &Poly,
) -> Result<Verdict, AllocError>
    requires k { circuit.now.binding.k ≡ F.degree field.now }
    requires bases { AreBases (F.degree field.now) (F.product field.now) circuit.now bases.now }
    requires left { IsInInputBits (circuit_in (F.degree field.now) (F.product field.now) circuit.now bases.now) left.now.terms }
    requires right { IsInInputBits (circuit_in (F.degree field.now) (F.product field.now) circuit.now bases.now) right.now.terms }
    ensures { IfOk result (IsVerdict (circuit_in (F.degree field.now) (F.product field.now) circuit.now bases.now) left.now.terms right.now.terms) }
{
    let binding = circuit.binding();
    let terms = sum_of(alloc, field, left, right)?;
    let Some(term) = first_term(&terms) else {
        return Ok(Verdict::Same);
    };
    let ones = term.mono().bits();
    let list = elements(alloc, field, circuit, binding, bases, ones)?;
    Ok(Verdict::Differ {
        input: padded(&list),
        left: value_at(field, left, ones),
        right: value_at(field, right, ones),
    })
}
