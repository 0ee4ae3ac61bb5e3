//! A specification as a polynomial in the bits of input, state and fed words.
ghost use Rattle.std.specs.Prelude.{◌≡◌, ◌<◌, ◌++◌, ◌∷◌, [], length, map, slice_index, IfOk, IfErr, OnOk};
ghost use Rattle.circuit_model.specs.Bases.{AreBases, circuit_in};
ghost use Rattle.circuit_model.specs.WellFormed.{IsWellFormed};
ghost use Rattle.term_expand.specs.Feeds.{borrowed_terms};
ghost use Rattle.spec_expand.specs.Specification.{IsOverWords};
ghost use Rattle.spec_expand.specs.private.Expanding.{AreWordsInBits, IsOfInput, IsSetting};
ghost use Rattle.spec_expand.specs.Expanded.{IsSpecExpansion};
ghost use Rattle.spec_expand.specs.SpecListing.{IsSpecRefusal, IsSpecWithin};

use crate::Spec;
use crate::bits::word_in_bits;
use crate::names::fault_of;
use circuit_model::word_places;
use gf_basis::Basis;
use gf_field::Field;
use net_words::Combinational;
use poly_mixed::{Poly, ReduceFault};
use std::alloc::{AllocError, Global};
use term_expand::expand_sum;

// An input, state or fed word in its bits.
fn own_word<F: Field>(
    alloc: Global,
    field: &F,
    _circuit: &Combinational,
    bases: &[Basis],
    places: &[u32],
    word: u32,
) -> Result<Poly, AllocError>
    requires setting { IsSetting (F.degree field.now) (F.product field.now) _circuit.now bases.now places.now }
    requires word { word < length (circuit_in (F.degree field.now) (F.product field.now) _circuit.now bases.now).words }
    ensures { IfOk result (λ q. IsOfInput (circuit_in (F.degree field.now) (F.product field.now) _circuit.now bases.now) (λ xs. slice_index xs word) q.terms) }
{
    let place = places[word as usize];
    let basis = &bases[place as usize];
    word_in_bits(alloc, field, basis, word)
}

// The input, state and fed words in their bits.
fn words_in_bits<F: Field>(
    alloc: Global,
    field: &F,
    circuit: &Combinational,
    bases: &[Basis],
    places: &[u32],
) -> Result<Vec<Poly>, AllocError>
    requires { IsSetting (F.degree field.now) (F.product field.now) circuit.now bases.now places.now }
    ensures { IfOk result (λ polys. AreWordsInBits (circuit_in (F.degree field.now) (F.product field.now) circuit.now bases.now) (map (λ q. q.terms) polys.items)) }
{
    let mut polys = Vec::new(alloc);
    for word in 0..places.len() {
        let poly = own_word(alloc, field, circuit, bases, places, word as u32)?;
        polys.push(poly)?;
    }
    Ok(polys)
}

// Adds a polynomial.
fn add_poly<'a>(list: &mut Vec<&'a Poly>, poly: &'a Poly) -> Result<(), AllocError>
    ensures { OnOk result (map (λ f. f.now.terms) list.new.items ≡ map (λ f. f.now.terms) list.old.items ++ poly.now.terms ∷ []) }
{
    list.push(poly)?;
    Ok(())
}

// The polynomials, borrowed one by one.
fn borrowed<'a>(alloc: Global, polys: &'a [Poly]) -> Result<Vec<&'a Poly>, AllocError>
    ensures { IfOk result (λ list. borrowed_terms list.items ≡ map (λ q. q.terms) polys.now) }
{
    let mut list = Vec::new(alloc);
    for i in 0..polys.len() {
        add_poly(&mut list, &polys[i])?;
    }
    Ok(list)
}

// The polynomial of a specification where these are the words in their bits.
fn expand_over<F: Field>(
    alloc: Global,
    field: &F,
    spec: &Spec,
    _circuit: &Combinational,
    _bases: &[Basis],
    words: &[Poly],
    bound: u32,
) -> Result<Poly, ReduceFault>
    requires well { IsWellFormed (circuit_in (F.degree field.now) (F.product field.now) _circuit.now _bases.now) }
    requires spec { IsOverWords (F.degree field.now) (length words.now) spec.now }
    requires words { AreWordsInBits (circuit_in (F.degree field.now) (F.product field.now) _circuit.now _bases.now) (map (λ q. q.terms) words.now) }
    ensures polynomial { IfOk result (λ q. IsSpecExpansion (circuit_in (F.degree field.now) (F.product field.now) _circuit.now _bases.now) spec.now q.terms) }
    ensures within { OnOk result (IsSpecWithin (circuit_in (F.degree field.now) (F.product field.now) _circuit.now _bases.now) spec.now bound) }
    ensures fault { IfErr result (IsSpecRefusal (circuit_in (F.degree field.now) (F.product field.now) _circuit.now _bases.now) spec.now bound) }
{
    let feeds = borrowed(alloc, words)?;
    match expand_sum(alloc, field, spec.terms(), &feeds, bound) {
        Ok(poly) => Ok(poly),
        Err(fault) => Err(fault_of(fault)),
    }
}

/// The polynomial of a specification in the bits of a circuit's input, state and fed words, or the first stage over the
/// bound.
///
/// There is one basis of this field for each word of the binding, and each word has k bits. Each coefficient is an element
/// of the field, and each word is one of the circuit's input, state and fed words. The factors of a term are, for each pair in
/// order and each binary one j of its exponent from the lowest, the word to the power 2^j; a term has its products with its
/// first factors as stages, and then the sum of the terms up to it. `TooManyTerms` comes exactly at the first stage of more
/// than `bound` terms, with that number.
pub fn expand<F: Field>(
    alloc: Global,
    field: &F,
    spec: &Spec,
    circuit: &Combinational,
    bases: &[Basis],
    bound: u32,
) -> Result<Poly, ReduceFault>
    requires k { circuit.now.binding.k ≡ F.degree field.now }
    requires bases { AreBases (F.degree field.now) (F.product field.now) circuit.now bases.now }
    requires spec { IsOverWords (F.degree field.now) (length (circuit_in (F.degree field.now) (F.product field.now) circuit.now bases.now).words) spec.now }
    ensures polynomial { IfOk result (λ q. IsSpecExpansion (circuit_in (F.degree field.now) (F.product field.now) circuit.now bases.now) spec.now q.terms) }
    ensures within { OnOk result (IsSpecWithin (circuit_in (F.degree field.now) (F.product field.now) circuit.now bases.now) spec.now bound) }
    ensures fault { IfErr result (IsSpecRefusal (circuit_in (F.degree field.now) (F.product field.now) circuit.now bases.now) spec.now bound) }
{
    let places = word_places(alloc, circuit.binding())?;
    let words = words_in_bits(alloc, field, circuit, bases, &places)?;
    expand_over(alloc, field, spec, circuit, bases, &words, bound)
}
