//! Words in place of bits beside the plain programs: each stage's size with each bound up to the largest, and the output
//! at each input.
ghost use Rattle.std.specs.Prelude.{◌≡◌, ◌≤◌, length, IfOk};
ghost use Rattle.gf_basis.specs.BasisParts.{IsBasisOver};
ghost use Rattle.poly_mixed.specs.Polynomial.{IsReduced};
ghost use Rattle.circuit_model.specs.Flat.{AreOver};
ghost use Rattle.job_input.specs.Setting.{AreBasesOver};

use abstraction::{bits_terms, words_poly};
use circuit_model::{CircuitWord, output, output_basis};
use gf_basis::Basis;
use gf_field::{Field, first_outside, is_element};
use net_words::Combinational;
use plain_runs::{word_product, word_sum};
use poly_mixed::{NoSteps, Poly, ReduceFault, Stage, Term, constant, scaled_bit, scaled_power};
use rato_reduce::reduce_bits;
use std::alloc::{AllocError, Global};
use std::process::Abort;

/// The polynomial of the output in the bits of the words.
pub fn in_bits<F: Field>(
    rt: &impl Abort,
    alloc: Global,
    field: &F,
    circuit: &Combinational,
    bases: &[Basis],
) -> Result<Poly, ReduceFault>
    requires over { AreBasesOver (F.degree field.now) (F.product field.now) bases.now }
    ensures { IfOk result (λ q. IsReduced (F.degree field.now) q.terms) }
{
    assert_eq!(rt; circuit.binding().k(), field.k());
    assert_eq!(rt; circuit.binding().words() as usize, bases.len());
    let basis = output_basis(circuit.binding(), bases);
    let terms = reduce_bits(alloc, field, circuit, basis, u32::MAX, &mut NoSteps)?;
    let poly = sum_anew(rt, alloc, field, &terms)?;
    Ok(poly)
}

// The polynomial of the output in the words, where no stage of words has more terms than the bound.
fn in_words<F: Field>(
    alloc: Global,
    field: &F,
    circuit: &Combinational,
    bases: &[Basis],
    bound: u32,
) -> Result<Poly, ReduceFault>
    requires bits { circuit.now.binding.k ≡ F.degree field.now }
    requires over { AreBasesOver (F.degree field.now) (F.product field.now) bases.now }
    requires long { length bases.now ≡ length circuit.now.binding.words }
    ensures { IfOk result (λ q. IsReduced (F.degree field.now) q.terms) }
{
    let bits = match bits_terms(alloc, field, circuit, bases, u32::MAX, &mut NoSteps) {
        Ok(bits) => bits,
        Err(fault) => return Err(fault),
    };
    words_poly(alloc, field, circuit, bases, bits, bound, &mut NoSteps)
}

/// The polynomial in words of a circuit, where the words are checked to fit.
pub fn poly_in_words<F: Field>(
    rt: &impl Abort,
    alloc: Global,
    field: &F,
    circuit: &Combinational,
    bases: &[Basis],
    bound: u32,
) -> Result<Poly, ReduceFault>
    requires { AreBasesOver (F.degree field.now) (F.product field.now) bases.now }
    ensures { IfOk result (λ q. IsReduced (F.degree field.now) q.terms) }
{
    assert_eq!(rt; circuit.binding().k(), field.k());
    assert_eq!(rt; circuit.binding().words() as usize, bases.len());
    in_words(alloc, field, circuit, bases, bound)
}

/// What the replacement of words answers, without the polynomial.
pub fn outcome<F: Field>(
    rt: &impl Abort,
    alloc: Global,
    field: &F,
    circuit: &Combinational,
    bases: &[Basis],
    bound: u32,
) -> Result<(), ReduceFault>
    requires { AreBasesOver (F.degree field.now) (F.product field.now) bases.now }
{
    match poly_in_words(rt, alloc, field, circuit, bases, bound) {
        Ok(_) => Ok(()),
        Err(fault) => Err(fault),
    }
}

// A term, made anew.
fn term_anew<F: Field>(
    rt: &impl Abort,
    alloc: Global,
    field: &F,
    term: &Term,
) -> Result<Poly, AllocError>
    ensures { IfOk result (λ q. IsReduced (F.degree field.now) q.terms) }
{
    assert!(rt; is_element(field, 1) && is_element(field, term.coefficient()));
    let mut product = constant(alloc, field, term.coefficient())?;
    for rank in term.mono().bits() {
        let bit = scaled_bit(alloc, field, 1, *rank)?;
        product = product.mul(alloc, field, &bit)?;
    }
    for (word, exponent) in term.mono().exponents().iter().enumerate() {
        assert!(rt; word < 8 && is_element(field, *exponent));
        let power = scaled_power(alloc, field, 1, word, *exponent)?;
        product = product.mul(alloc, field, &power)?;
    }
    Ok(product)
}

// The sum of terms, made anew.
fn sum_anew<F: Field>(
    rt: &impl Abort,
    alloc: Global,
    field: &F,
    terms: &[Term],
) -> Result<Poly, AllocError>
    ensures { IfOk result (λ q. IsReduced (F.degree field.now) q.terms) }
{
    let mut sum = Poly::zero(alloc);
    for term in terms {
        let part = term_anew(rt, alloc, field, term)?;
        sum.add_into(field, &part)?;
    }
    Ok(sum)
}

// A copy of a polynomial, made anew out of its terms.
fn anew<F: Field>(
    rt: &impl Abort,
    alloc: Global,
    field: &F,
    poly: &Poly,
) -> Result<Poly, AllocError>
    ensures { IfOk result (λ q. IsReduced (F.degree field.now) q.terms) }
{
    let terms = poly.terms(alloc)?;
    sum_anew(rt, alloc, field, &terms)
}

// Adds the products of a term with the sizes that the plain program finds.
fn add_products<F: Field>(
    alloc: Global,
    field: &F,
    words: &[CircuitWord],
    before: &Poly,
    word: u32,
    term: u32,
    stages: &mut Vec<(Stage, usize)>,
) -> Result<(), AllocError>
    requires over { AreOver (F.degree field.now) (F.product field.now) words.now }
    requires few { length words.now ≤ 8 }
    requires before { IsReduced (F.degree field.now) before.now.terms }
{
    for bit in 1..=field.k() {
        if let Some(product) = word_product(alloc, field, words, before, word, term, bit)? {
            stages.push((Stage::WordProduct { word, term, bit }, product.len()))?;
        }
    }
    Ok(())
}

// Adds the stages of a word; the result is the last sum, which is the polynomial in which the next word is replaced.
fn add_stages<F: Field>(
    rt: &impl Abort,
    alloc: Global,
    field: &F,
    words: &[CircuitWord],
    before: &Poly,
    word: u32,
    stages: &mut Vec<(Stage, usize)>,
) -> Result<Poly, AllocError>
    requires over { AreOver (F.degree field.now) (F.product field.now) words.now }
    requires few { length words.now ≤ 8 }
    requires before { IsReduced (F.degree field.now) before.now.terms }
{
    assert!(rt; before.len() <= 10_000);
    let mut last = Poly::zero(alloc);
    for term in 1..=before.len() as u32 {
        add_products(alloc, field, words, before, word, term, stages)?;
        if let Some(sum) = word_sum(alloc, field, words, before, word, term)? {
            stages.push((Stage::WordSum { word, term }, sum.len()))?;
            last = sum;
        }
    }
    Ok(last)
}

/// The stages of one or two words, in their order.
pub fn plain_stages<F: Field>(
    rt: &impl Abort,
    alloc: Global,
    field: &F,
    words: &[CircuitWord],
    bits: &Poly,
) -> Result<Vec<(Stage, usize)>, AllocError>
    requires over { AreOver (F.degree field.now) (F.product field.now) words.now }
    requires bits { IsReduced (F.degree field.now) bits.now.terms }
{
    assert!(rt; words.len() == 1 || words.len() == 2);
    let mut stages = Vec::new(alloc);
    let mix = add_stages(rt, alloc, field, words, bits, 0, &mut stages)?;
    if words.len() == 2 {
        let before = anew(rt, alloc, field, &mix)?;
        add_stages(rt, alloc, field, words, &before, 1, &mut stages)?;
    }
    Ok(stages)
}

/// What the replacement of words has to answer: the first stage over the bound.
pub fn plain_outcome(stages: &[(Stage, usize)], bound: u32) -> Result<(), ReduceFault> {
    for (stage, size) in stages {
        if *size > bound as usize {
            return Err(ReduceFault::TooManyTerms {
                stage: *stage,
                terms: *size as u64,
            });
        }
    }
    Ok(())
}

/// The output at these elements by the plain program.
pub fn plain_output<F: Field>(
    rt: &impl Abort,
    alloc: Global,
    field: &F,
    circuit: &Combinational,
    words: &[CircuitWord],
    to: &CircuitWord,
    xs: &[u64],
) -> Result<Option<u64>, AllocError>
    requires words { AreOver (F.degree field.now) (F.product field.now) words.now }
    requires over { IsBasisOver (F.degree field.now) (F.product field.now) to.now.basis }
{
    assert_eq!(rt; xs.len(), words.len());
    assert_eq!(rt; first_outside(field, xs), None);
    output(alloc, field, circuit.net(), words, to, xs)
}

/// The value of a polynomial in the first two words alone.
pub fn value_at<F: Field>(rt: &impl Abort, field: &F, poly: &Poly, x: u64, y: u64) -> u64
    requires { IsReduced (F.degree field.now) poly.now.terms }
{
    assert!(rt; is_element(field, x) && is_element(field, y) && is_element(field, 0));
    poly.value(field, &[x, y, 0, 0, 0, 0, 0, 0], &[])
}
