//! The elimination over the field of 4 elements: its circuits, its answers, and the steps that it records for a multiplier.
ghost use Rattle.std.specs.Prelude.{◌≡◌, ℕ, [], Some, map, length, filter, All, IfOk, IfSome, IsTrue, ◌↔◌};
ghost use Rattle.net_words.specs.Binding.{AreWords};
ghost use Rattle.net_words.specs.Feeds.{AreFeeds};
ghost use Rattle.net_words.specs.OneCycle.{IsFlat, IsOneCycle};
ghost use Rattle.net_words.specs.Roles.{is_output as is_output_word, input_count as count_inputs};
ghost use Rattle.poly_mixed.specs.Polynomial.{IsReduced};

use crate::circuits::{MULTIPLIER, field, net};
use gf_basis::Basis;
use gf_field::Field;
use net_core::Net;
use net_signature::read_signature;
use net_words::{Bound, Combinational, Role, WordText, bind};
use poly_mixed::{Generator, Poly, ReduceFault, Steps, Term};
use rato_reduce::reduce_bits;
use std::alloc::{AllocError, Global};
use std::process::Abort;

// A step: a generator and the terms of its multiplier.
#[derive(Drop)]
struct Recorded {
    generator: Generator,
    terms: Vec<Term>,
}

impl Recorded {
    // The multiplier, if it is a constant that is not 0.
    fn constant(&self) -> Option<u64> {
        match self.terms.as_slice() {
            [term] if term.mono().bits().is_empty() && *term.mono().exponents() == [0; 8] => {
                Some(term.coefficient())
            }
            _ => None,
        }
    }
}

// Keeps all steps.
#[derive(Drop)]
struct Recorder {
    alloc: Global,
    steps: Vec<Recorded>,
}

impl Steps for Recorder {
    ghost steps = { λ recorder. Some (map (λ step. (step.generator, step.terms.items)) recorder.steps.items) };

    fn tells(&self) -> bool {
        true
    }

    fn step(&mut self, generator: Generator, multiplier: &Poly) -> Result<(), AllocError> {
        let terms = multiplier.terms(self.alloc)?;
        self.steps.push(Recorded { generator, terms })?;
        Ok(())
    }
}

// Whether words can be bound.
fn can_be_bound(words: &[WordText]) -> bool
    ensures { IsTrue result → (k : ℕ) × AreWords k words.now × AreFeeds k (map (λ word. word.role) words.now) [] }
{
    if words.len() < 1 || words.len() > 9 {
        return false;
    }
    if output_count(words) != 1 || input_count(words) > 8 {
        return false;
    }
    let k = words[0].nets.as_slice().len();
    if k < 1 || k > 64 {
        return false;
    }
    have_nets(words, k)
}

fn is_output(word: &WordText) -> bool
    ensures { result ≡ is_output_word word.now }
{
    word.role == Role::Output
}

fn output_count(words: &[WordText]) -> usize
    ensures { result ≡ length (filter is_output_word words.now) }
{
    words.iter().filter(|word| is_output(word)).count()
}

fn input_count(words: &[WordText]) -> usize
    ensures { result ≡ count_inputs words.now }
{
    words.iter().filter(|word| !is_output(word)).count()
}

fn have_nets(words: &[WordText], k: usize) -> bool
    ensures { IsTrue result ↔ All (λ word. length word.nets ≡ k) words.now }
{
    words.iter().all(|word| word.nets.as_slice().len() == k)
}

// Words on a net.
fn bound_words(alloc: Global, net: &Net, words: &[WordText]) -> Option<Bound>
    ensures { IfSome result (λ bound. IsFlat net.now bound → IsOneCycle net.now bound) }
{
    if !can_be_bound(words) {
        return None;
    }
    bind(alloc, words, &[], net).ok()
}

// The words of a signature's text on a net.
fn bound(alloc: Global, net: &Net, text: &[u8]) -> Option<Bound>
    ensures { IfSome result (λ bound. IsFlat net.now bound → IsOneCycle net.now bound) }
{
    if text.len() >= 200 {
        return None;
    }
    match read_signature(alloc, text) {
        Ok(signature) => bound_words(alloc, net, signature.words()),
        Err(_) => None,
    }
}

// The net of a model with the words of a signature's text.
pub(crate) fn circuit(
    rt: &impl Abort,
    alloc: Global,
    model: &[u8],
    signature: &[u8],
) -> Combinational {
    let net = net(rt, alloc, model);
    let bound = bound(alloc, &net, signature).expect(rt, "bound words");
    Combinational::new(net, bound)
        .ok()
        .expect(rt, "a net without latches")
}

// What the elimination answers.
pub(crate) fn reduced<F: Field, T: Steps>(
    rt: &impl Abort,
    alloc: Global,
    field: &F,
    circuit: &Combinational,
    bound: u32,
    steps: &mut T,
) -> Result<Vec<Term>, ReduceFault>
    ensures { IfOk result (λ q. IsReduced (F.degree field.now) q.items) }
{
    assert!(rt; circuit.binding().k() == field.k());
    reduce_bits(alloc, field, circuit, &Basis::poly(field), bound, steps)
}

// Whether these are the steps: nets, each with a constant.
fn are_steps(steps: &[Recorded], wanted: &[(u32, u64)]) -> bool {
    for (step, (net, constant)) in steps.iter().zip(wanted.iter()) {
        if step.generator != Generator::Net(*net) || step.constant() != Some(*constant) {
            return false;
        }
    }
    steps.len() == wanted.len()
}

// The output's nets, then t, then z0, and then one product of bits after another give way, each with a constant.
static STEPS: [(u32, u64); 7] = [(5, 2), (10, 2), (4, 1), (9, 3), (8, 2), (7, 2), (6, 1)];

// What is recorded of the elimination of a circuit.
fn steps_of<F: Field>(
    rt: &impl Abort,
    alloc: Global,
    field: &F,
    circuit: &Combinational,
) -> Result<Recorder, ReduceFault> {
    let mut recorder = Recorder {
        alloc,
        steps: Vec::new(alloc),
    };
    reduced(rt, alloc, field, circuit, 4, &mut recorder)?;
    Ok(recorder)
}

// Whether the steps of a circuit are those of the table.
fn has_steps(rt: &impl Abort, alloc: Global, circuit: &Combinational) -> bool {
    match steps_of(rt, alloc, &field(rt), circuit) {
        Ok(recorder) => are_steps(&recorder.steps, &STEPS),
        Err(_) => false,
    }
}

#[test]
fn steps(rt: HostRuntime) {
    let signature =
        b"gfsig 1\nfield 0x7\nword A input poly a0 a1\nword B input poly b0 b1\nword Z output poly z0 z1\n";
    let circuit = circuit(&rt, rt.alloc(), MULTIPLIER, signature);
    assert!(rt; has_steps(&rt, rt.alloc(), &circuit));
}
