//! A polynomial from its text.
ghost use Rattle.std.specs.Prelude.{◌≡◌, ◌==◌, ◌&&◌, ℕ, ◌≤◌, [], length, nat_lt, OnOk, IfOk, IfErr, IsOkUnless, Ok};
ghost use Rattle.outcome.specs.Outcome.{Fits};
ghost use Rattle.poly_mixed.specs.Said.{added, one};
ghost use Rattle.poly_mixed.specs.private.Reading.{reading, with_variable, next_at, factor_at, after_zero, coefficient_at, zero_at, term_at, advanced, IsSaid};
ghost use Rattle.text_core.specs.Scan.{run, is_hex_digit};
ghost use Rattle.poly_mixed.specs.private.ReadingState.{IsStep, IsAdded, IsFresh, IsFreshAfter, RefusesAs, progress};
ghost use Rattle.poly_mixed.specs.Polynomial.{Terms, IsReduced};
ghost use Rattle.poly_mixed.specs.TextOutcome.{text_fault, TextOutcome};
ghost use Rattle.poly_mixed.specs.Monomial.{Monomial};

use crate::numbers::{exponent, is_below};
use crate::variables::{Variable, read_variable};
use crate::{Labels, Mono, Poly, PolyFault};
use std::alloc::{AllocError, Global};
use std::mem;
use text_core::{Class, after, front, skip_blanks, value_in_base};

// What comes after a part of a text: nothing, a term or a further factor.
#[derive(Clone, Copy)]
enum Next<'a> {
    Done,
    Term(&'a [u8]),
    Factor(&'a [u8]),
}

// The sum of the terms that were read, and the term that is read.
#[derive(Drop)]
struct Reading {
    sum: Poly,
    coefficient: u64,
    mono: Mono,
}

impl Reading {
    // Adds the term to the sum.
    fn close(&mut self, alloc: Global) -> Result<(), AllocError>
        ensures sum { OnOk result (self.new.sum.terms ≡ added self.old.sum.terms self.old.coefficient self.old.mono) }
        ensures coefficient { OnOk result (self.new.coefficient ≡ 1) }
        ensures mono { OnOk result (self.new.mono ≡ one) }
    {
        let empty = Mono::new(alloc, &[], &[0; 8])?;
        let mono = mem::replace(&mut self.mono, empty);
        let coefficient = self.coefficient;
        self.coefficient = 1;
        if coefficient != 0 {
            self.sum.add_term(mono, coefficient)?;
        }
        Ok(())
    }

    // What stands after a factor.
    fn next<'a>(&mut self, alloc: Global, bytes: &'a [u8]) -> Result<Next<'a>, PolyFault>
        ensures step { IsStep (next_at self.old.sum.terms self.old.coefficient self.old.mono bytes.now) self.new.sum.terms self.new.coefficient self.new.mono result }
        ensures fresh { IsFreshAfter result self.new.coefficient self.new.mono }
    {
        match bytes {
            [] => {
                self.close(alloc)?;
                Ok(Next::Done)
            }
            [b'*', rest @ ..] => Ok(Next::Factor(rest)),
            [b'+', rest @ ..] => {
                self.close(alloc)?;
                Ok(Next::Term(rest))
            }
            _ => Err(PolyFault::Syntax),
        }
    }

    // A factor, and what stands after it.
    fn factor<'a>(
        &mut self,
        alloc: Global,
        labels: &Labels,
        k: u32,
        bytes: &'a [u8],
    ) -> Result<Next<'a>, PolyFault>
        requires { (1 ≤ k) × (k ≤ 64) }
        ensures step { IsStep (factor_at labels.now k self.old.sum.terms self.old.coefficient self.old.mono bytes.now) self.new.sum.terms self.new.coefficient self.new.mono result }
        ensures fresh { IsFreshAfter result self.new.coefficient self.new.mono }
    {
        match read_variable(labels, bytes) {
            Ok((variable, rest)) => match add_variable(&mut self.mono, k, variable, rest) {
                Ok(rest) => self.next(alloc, skip_blanks(rest)),
                Err(fault) => Err(fault),
            },
            Err(fault) => Err(fault),
        }
    }

    // One part further.
    fn advance<'a>(
        &mut self,
        alloc: Global,
        labels: &Labels,
        k: u32,
        next: Next<'a>,
    ) -> Result<Next<'a>, PolyFault>
        requires k_in { (1 ≤ k) × (k ≤ 64) }
        requires fresh { IsFresh next self.old.coefficient self.old.mono }
        ensures step { IsStep (advanced labels.now k (Ok (progress next.entry self.old.sum.terms self.old.coefficient self.old.mono))) self.new.sum.terms self.new.coefficient self.new.mono result }
        ensures fresh { IsFreshAfter result self.new.coefficient self.new.mono }
    {
        match next {
            Next::Done => Ok(Next::Done),
            Next::Term(rest) => self.term(alloc, labels, k, skip_blanks(rest)),
            Next::Factor(rest) => self.factor(alloc, labels, k, skip_blanks(rest)),
        }
    }

    // A term, at whose front no factor was read.
    fn term<'a>(
        &mut self,
        alloc: Global,
        labels: &Labels,
        k: u32,
        bytes: &'a [u8],
    ) -> Result<Next<'a>, PolyFault>
        requires k_in { (1 ≤ k) × (k ≤ 64) }
        requires coefficient { self.old.coefficient ≡ 1 }
        requires mono { self.old.mono ≡ one }
        ensures step { IsStep (term_at labels.now k self.old.sum.terms bytes.now) self.new.sum.terms self.new.coefficient self.new.mono result }
        ensures fresh { IsFreshAfter result self.new.coefficient self.new.mono }
    {
        match bytes {
            [b'0', rest @ ..] => self.after_0(alloc, k, rest),
            [] => Err(PolyFault::Syntax),
            _ => self.factor(alloc, labels, k, bytes),
        }
    }

    // What stands after a `0` at the front of a term: the rest of a coefficient, or of the term `0`.
    fn after_0<'a>(&mut self, alloc: Global, k: u32, bytes: &'a [u8]) -> Result<Next<'a>, PolyFault>
        requires k_in { (1 ≤ k) × (k ≤ 64) }
        requires coefficient { self.old.coefficient ≡ 1 }
        requires mono { self.old.mono ≡ one }
        ensures step { IsStep (zero_at k self.old.sum.terms bytes.now) self.new.sum.terms self.new.coefficient self.new.mono result }
        ensures fresh { IsFreshAfter result self.new.coefficient self.new.mono }
    {
        match bytes {
            [] => Ok(Next::Done),
            [first, digits @ ..] => {
                if is_coefficient(*first, digits) {
                    self.coefficient(alloc, k, digits)
                } else {
                    after_term_0(skip_blanks(bytes))
                }
            }
        }
    }

    // The digits of a coefficient, and what stands after them.
    fn coefficient<'a>(
        &mut self,
        alloc: Global,
        k: u32,
        bytes: &'a [u8],
    ) -> Result<Next<'a>, PolyFault>
        requires k_in { (1 ≤ k) × (k ≤ 64) }
        requires mono { self.old.mono ≡ one }
        ensures step { IsStep (coefficient_at k self.old.sum.terms bytes.now) self.new.sum.terms self.new.coefficient self.new.mono result }
        ensures fresh { IsFreshAfter result self.new.coefficient self.new.mono }
    {
        match value_in_base(front(bytes, Class::HexDigit), 16) {
            Some(c) if is_below(c, k) => {
                self.coefficient = c;
                self.next(alloc, skip_blanks(after(bytes, Class::HexDigit)))
            }
            _ => Err(PolyFault::Syntax),
        }
    }

    // All parts of a text, from its first term on.
    fn parts(
        &mut self,
        alloc: Global,
        bytes: &[u8],
        k: u32,
        labels: &Labels,
    ) -> Result<(), PolyFault>
        requires k_in { (1 ≤ k) × (k ≤ 64) }
        requires sum { self.old.sum.terms ≡ [] }
        requires coefficient { self.old.coefficient ≡ 1 }
        requires mono { self.old.mono ≡ one }
        ensures read { OnOk result (reading labels.now k bytes.now ≡ Ok self.new.sum.terms) }
        ensures fault { IfErr result (IsSaid (reading labels.now k bytes.now)) }
    {
        let mut next = Next::Term(bytes);
        for _ in 0..bytes.len() + 1 {
            match self.advance(alloc, labels, k, next) {
                Ok(more) => next = more,
                Err(fault) => return Err(fault),
            }
        }
        match next {
            Next::Done => Ok(()),
            Next::Term(_) => Err(PolyFault::Syntax),
            Next::Factor(_) => Err(PolyFault::Syntax),
        }
    }
}

// Whether a byte after a `0` and the bytes after it begin a coefficient.
fn is_coefficient(first: u8, digits: &[u8]) -> bool
    ensures { result ≡ ((first == 120) && nat_lt 0 (length (run is_hex_digit digits.now))) }
{
    first == b'x' && !front(digits, Class::HexDigit).is_empty()
}

// What stands after the term `0`. It takes no memory.
fn after_term_0(bytes: &[u8]) -> Result<Next<'_>, PolyFault>
    ensures step { (sum : Terms) (c : ℕ) (m : Monomial) → c ≡ 1 → m ≡ one → IsStep (after_zero sum bytes.now) sum c m result × IsFreshAfter result c m }
    ensures fault { IsOkUnless result PolyFault.Syntax }
{
    match bytes {
        [] => Ok(Next::Done),
        [b'+', rest @ ..] => Ok(Next::Term(rest)),
        _ => Err(PolyFault::Syntax),
    }
}

// Puts a word into a monomial that lacks it, with the exponent that stands after it. It takes no memory.
fn add_word<'a>(
    mono: &mut Mono,
    k: u32,
    word: usize,
    bytes: &'a [u8],
) -> Result<&'a [u8], PolyFault>
    requires { (1 ≤ k) × (k ≤ 64) }
    ensures added { IsAdded (with_variable k mono.old (Ok (Variable.Word word, bytes.now))) mono.new result }
    ensures fault { RefusesAs (with_variable k mono.old (Ok (Variable.Word word, bytes.now))) result }
{
    if word >= 8 || mono.exponents()[word] != 0 {
        return Err(PolyFault::Syntax);
    }
    match exponent(k, bytes) {
        Ok((exponent, rest)) => {
            mono.set_exponent(word, exponent);
            Ok(rest)
        }
        Err(fault) => Err(fault),
    }
}

// Puts a variable into a monomial that lacks it, with the exponent that stands after a word.
fn add_variable<'a>(
    mono: &mut Mono,
    k: u32,
    variable: Variable,
    bytes: &'a [u8],
) -> Result<&'a [u8], PolyFault>
    requires { (1 ≤ k) × (k ≤ 64) }
    ensures { IsAdded (with_variable k mono.old (Ok (variable, bytes.now))) mono.new result }
{
    match variable {
        Variable::Word(word) => add_word(mono, k, word, bytes),
        Variable::Rank(rank) => {
            if mono.has(rank) {
                return Err(PolyFault::Syntax);
            }
            mono.add_bit(rank)?;
            Ok(bytes)
        }
    }
}

/// The polynomial that a text says, in the variables that labels name, over a field of 2^k elements with k from 1 to 64.
/// Terms may stand in any order, and equal monomials add up; the fault is that of the first token that has one.
pub fn read_poly(alloc: Global, bytes: &[u8], k: u32, labels: &Labels) -> Result<Poly, PolyFault>
    requires { (1 ≤ k) × (k ≤ 64) }
    ensures outcome { Fits text_fault (λ p. p.terms) result (TextOutcome labels.now k bytes.now) }
    ensures reduced { IfOk result (λ p. IsReduced k p.terms) }
{
    labels.check();
    read_parts(alloc, bytes, k, labels)
}

// The same, part by part.
fn read_parts(alloc: Global, bytes: &[u8], k: u32, labels: &Labels) -> Result<Poly, PolyFault>
    requires { (1 ≤ k) × (k ≤ 64) }
    ensures read { IfOk result (λ p. reading labels.now k bytes.now ≡ Ok p.terms) }
    ensures fault { IfErr result (IsSaid (reading labels.now k bytes.now)) }
{
    let mut reading = Reading {
        mono: Mono::new(alloc, &[], &[0; 8])?,
        sum: Poly::zero(alloc),
        coefficient: 1,
    };
    match reading.parts(alloc, bytes, k, labels) {
        Ok(()) => Ok(reading.sum),
        Err(fault) => Err(fault),
    }
}
