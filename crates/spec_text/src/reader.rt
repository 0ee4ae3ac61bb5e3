//! A specification from its text.
ghost use Rattle.std.specs.Prelude.{◌≡◌, ◌≤◌, ◌<◌, ◌+◌, ◌^◌, ℕ, [], length, drop, OnOk, IfOk, IfSome, Option, bytes_eq, nat_lt, nat_le};
ghost use Rattle.text_core.specs.Scan.{run, is_white, IsValue};
ghost use Rattle.poly_mixed.specs.Labels.{word_of as number_of_word};
ghost use Rattle.spec_text.specs.Token.{Token};
ghost use Rattle.spec_text.specs.declared.reader.Next.{Next};
ghost use Rattle.spec_text.specs.Fault.{SpecOutcome};
ghost use Rattle.spec_expand.specs.Specification.{IsOverWords};
ghost use Rattle.spec_text.specs.private.Scanning.{IsSeen};
ghost use Rattle.spec_text.specs.private.Progress.{closed, name_read, number_read, exponent_read, fitting, hex_read, decimal_read, times_read, plus_read, token_read, end_read, IsEnd, RefusesAs, StepsTo, so_far};

use crate::fault::SpecFault;
use crate::scan::{Scanned, token};
use gf_field::{Field, is_element};
use poly_mixed::Labels;
use spec_expand::{Spec, SpecTerm};
use std::alloc::{AllocError, Global};
use std::mem;
use text_core::{Class, front};

/// What may come next.
#[derive(Clone, Copy)]
pub(crate) enum Next {
    Output,
    Assign,
    Factor,
    AfterNumber,
    AfterName(u32),
    Exponent(u32),
}

// The closed terms, and of the term that is read the product of its numbers and its powers.
#[derive(Drop)]
struct Reading {
    terms: Vec<SpecTerm>,
    coefficient: u64,
    powers: Vec<(u32, u64)>,
    alloc: Global,
}

impl Reading {
    // Closes the term.
    fn close(&mut self) -> Result<(), AllocError>
        requires few { length self.old.powers.items < 2 ^ 26 }
        ensures terms { OnOk result (self.new.terms.items ≡ closed self.old.terms.items self.old.coefficient self.old.powers.items) }
        ensures coefficient { OnOk result (self.new.coefficient ≡ 1) }
        ensures powers { OnOk result (self.new.powers.items ≡ []) }
    {
        let powers = mem::replace(&mut self.powers, Vec::new(self.alloc));
        let coefficient = self.coefficient;
        self.coefficient = 1;
        self.terms.push(SpecTerm::new(coefficient, powers))?;
        Ok(())
    }

    // A name: the output word's on the left, and else an input, state or fed word's. It takes no memory.
    fn name(&self, labels: &Labels, next: Next, name: &[u8], place: u32) -> Result<Next, SpecFault>
        ensures step { StepsTo (name_read labels.now next (so_far self.now next) name.now place) self.now result }
        ensures fault { RefusesAs (name_read labels.now next (so_far self.now next) name.now place) result }
    {
        match next {
            Next::Output => {
                if is_output(labels, name) {
                    Ok(Next::Assign)
                } else {
                    Err(SpecFault::UnknownWord { place })
                }
            }
            Next::Factor => match word_of(labels, name) {
                Some(word) => Ok(Next::AfterName(word)),
                None => Err(SpecFault::UnknownWord { place }),
            },
            _ => Err(SpecFault::Syntax { place }),
        }
    }

    // A number as a factor, where it fits. It takes no memory.
    fn number<F: Field>(
        &mut self,
        field: &F,
        value: Option<u64>,
        place: u32,
    ) -> Result<Next, SpecFault>
        requires element { self.old.coefficient < 2 ^ F.degree field.now }
        requires fits { IfSome value (λ n. n < 2 ^ F.degree field.now) }
        ensures step { (next : Next) (said : Option ℕ) → value ≡ said → StepsTo (number_read (F.product field.now) said (so_far self.old next) place) self.new result }
        ensures fault { (next : Next) (said : Option ℕ) → value ≡ said → RefusesAs (number_read (F.product field.now) said (so_far self.old next) place) result }
    {
        match value {
            Some(n) => {
                self.coefficient = field.mul(self.coefficient, n);
                Ok(Next::AfterNumber)
            }
            None => Err(SpecFault::BadNumber { place }),
        }
    }

    // An exponent of a word, where it fits.
    fn exponent(&mut self, word: u32, value: Option<u64>, place: u32) -> Result<Next, SpecFault>
        ensures { (next : Next) (n : ℕ) → IsValue value n → StepsTo (exponent_read word (fitting (nat_lt n (2 ^ 64)) n) (so_far self.old next) place) self.new result }
    {
        match value {
            Some(n) => {
                self.powers.push((word, n))?;
                Ok(Next::AfterNumber)
            }
            None => Err(SpecFault::BadNumber { place }),
        }
    }

    // A hexadecimal number: an element of the field. It takes no memory.
    fn hex<F: Field>(
        &mut self,
        field: &F,
        next: Next,
        value: Option<u64>,
        place: u32,
    ) -> Result<Next, SpecFault>
        requires { self.old.coefficient < 2 ^ F.degree field.now }
        ensures step { (n : ℕ) → IsValue value n → StepsTo (hex_read (F.degree field.now) (F.product field.now) next (so_far self.old next) n place) self.new result }
        ensures fault { (n : ℕ) → IsValue value n → RefusesAs (hex_read (F.degree field.now) (F.product field.now) next (so_far self.old next) n place) result }
    {
        match next {
            Next::Factor => self.number(field, element_in(field, value), place),
            _ => Err(SpecFault::Syntax { place }),
        }
    }

    // A decimal number: a factor 0 or 1, or an exponent.
    fn decimal<F: Field>(
        &mut self,
        field: &F,
        next: Next,
        value: Option<u64>,
        place: u32,
    ) -> Result<Next, SpecFault>
        requires { self.old.coefficient < 2 ^ F.degree field.now }
        ensures { (n : ℕ) → IsValue value n → StepsTo (decimal_read (F.product field.now) next (so_far self.old next) n place) self.new result }
    {
        match next {
            Next::Factor => self.number(field, bit_in(field, value), place),
            Next::Exponent(word) => self.exponent(word, value, place),
            _ => Err(SpecFault::Syntax { place }),
        }
    }

    // `*` after a factor.
    fn times(&mut self, next: Next, place: u32) -> Result<Next, SpecFault>
        ensures { StepsTo (times_read next (so_far self.old next) place) self.new result }
    {
        match next {
            Next::AfterNumber => Ok(Next::Factor),
            Next::AfterName(word) => {
                self.powers.push((word, 1))?;
                Ok(Next::Factor)
            }
            _ => Err(SpecFault::Syntax { place }),
        }
    }

    // `+` after a term.
    fn plus(&mut self, next: Next, place: u32) -> Result<Next, SpecFault>
        requires few { length self.old.powers.items + 1 < 2 ^ 26 }
        ensures { StepsTo (plus_read next (so_far self.old next) place) self.new result }
    {
        match next {
            Next::AfterNumber => {
                self.close()?;
                Ok(Next::Factor)
            }
            Next::AfterName(word) => {
                self.powers.push((word, 1))?;
                self.close()?;
                Ok(Next::Factor)
            }
            _ => Err(SpecFault::Syntax { place }),
        }
    }

    // One token at its place.
    fn step<F: Field>(
        &mut self,
        field: &F,
        labels: &Labels,
        next: Next,
        scanned: Scanned<'_>,
        place: u32,
    ) -> Result<Next, SpecFault>
        requires few { length self.old.powers.items + 1 < 2 ^ 26 }
        requires element { self.old.coefficient < 2 ^ F.degree field.now }
        ensures { (t : Token) → IsSeen scanned.entry t → StepsTo (token_read labels.now (F.degree field.now) (F.product field.now) (so_far self.old next) t place) self.new result }
    {
        match scanned {
            Scanned::Named(name) => self.name(labels, next, name, place),
            Scanned::HexNumber(value) => self.hex(field, next, value, place),
            Scanned::DecimalNumber(value) => self.decimal(field, next, value, place),
            Scanned::TimesSign => self.times(next, place),
            Scanned::PlusSign => self.plus(next, place),
            Scanned::EqualsSign => match next {
                Next::Assign => Ok(Next::Factor),
                _ => Err(SpecFault::Syntax { place }),
            },
            Scanned::PowerSign => match next {
                Next::AfterName(word) => Ok(Next::Exponent(word)),
                _ => Err(SpecFault::Syntax { place }),
            },
        }
    }

    // The end of the text.
    fn end(&mut self, next: Next, place: u32) -> Result<(), SpecFault>
        requires few { length self.old.powers.items + 1 < 2 ^ 26 }
        ensures { IsEnd (end_read next (so_far self.old next) place) self.new.terms.items result }
    {
        match next {
            Next::AfterNumber => {
                self.close()?;
                Ok(())
            }
            Next::AfterName(word) => {
                self.powers.push((word, 1))?;
                self.close()?;
                Ok(())
            }
            _ => Err(SpecFault::Syntax { place }),
        }
    }
}

// Whether the name is the output word's.
fn is_output(labels: &Labels, name: &[u8]) -> bool
    ensures { result ≡ bytes_eq name.now labels.now.output }
{
    name == labels.output().as_bytes()
}

// The number of the word of a name.
fn word_of(labels: &Labels, name: &[u8]) -> Option<u32>
    ensures { result ≡ number_of_word labels.now.words name.now }
{
    for word in 0..labels.words() {
        if labels.name(word).as_bytes() == name {
            return Some(word);
        }
    }
    None
}

// The number, where it is an element of the field.
fn element_in<F: Field>(field: &F, value: Option<u64>) -> Option<u64>
    ensures fits { (n : ℕ) → IsValue value n → result ≡ fitting (nat_lt n (2 ^ F.degree field.now)) n }
    ensures element { IfSome result (λ n. n < 2 ^ F.degree field.now) }
{
    match value {
        Some(n) => { if is_element(field, n) { Some(n) } else { None } }
        None => None,
    }
}

// The number, where it is 0 or 1.
fn bit_in<F: Field>(field: &F, value: Option<u64>) -> Option<u64>
    ensures fits { (n : ℕ) → IsValue value n → result ≡ fitting (nat_le n 1) n }
    ensures element { IfSome result (λ n. n < 2 ^ F.degree field.now) }
{
    let _k = field.k();
    match value {
        Some(n) => { if n <= 1 { Some(n) } else { None } }
        None => None,
    }
}

// How many white bytes stand at a place.
fn white_at(bytes: &[u8], at: usize) -> usize
    requires { at ≤ length bytes.now }
    ensures { result ≡ length (run is_white (drop at bytes.now)) }
{
    front(&bytes[at..], Class::White).len()
}

/// The specification that a text says, or the fault of its first token that has one.
///
/// The text has at most 67,108,864 bytes. Words are numbered as in the labels. The left name is the output word's, the
/// others are those of input, state and fed words; a hexadecimal number is an element of the field, a decimal one as a
/// factor is 0 or 1, an exponent is below 2^64. Places are bytes from 0; at the end of the text it is the text's length.
pub fn read_spec<F: Field>(
    alloc: Global,
    field: &F,
    bytes: &[u8],
    labels: &Labels,
) -> Result<Spec, SpecFault>
    requires { length bytes.now ≤ 67108864 }
    ensures outcome { SpecOutcome labels.now (F.degree field.now) (F.product field.now) bytes.now result }
    ensures over { IfOk result (IsOverWords (F.degree field.now) (length labels.now.words)) }
{
    let _k = field.k();
    let mut reading = Reading {
        terms: Vec::new(alloc),
        coefficient: 1,
        powers: Vec::new(alloc),
        alloc,
    };
    let mut next = Next::Output;
    let mut at = white_at(bytes, 0);
    while at < bytes.len() {
        let (scanned, count) = match token(&bytes[at..]) {
            Some(found) => found,
            None => return Err(SpecFault::Syntax { place: at as u32 }),
        };
        next = match reading.step(field, labels, next, scanned, at as u32) {
            Ok(next) => next,
            Err(fault) => return Err(fault),
        };
        at += count;
        at += white_at(bytes, at);
    }
    match reading.end(next, at as u32) {
        Ok(()) => Ok(Spec::new(reading.terms)),
        Err(fault) => Err(fault),
    }
}
