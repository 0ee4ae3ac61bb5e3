//! The lines of a signature that have tokens.
ghost use Rattle.std.specs.Prelude.{◌≡◌, ◌+◌, ◌≤◌, ◌<◌, ◌∷◌, [], length, IfOk, IfErr, IfSome, IsSome, IsNone};
ghost use Rattle.net_signature.specs.declared.fault.SigFault.TheVariants.{OutOfMemory};

use crate::fault::SigFault;
use std::alloc::Global;
use text_core::{before_comment, next_line, tokens};

/// A line with tokens, by its number from 1.
#[derive(Drop)]
pub struct Statement<'a> {
    pub number: u32,
    pub tokens: Vec<&'a [u8]>,
}

/// What is left of a text, whose first line has the number `next`.
#[derive(Drop)]
pub struct Lines<'a> {
    alloc: Global,
    rest: &'a [u8],
    next: u32,
    ghost short: { next + length rest.now ≤ 67108865 },
}

impl<'a> Lines<'a> {
    ghost use Rattle.net_signature.specs.Reading.{Fits, left, end_of, line_of};
    ghost use Rattle.net_signature.specs.Outcomes.{first_of};
    ghost use Rattle.outcome.specs.Outcome.{Returns};
    ghost use Rattle.net_signature.specs.Lines.{lines_from, end_from};

    /// The lines of a text of at most 67,108,864 bytes.
    pub fn new(alloc: Global, text: &'a [u8]) -> Lines<'a>
        requires { length text.now ≤ 67108864 }
        ensures left { left result ≡ lines_from 1 text.now }
        ensures end { end_of result ≡ end_from 1 text.now }
    {
        Lines {
            alloc,
            rest: text,
            next: 1,
        }
    }

    /// The next line with tokens.
    pub fn next(&mut self) -> Result<Option<Statement<'a>>, SigFault>
        ensures line { IfOk result (λ next. IfSome next (λ s. left self.old ≡ line_of s ∷ left self.new)) }
        ensures none { IfOk result (λ next. IsNone next → left self.old ≡ []) }
        ensures last { IfOk result (λ next. IsNone next → self.new.next ≡ end_of self.old) }
        ensures end { end_of self.new ≡ end_of self.old }
        ensures shorter { IfOk result (λ next. IsSome next → length self.new.rest.now < length self.old.rest.now) }
        ensures only { IfErr result (λ e. e ≡ OutOfMemory) }
    {
        while !self.rest.is_empty() {
            if let Some(statement) = self.take_line()? {
                return Ok(Some(statement));
            }
        }
        Ok(None)
    }

    /// The next line with tokens, which is missed at the end of the text.
    pub fn required(&mut self) -> Result<Statement<'a>, SigFault>
        ensures line { Fits (λ s. (line_of s, left self.new)) result (Returns (first_of (end_of self.old) (left self.old))) }
        ensures end { end_of self.new ≡ end_of self.old }
    {
        match self.next()? {
            Some(statement) => Ok(statement),
            None => Err(SigFault::Syntax { line: self.next }),
        }
    }

    /// What is left, to be read ahead.
    pub fn from_here(&self) -> Lines<'a>
        ensures { left result ≡ left self.now }
    {
        Lines {
            alloc: self.alloc,
            rest: self.rest,
            next: self.next,
        }
    }

    // The next line, if it has tokens.
    fn take_line(&mut self) -> Result<Option<Statement<'a>>, SigFault>
        requires { 0 < length self.old.rest.now }
        ensures line { IfOk result (λ next. IfSome next (λ s. left self.old ≡ line_of s ∷ left self.new)) }
        ensures none { IfOk result (λ next. IsNone next → left self.new ≡ left self.old) }
        ensures end { end_of self.new ≡ end_of self.old }
        ensures shorter { length self.new.rest.now < length self.old.rest.now }
        ensures only { IfErr result (λ e. e ≡ OutOfMemory) }
    {
        let (line, rest) = next_line(self.rest);
        let number = self.next;
        self.rest = rest;
        self.next += 1;
        let tokens = tokens(self.alloc, before_comment(line))?;
        if tokens.len() > 0 {
            Ok(Some(Statement { number, tokens }))
        } else {
            Ok(None)
        }
    }
}
