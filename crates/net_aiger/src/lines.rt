//! Lines, one after another.
ghost use Rattle.std.specs.Prelude.{◌≡◌, ◌++◌, ◌∷◌, [], IfErr, OnOk, nat_le, length};
ghost use Rattle.net_aiger.specs.private.Run.{Follows, and_line as and_says, define as defines, input_line as input_says, latch_of as latch_that, number_line as numbers_say, one_line as line_says, output_line as output_says, section_line as section_says, start_of as start_that, with_latch};
ghost use Rattle.net_aiger.specs.Numbers.{numbers_of, words_of};

use crate::AigerFault;
use crate::numbers::{number, numbers_in};
use crate::reader::Reader;
use crate::reading::{AndLine, LatchLine, Use};
use net_core::Start;

// What a latch begins with.
fn start_of(literal: u32, start: u32) -> Option<Start>
    ensures { result ≡ start_that literal start }
{
    if start == 0 {
        Some(Start::Zero)
    } else if start == 1 {
        Some(Start::One)
    } else if start == literal {
        Some(Start::Unknown)
    } else {
        None
    }
}

// The latch that numbers say.
fn latch_of(numbers: &[u32]) -> Option<LatchLine>
    ensures { result ≡ latch_that numbers.now }
{
    match numbers {
        [literal, next] => Some(LatchLine {
            literal: *literal,
            next: *next,
            start: Start::Zero,
        }),
        [literal, next, start] => match start_of(*literal, *start) {
            Some(start) => Some(LatchLine {
                literal: *literal,
                next: *next,
                start,
            }),
            None => None,
        },
        _ => None,
    }
}

impl Reader {
    // Whether a further net would have no number. The count of lines in memory is below 2^32.
    fn is_full(&self) -> bool
        ensures { result ≡ nat_le 4294967295 (length self.now.defined) }
    {
        self.defined.len() >= 0xffff_ffff
    }

    // Defines a literal on a line that uses two others.
    fn define(&mut self, line: u32, literal: u32, left: u32, right: u32) -> Result<(), AigerFault>
        ensures { Follows result self.new (defines line literal left right self.old) }
    {
        if !self.header.fits(literal, left, right) {
            return Err(AigerFault::Literal { line });
        }
        if self.defined.contains(&literal) {
            return Err(AigerFault::DefinedTwice { line });
        }
        if self.is_full() {
            return Err(AigerFault::OutOfMemory);
        }
        self.defined.insert(literal)?;
        Ok(())
    }

    // Notes that a line uses a literal.
    fn note(&mut self, line: u32, literal: u32) -> Result<(), AigerFault>
        ensures made { OnOk result (self.new ≡ record self.old { uses = self.old.uses ++ record { line = line; literal = literal } ∷ [] }) }
        ensures fault { IfErr result (λ e. e ≡ AigerFault.OutOfMemory) }
    {
        self.uses.push(Use { line, literal })?;
        Ok(())
    }

    // What a line of an input says.
    fn input_line(&mut self, line: u32, numbers: &[u32]) -> Result<(), AigerFault>
        ensures { Follows result self.new (input_says line numbers.now self.old) }
    {
        let [literal] = numbers else {
            return Err(AigerFault::Syntax { line });
        };
        self.define(line, *literal, 0, 0)?;
        self.ports.push(*literal)?;
        Ok(())
    }

    // What a line of a latch says.
    fn latch_line(&mut self, line: u32, latch: Option<LatchLine>) -> Result<(), AigerFault>
        ensures { Follows result self.new (with_latch line latch self.old) }
    {
        let Some(latch) = latch else {
            return Err(AigerFault::Syntax { line });
        };
        self.define(line, latch.literal, latch.next, 0)?;
        self.ports.push(latch.literal)?;
        self.latches.push(latch)?;
        self.note(line, latch.next)?;
        Ok(())
    }

    // What a line of an output says.
    fn output_line(&mut self, line: u32, numbers: &[u32]) -> Result<(), AigerFault>
        ensures { Follows result self.new (output_says line numbers.now self.old) }
    {
        let [literal] = numbers else {
            return Err(AigerFault::Syntax { line });
        };
        if !self.header.has(*literal) {
            return Err(AigerFault::Literal { line });
        }
        self.ports.push(*literal)?;
        self.note(line, *literal)?;
        Ok(())
    }

    // What a line of an AND says.
    fn and_line(&mut self, line: u32, numbers: &[u32]) -> Result<(), AigerFault>
        ensures { Follows result self.new (and_says line numbers.now self.old) }
    {
        let [literal, left, right] = numbers else {
            return Err(AigerFault::Syntax { line });
        };
        let (literal, left, right) = (*literal, *left, *right);
        self.define(line, literal, left, right)?;
        self.ands.push(AndLine {
            literal,
            left,
            right,
        })?;
        self.note(line, left)?;
        self.note(line, right)?;
        Ok(())
    }

    // What a line of numbers says, by what stands before it.
    fn section_line(&mut self, line: u32, numbers: &[u32]) -> Result<(), AigerFault>
        ensures { Follows result self.new (section_says line numbers.now self.old) }
    {
        let ports = self.ports.len() as u64;
        if ports < u64::from(self.header.inputs) {
            self.input_line(line, numbers)
        } else if ports < self.header.driven() {
            self.latch_line(line, latch_of(numbers))
        } else if ports < self.header.ports() {
            self.output_line(line, numbers)
        } else {
            self.and_line(line, numbers)
        }
    }

    // What a line says that is to say numbers, which are put into a list.
    fn listed_line(&mut self, line: u32, bytes: &[u8]) -> Result<(), AigerFault>
        ensures { Follows result self.new (numbers_say line (numbers_of (words_of bytes.now)) self.old) }
    {
        let Some(numbers) = numbers_in(self.alloc, bytes)? else {
            return Err(AigerFault::Syntax { line });
        };
        self.section_line(line, &numbers)
    }

    // What a line says that is to say numbers. One that is a number alone, as an input's and an output's, needs no list.
    fn number_line(&mut self, line: u32, bytes: &[u8]) -> Result<(), AigerFault>
        ensures { Follows result self.new (numbers_say line (numbers_of (words_of bytes.now)) self.old) }
    {
        match number(bytes) {
            Some(number) => self.section_line(line, &[number]),
            None => self.listed_line(line, bytes),
        }
    }

    /// What one more line says.
    pub(crate) fn read_line(&mut self, line: u32, bytes: &[u8]) -> Result<(), AigerFault>
        ensures { Follows result self.new (line_says line bytes.now self.old) }
    {
        if self.is_complete() {
            self.symbol_line(line, bytes)
        } else {
            self.number_line(line, bytes)
        }
    }
}
