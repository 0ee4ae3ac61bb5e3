//! Covers and their tables.
ghost use Rattle.std.specs.Prelude.{◌≡◌, ◌<◌, ◌≤◌, ◌+◌, ◌^◌, ◌++◌, ◌∷◌, [], Some, length, IsTrue, IfSome, OnOk, OnErr, if◌then◌else◌};
ghost use Rattle.net_blif.specs.Item.{IsSoundCover};
ghost use Rattle.net_blif.specs.private.FirstLine.{RowStandsAlone};
ghost use Rattle.net_blif.specs.Cover.{fits as row_fits, cell_fits as fits_cell, fits_some as some_fits, gate_bit as bit_of_gate, agrees as may_agree, number_of_bits, begun, gate_of, takes_row, with_row};

use crate::cells::cells_bits;
use crate::item_list::ItemList;
use crate::rows::{PlacedRow, row_in_place};
use crate::token::Token;
use std::alloc::{AllocError, Global};
use std::marker::Model;

/// A `.names` with the rows that have been read; its names and rows are those of the text.
pub struct Cover<'a> {
    line: u32,
    inputs: Vec<Token<'a>>,
    out: Token<'a>,
    output: Option<bool>,
    rows: Vec<Token<'a>>,
}

// By hand, so that a caller that lets one go makes one call, and not one for each part.
impl<'a> Drop for Cover<'a> {
    fn drop(self) {
        let Cover {
            line: _,
            inputs,
            out,
            output: _,
            rows,
        } = self;
        drop(inputs);
        drop(out);
        drop(rows);
    }
}

impl<'a> Model for Cover<'a> {
    ghost use Rattle.net_blif.specs.Cover.{CoverValue};

    ghost Value = { CoverValue };

    ghost view = { λ c. record { line = c.line; inputs = c.inputs.items; out = c.out; output = c.output; rows = c.rows.items } };
}

impl<'a> Cover<'a> {
    /// A cover of no nets. It takes no memory.
    pub fn new(alloc: Global) -> Cover<'a> {
        Cover {
            line: 0,
            inputs: Vec::new(alloc),
            out: Token::new(&[]),
            output: None,
            rows: Vec::new(alloc),
        }
    }

    /// Begins a cover at this line. An error leaves some cover.
    pub fn begin(
        &mut self,
        line: u32,
        inputs: &[Token<'a>],
        out: &'a [u8],
    ) -> Result<(), AllocError>
        ensures { OnOk result (self.new ≡ begun line inputs.now out.now) }
    {
        self.line = line;
        self.output = None;
        self.rows.clear();
        copy_tokens(inputs, &mut self.inputs)?;
        self.out = Token::new(out);
        Ok(())
    }

    /// Whether this may be the next row.
    pub fn takes(&self, pattern: &[u8], output: bool) -> bool
        ensures { result ≡ takes_row pattern.now output self.now }
    {
        pattern.len() == self.inputs.len() && agrees(self.output, output)
    }

    /// The row with which a text begins, where it may be the next row and its line stands alone. None says nothing.
    pub fn row_at<'t>(&self, text: &'t [u8]) -> Option<PlacedRow<'t>>
        requires { length self.now.inputs ≤ 6 }
        ensures row { IfSome result (λ r. RowStandsAlone text.now r.pattern.now r.output r.after.now) }
        ensures takes { IfSome result (λ r. IsTrue (takes_row r.pattern.now r.output self.now)) }
    {
        let Some(row) = row_in_place(text, self.inputs.len()) else {
            return None;
        };
        if !self.takes(row.pattern, row.output) {
            return None;
        }
        Some(row)
    }

    /// One more row.
    pub fn add_row(&mut self, pattern: &'a [u8], output: bool) -> Result<(), AllocError>
        ensures made { OnOk result (self.new ≡ with_row pattern.now output self.old) }
        ensures unchanged { OnErr result (self.new ≡ self.old) }
    {
        let Ok(()) = self.rows.push(Token::new(pattern)) else {
            return Err(AllocError);
        };
        self.output = Some(output);
        Ok(())
    }

    /// Places the gate that it describes behind these items.
    pub fn place(&self, items: &mut ItemList) -> Result<(), AllocError>
        requires { IsSoundCover self.now }
        ensures { OnOk result (items.new ≡ items.old ++ gate_of self.now ∷ []) }
    {
        let table = table(self.inputs.len() as u32, self.output, &self.rows);
        items.push_gate(self.line, &self.inputs, self.out.bytes(), table)
    }
}

// These tokens in place of those of a list.
fn copy_tokens<'a>(tokens: &[Token<'a>], list: &mut Vec<Token<'a>>) -> Result<(), AllocError>
    ensures { OnOk result (list.new.items ≡ tokens.now) }
{
    list.clear();
    for token in tokens {
        let Ok(()) = list.push(Token::new(token.bytes())) else {
            return Err(AllocError);
        };
    }
    Ok(())
}

// Whether a further row may have this output.
fn agrees(before: Option<bool>, output: bool) -> bool
    ensures { result ≡ may_agree before output }
{
    match before {
        None => true,
        Some(before) => before == output,
    }
}

// Whether the lowest bit of an index is as a cell asks.
fn cell_fits(cell: u8, index: u32) -> bool
    ensures { result ≡ fits_cell cell index }
{
    if cell == b'0' {
        index % 2 == 0
    } else if cell == b'1' {
        index % 2 == 1
    } else {
        true
    }
}

// Whether the bits of an index are as a row asks.
fn fits(pattern: &[u8], index: u32) -> bool
    ensures { result ≡ row_fits pattern.now index }
{
    match pattern {
        [] => true,
        [cell, rest @ ..] => cell_fits(*cell, index) && fits(rest, index / 2),
    }
}

// The bits with one more.
fn with_bit(bits: u64, index: u32, bit: bool) -> u64
    requires index { index < 64 }
    requires bits { bits < 2 ^ index }
    ensures value { result ≡ bits + (if bit then 2 ^ index else 0) }
    ensures small { result < 2 ^ (index + 1) }
{
    if bit { bits + (1 << index) } else { bits }
}

// How many bits a table has.
fn size(inputs: u32) -> u32
    requires { inputs ≤ 6 }
    ensures size { result ≡ 2 ^ inputs }
    ensures small { result ≤ 64 }
{
    match inputs {
        0 => 1,
        1 => 2,
        2 => 4,
        3 => 8,
        4 => 16,
        5 => 32,
        _ => 64,
    }
}

// A table whose bits are all 1.
fn all_ones(inputs: u32) -> u64
    requires { inputs ≤ 6 }
    ensures { result + 1 ≡ 2 ^ (2 ^ inputs) }
{
    match inputs {
        0 => 0x1,
        1 => 0x3,
        2 => 0xf,
        3 => 0xff,
        4 => 0xffff,
        5 => 0xffff_ffff,
        _ => 0xffff_ffff_ffff_ffff,
    }
}

// The bits of the indices that a row of any length fits. Out of line, since rows of covers have a cell for each input.
#[cold]
#[inline(never)]
fn index_by_index(inputs: u32, pattern: &[u8]) -> u64
    requires { inputs ≤ 6 }
    ensures { result ≡ number_of_bits (row_fits pattern.now) (2 ^ inputs) }
{
    let mut bits = 0;
    for index in 0..size(inputs) {
        bits = with_bit(bits, index, fits(pattern, index));
    }
    bits
}

// The bits of the indices that a row fits. Always inlined, as `cells_bits` is.
#[inline(always)]
fn row_bits(inputs: u32, pattern: &[u8]) -> u64
    requires { inputs ≤ 6 }
    ensures { result ≡ number_of_bits (row_fits pattern.now) (2 ^ inputs) }
{
    if pattern.len() == inputs as usize {
        cells_bits(pattern)
    } else {
        index_by_index(inputs, pattern)
    }
}

// The bits of the indices that some row fits. Always inlined, since most covers have one short row.
#[inline(always)]
fn rows_bits(inputs: u32, rows: &[Token<'_>]) -> u64
    requires { inputs ≤ 6 }
    ensures { result ≡ number_of_bits (some_fits rows.now) (2 ^ inputs) }
{
    let mut bits = 0;
    for row in rows {
        bits |= row_bits(inputs, row.bytes());
    }
    bits
}

// The table of a cover with this output and these rows.
fn table(inputs: u32, output: Option<bool>, rows: &[Token<'_>]) -> u64
    requires { inputs ≤ 6 }
    ensures small { result < 2 ^ (2 ^ inputs) }
    ensures bits { result ≡ number_of_bits (λ index. bit_of_gate output (some_fits rows.now index)) (2 ^ inputs) }
{
    match output {
        None => 0,
        Some(true) => rows_bits(inputs, rows),
        Some(false) => all_ones(inputs) - rows_bits(inputs, rows),
    }
}
