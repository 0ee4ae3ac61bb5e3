//! What words and numbers are.
ghost use Rattle.std.specs.Prelude.{◌≡◌, ◌⊎◌};
ghost use Rattle.std.specs.List.{list_all};
ghost use Rattle.net_verilog.specs.Bytes.{is_digit as digit_is};
ghost use Rattle.net_verilog.specs.Words.{bit_of as bit_that, is_base as base_is, is_decimal as decimal_is, is_keyword as keyword_is, literal_of as literal_that, next_kind, start_of as start_that, wrong as wrong_token};
ghost use Rattle.net_verilog.specs.Tokens.{is_end as end_is};
ghost use Rattle.net_verilog.specs.Targets.{is_open_index as open_index_is};
ghost use Rattle.net_verilog.specs.private.Keywords.{is_plain_keyword as plain_is};
ghost use Rattle.net_verilog.specs.private.Places.{Prints, value_of};
ghost use Rattle.text_core.specs.Lines.{IsPrinting};

use crate::gate_kind::gate_of;
use crate::piece::is_digit;
use crate::{Kind, Next, Operator, Start, Token, VerilogFault};
use net_core::Name;
use std::alloc::Global;
use text_core::printing_text;

// Whether a word is a keyword that is no gate.
fn is_plain_keyword(word: &[u8]) -> bool
    ensures { result ≡ plain_is word.now }
{
    word == b"module".as_slice()
        || word == b"endmodule".as_slice()
        || word == b"input".as_slice()
        || word == b"output".as_slice()
        || word == b"wire".as_slice()
        || word == b"assign".as_slice()
}

/// Whether a word is a keyword.
pub fn is_keyword(word: &[u8]) -> bool
    ensures { result ≡ keyword_is word.now }
{
    if is_plain_keyword(word) {
        return true;
    }
    gate_of(word).is_some()
}

fn is_base(b: u8) -> bool
    ensures { result ≡ base_is b }
{
    b == b'b' || b == b'B' || b == b'h' || b == b'H' || b == b'd' || b == b'D'
}

fn bit_of(b: u8) -> Option<bool>
    ensures { result ≡ bit_that b }
{
    if b == b'0' {
        Some(false)
    } else if b == b'1' {
        Some(true)
    } else {
        None
    }
}

fn literal_of(text: &[u8]) -> Option<bool>
    ensures { result ≡ literal_that text.now }
{
    match text {
        [one, quote, base, digit] => {
            if *one == b'1' && *quote == b'\'' && is_base(*base) {
                bit_of(*digit)
            } else {
                None
            }
        }
        _ => None,
    }
}

fn are_digits(text: &[u8]) -> bool
    ensures { result ≡ list_all digit_is text.now }
{
    let mut rest = text;
    while let [b, after @ ..] = rest {
        if !is_digit(*b) {
            return false;
        }
        rest = after;
    }
    true
}

/// Whether there are decimal digits alone.
pub fn is_decimal(text: &[u8]) -> bool
    ensures { result ≡ decimal_is text.now }
{
    0 < text.len() && are_digits(text)
}

/// What a token does where an operand is wanted.
pub fn start_of(token: &Token<'_>) -> Start
    ensures { result ≡ start_that (value_of token.now) }
{
    match token.kind {
        Kind::Open => Start::Group,
        Kind::Tilde => Start::Not,
        Kind::Number => match literal_of(token.text) {
            Some(bit) => Start::Bit(bit),
            None => Start::Other,
        },
        Kind::Word => {
            if is_keyword(token.text) {
                Start::Other
            } else {
                Start::Target
            }
        }
        Kind::Escaped => Start::Target,
        _ => Start::Other,
    }
}

/// What a token does where an operand was read.
pub fn next_of(kind: Kind) -> Next
    ensures { result ≡ next_kind kind }
{
    match kind {
        Kind::And => Next::Operator(Operator::And),
        Kind::Xor => Next::Operator(Operator::Xor),
        Kind::Xnor => Next::Operator(Operator::Xnor),
        Kind::Or => Next::Operator(Operator::Or),
        Kind::Close => Next::Close,
        _ => Next::Other,
    }
}

/// The text of bytes that print.
pub fn text_of(bytes: &[u8]) -> &str
    requires { IsPrinting bytes.now }
    ensures { result.now ≡ bytes.now }
{
    let Some(text) = printing_text(bytes) else {
        unreachable!();
    };
    text
}

/// A text that is left out.
pub fn left_out(alloc: Global, line: u32, bytes: &[u8]) -> VerilogFault
    requires { IsPrinting bytes.now }
    ensures { (result ≡ VerilogFault.OutOfMemory) ⊎ (result ≡ VerilogFault.LeftOut line bytes.now) }
{
    match Name::new(alloc, text_of(bytes)) {
        Ok(word) => VerilogFault::LeftOut { line, word },
        Err(_) => VerilogFault::OutOfMemory,
    }
}

/// The fault of a token that may not stand where it does.
pub fn wrong(alloc: Global, token: &Token<'_>) -> VerilogFault
    requires { Prints (value_of token.now) }
    ensures { (result ≡ VerilogFault.OutOfMemory) ⊎ (result ≡ wrong_token (value_of token.now)) }
{
    match token.kind {
        Kind::LeftOut => left_out(alloc, token.line, token.text),
        Kind::Directive => match token.text {
            [_, word @ ..] => left_out(alloc, token.line, word),
            [] => left_out(alloc, token.line, token.text),
        },
        Kind::Number => match literal_of(token.text) {
            Some(_) => VerilogFault::Syntax { line: token.line },
            None => left_out(alloc, token.line, token.text),
        },
        Kind::Word => {
            if token.text == b"module".as_slice() {
                left_out(alloc, token.line, token.text)
            } else {
                VerilogFault::Syntax { line: token.line }
            }
        }
        _ => VerilogFault::Syntax { line: token.line },
    }
}

pub fn is_end(kind: Kind) -> bool
    ensures { result ≡ end_is kind }
{
    match kind {
        Kind::End => true,
        _ => false,
    }
}

pub fn is_open_index(kind: Kind) -> bool
    ensures { result ≡ open_index_is kind }
{
    match kind {
        Kind::OpenIndex => true,
        _ => false,
    }
}
