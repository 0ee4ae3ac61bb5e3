//! The words of a line, and the statement that they spell.
ghost use Rattle.std.specs.Prelude.{◌≡◌, ◌↔◌, ◌∷◌, [], None, Some, All, IsTrue, IfOk, IfSome, IfNone, if◌then◌else◌};
ghost use Rattle.text_core.specs.Lines.{tokens_of};
ghost use Rattle.net_blif.specs.Statement.{IsToken, is_dotted as dotted};
ghost use Rattle.net_blif.specs.Spelling.{bit_of as bit_that, cover_of, dotted_of, end_of, instance_of, latch_of, model_of, row_of, statement_of};

use crate::statement::{Statement, are_connections, is_dotted, is_latch_end, is_pattern, is_word};
use crate::token::{Token, Tokens};
use std::alloc::{AllocError, Global};
use text_core::is_printing;

// Whether a token has 1 to 255 bytes that print.
fn is_token(word: &Token<'_>) -> bool
    ensures { IsTrue result ↔ IsToken word.now }
{
    let token = word.bytes();
    !token.is_empty() && token.len() <= 255 && is_printing(token)
}

/// What stands between the spaces and tabs of a line.
pub fn all_words<'a>(alloc: Global, line: &'a [u8]) -> Result<Vec<Token<'a>>, AllocError>
    ensures { IfOk result (λ words. words.items ≡ tokens_of line.now) }
{
    line.split(|&b| b == b' ' || b == b'\t')
        .filter(|token| !token.is_empty())
        .map(|token| Token::new(token))
        .collect(alloc)
}

/// Whether each has 1 to 255 bytes that print.
pub fn are_tokens(words: &[Token<'_>]) -> bool
    ensures { IsTrue result ↔ All IsToken words.now }
{
    words.iter().all(is_token)
}

// The bit that a token says.
fn bit_of(token: &[u8]) -> Option<bool>
    ensures { result ≡ bit_that token.now }
{
    if is_word(token, b"1") {
        Some(true)
    } else if is_word(token, b"0") {
        Some(false)
    } else {
        None
    }
}

// What the words after `.model` say.
fn model<'w, 'a>(rest: &'w [Token<'a>]) -> Option<Statement<'w, 'a>>
    ensures { result ≡ model_of rest.now }
{
    match rest {
        [] => Some(Statement::Model(Token::new(&[]))),
        [name] => Some(Statement::Model(Token::new(name.bytes()))),
        _ => None,
    }
}

/// The nets of a cover: its inputs, and its output.
#[derive(Drop)]
pub struct Nets<'w, 'a> {
    pub inputs: &'w [Token<'a>],
    pub out: &'a [u8],
}

/// The nets that the words after `.names` say, if they say some.
pub fn nets_of<'w, 'a>(rest: &'w [Token<'a>]) -> Option<Nets<'w, 'a>>
    ensures some { IfSome result (λ nets. cover_of rest.now ≡ Some (Statement.Cover nets.inputs.now nets.out.now)) }
    ensures none { IfNone result (cover_of rest.now ≡ None) }
{
    match rest {
        [inputs @ .., out] => Some(Nets {
            inputs,
            out: out.bytes(),
        }),
        [] => None,
    }
}

// What the words after `.names` say.
fn cover<'w, 'a>(rest: &'w [Token<'a>]) -> Option<Statement<'w, 'a>>
    ensures { result ≡ cover_of rest.now }
{
    match nets_of(rest) {
        Some(nets) => Some(Statement::Cover {
            inputs: Tokens::new(nets.inputs),
            out: Token::new(nets.out),
        }),
        None => None,
    }
}

// What the words after `.latch` say.
fn latch<'w, 'a>(rest: &'w [Token<'a>]) -> Option<Statement<'w, 'a>>
    ensures { result ≡ latch_of rest.now }
{
    match rest {
        [next, out, more @ ..] => latch_on(next.bytes(), out.bytes(), more),
        _ => None,
    }
}

// What the nets of a latch and the words behind them say.
fn latch_on<'w, 'a>(
    next: &'a [u8],
    out: &'a [u8],
    rest: &'w [Token<'a>],
) -> Option<Statement<'w, 'a>>
    ensures { result ≡ latch_of (next.now ∷ out.now ∷ rest.now) }
{
    if !is_latch_end(rest) {
        return None;
    }
    Some(Statement::Latch {
        next: Token::new(next),
        out: Token::new(out),
        rest: Tokens::new(rest),
    })
}

// What the words after `.subckt` say.
fn instance<'w, 'a>(rest: &'w [Token<'a>]) -> Option<Statement<'w, 'a>>
    ensures { result ≡ instance_of rest.now }
{
    match rest {
        [model, connections @ ..] => instance_on(model.bytes(), connections),
        [] => None,
    }
}

// What the model of an instance and its connections say.
fn instance_on<'w, 'a>(model: &'a [u8], connections: &'w [Token<'a>]) -> Option<Statement<'w, 'a>>
    ensures { result ≡ instance_of (model.now ∷ connections.now) }
{
    if !are_connections(connections) {
        return None;
    }
    Some(Statement::Instance {
        model: Token::new(model),
        connections: Tokens::new(connections),
    })
}

// What the words after `.end` say.
fn end<'w, 'a>(rest: &'w [Token<'a>]) -> Option<Statement<'w, 'a>>
    ensures { result ≡ end_of rest.now }
{
    match rest {
        [] => Some(Statement::End),
        _ => None,
    }
}

// What a line of this first word and these others says. Most lines with such a word are those of gates.
fn dotted_statement<'w, 'a>(word: &'a [u8], rest: &'w [Token<'a>]) -> Option<Statement<'w, 'a>>
    ensures { result ≡ dotted_of word.now rest.now }
{
    if is_word(word, b".names") {
        return cover(rest);
    }
    if is_word(word, b".model") {
        return model(rest);
    }
    if is_word(word, b".inputs") {
        return Some(Statement::Inputs(Tokens::new(rest)));
    }
    if is_word(word, b".outputs") {
        return Some(Statement::Outputs(Tokens::new(rest)));
    }
    if is_word(word, b".clock") {
        return Some(Statement::Clock(Tokens::new(rest)));
    }
    if is_word(word, b".latch") {
        return latch(rest);
    }
    if is_word(word, b".subckt") {
        return instance(rest);
    }
    if is_word(word, b".end") {
        return end(rest);
    }
    Some(Statement::Other {
        word: Token::new(word),
        rest: Tokens::new(rest),
    })
}

// What a row's pattern and output say.
fn row_statement<'w, 'a>(pattern: &'a [u8], output: &[u8]) -> Option<Statement<'w, 'a>>
    ensures { result ≡ row_of (pattern.now ∷ output.now ∷ []) }
{
    if !is_pattern(pattern) {
        return None;
    }
    match bit_of(output) {
        Some(output) => Some(Statement::Row {
            pattern: Token::new(pattern),
            output,
        }),
        None => None,
    }
}

// What an output alone says.
fn lone_row<'w, 'a>(output: &'a [u8]) -> Option<Statement<'w, 'a>>
    ensures { result ≡ row_of (output.now ∷ []) }
{
    match bit_of(output) {
        Some(output) => Some(Statement::Row {
            pattern: Token::new(&[]),
            output,
        }),
        None => None,
    }
}

// What a line that does not begin with `.` says.
fn row<'w, 'a>(words: &'w [Token<'a>]) -> Option<Statement<'w, 'a>>
    ensures { result ≡ row_of words.now }
{
    match words {
        [output] => lone_row(output.bytes()),
        [pattern, output] => row_statement(pattern.bytes(), output.bytes()),
        _ => None,
    }
}

/// The statement that the words of a line spell, if there is one.
pub fn read_statement<'w, 'a>(words: &'w [Token<'a>]) -> Option<Statement<'w, 'a>>
    ensures { result ≡ statement_of words.now }
{
    match words {
        [] => None,
        [word, rest @ ..] => first_statement(words, word.bytes(), rest),
    }
}

// What the words say, of which this is the first and these are the others.
fn first_statement<'w, 'a>(
    words: &'w [Token<'a>],
    word: &'a [u8],
    rest: &'w [Token<'a>],
) -> Option<Statement<'w, 'a>>
    ensures { result ≡ (if dotted word.now then dotted_of word.now rest.now else row_of words.now) }
{
    if is_dotted(word) {
        dotted_statement(word, rest)
    } else {
        row(words)
    }
}
