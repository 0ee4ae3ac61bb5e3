//! Statements, and what may stand in them.
ghost use Rattle.std.specs.Prelude.{◌≡◌};
ghost use Rattle.net_blif.specs.Statement.{is_cell as cell_is, is_dotted as dotted, is_kind as kind_is, is_latch_end as latch_end_is, is_start as start_is};
ghost use Rattle.net_blif.specs.Latch.{start_of as start_that, start_said};
ghost use Rattle.std.specs.List.{list_all};
ghost use Rattle.std.specs.Str.{bytes_eq};
ghost use Rattle.net_blif.specs.Connection.{is_connection as connection_is};

use crate::connection::is_connection;
use crate::token::{Token, Tokens};
use net_core::Start;

/// A statement. `Cover` is `.names`, `Row` a row of its cover, and `Other` begins with a word that is not read.
/// The `rest` of a latch is its kind, control and start, as far as they are there; each connection of an instance
/// is `formal=actual`.
#[derive(Drop)]
pub enum Statement<'w, 'a> {
    Model(Token<'a>),
    Inputs(Tokens<'w, 'a>),
    Outputs(Tokens<'w, 'a>),
    Clock(Tokens<'w, 'a>),
    Cover {
        inputs: Tokens<'w, 'a>,
        out: Token<'a>,
    },
    Latch {
        next: Token<'a>,
        out: Token<'a>,
        rest: Tokens<'w, 'a>,
    },
    Instance {
        model: Token<'a>,
        connections: Tokens<'w, 'a>,
    },
    Row {
        pattern: Token<'a>,
        output: bool,
    },
    End,
    Other {
        word: Token<'a>,
        rest: Tokens<'w, 'a>,
    },
}

/// Whether a token is this word. Always inlined, so that the length of a word that stands in the code is known.
#[inline(always)]
pub fn is_word(token: &[u8], word: &[u8]) -> bool
    ensures { result ≡ bytes_eq token.now word.now }
{
    token == word
}

/// Whether a word begins with `.`.
pub fn is_dotted(word: &[u8]) -> bool
    ensures { result ≡ dotted word.now }
{
    match word {
        [first, ..] => *first == b'.',
        [] => false,
    }
}

// Whether a byte is a cell of a row.
fn is_cell(byte: &u8) -> bool
    ensures { result ≡ cell_is byte.now }
{
    *byte == b'0' || *byte == b'1' || *byte == b'-'
}

/// Whether each byte of a word is a cell of a row. Most rows have one or two, which need no loop. Always inlined, since a call
/// costs as much as such a row.
#[inline(always)]
pub fn is_pattern(word: &[u8]) -> bool
    ensures { result ≡ list_all cell_is word.now }
{
    match word {
        [cell] => is_cell(cell),
        [first, second] => is_cell(first) && is_cell(second),
        _ => word.iter().all(is_cell),
    }
}

// Whether a token is the kind of a latch's clock.
fn is_kind(token: &[u8]) -> bool
    ensures { result ≡ kind_is token.now }
{
    is_word(token, b"fe")
        || is_word(token, b"re")
        || is_word(token, b"ah")
        || is_word(token, b"al")
        || is_word(token, b"as")
}

// Whether a token is the start of a latch.
fn is_start(token: &[u8]) -> bool
    ensures { result ≡ start_is token.now }
{
    is_word(token, b"0") || is_word(token, b"1") || is_word(token, b"2") || is_word(token, b"3")
}

/// Whether these words may stand behind the nets of a latch.
pub fn is_latch_end(rest: &[Token<'_>]) -> bool
    ensures { result ≡ latch_end_is rest.now }
{
    match rest {
        [] => true,
        [start] => is_start(start.bytes()),
        [kind, _] => is_kind(kind.bytes()),
        [kind, _, start] => is_kind(kind.bytes()) && is_start(start.bytes()),
        _ => false,
    }
}

// The start that a token says.
fn said_start(token: &[u8]) -> Start
    ensures { result ≡ start_said token.now }
{
    if is_word(token, b"0") {
        Start::Zero
    } else if is_word(token, b"1") {
        Start::One
    } else {
        Start::Unknown
    }
}

/// What a latch holds in the first cycle, by the words behind its nets.
pub fn start_of(rest: &[Token<'_>]) -> Start
    ensures { result ≡ start_that rest.now }
{
    match rest {
        [start] => said_start(start.bytes()),
        [_, _, start, ..] => said_start(start.bytes()),
        _ => Start::Unknown,
    }
}

/// Whether each token is a connection.
pub fn are_connections(tokens: &[Token<'_>]) -> bool
    ensures { result ≡ list_all connection_is tokens.now }
{
    tokens.iter().all(is_connection)
}
