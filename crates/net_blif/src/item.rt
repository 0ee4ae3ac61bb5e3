//! What the lines of a model place.
use crate::token::Token;
use crate::token_list::TokenSlice;
use net_core::Start;

/// What a line of a model places: primary inputs, outputs, a gate with its table, a latch,
/// or an instance with its connections, each `formal=actual`.
#[derive(Drop)]
pub enum Item<'a> {
    Inputs(TokenSlice<'a>),
    Outputs(TokenSlice<'a>),
    Gate {
        line: u32,
        inputs: TokenSlice<'a>,
        out: Token<'a>,
        table: u64,
    },
    Latch {
        line: u32,
        next: Token<'a>,
        out: Token<'a>,
        start: Start,
    },
    Instance {
        line: u32,
        model: Token<'a>,
        connections: TokenSlice<'a>,
    },
}
