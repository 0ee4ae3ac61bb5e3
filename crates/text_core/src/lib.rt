//! What the readers of texts share: lines, tokens, runs of bytes, numbers by value and as they are written, and names.
//! Its definitions give the grammar of joined terms, and the order in which a reader's refusals stand (`Outcome`).
#![tactic(auto)]

mod digits;
mod laws;
mod lines;
mod name;
mod number;
mod scan;
mod written;

pub use digits::value_in_base;
pub use laws::{decimal_is_read_back, hex_is_read_back};
pub use lines::{
    ascii_text, before_comment, is_printing, next_line, plain_text, printing_text, tokens,
};
pub use name::is_name;
pub use number::{read_decimal, read_hex};
pub use scan::{Class, after, begins_hex, front, front_index, front_name, skip_blanks};
pub use written::push_hex;
