//! Rows of covers, read where they stand.
ghost use Rattle.std.specs.Prelude.{◌≡◌, ◌∷◌, ◌+◌, ◌≤◌, [], length, slice_index, IsTrue, IfSome};
ghost use Rattle.net_blif.specs.Statement.{bit_token};
ghost use Rattle.net_blif.specs.private.FirstLine.{RowStandsAlone};

use crate::statement::is_pattern;

/// A row of a cover, and the text behind its line.
#[derive(Drop)]
pub struct PlacedRow<'a> {
    pub pattern: &'a [u8],
    pub output: bool,
    pub after: &'a [u8],
}

// Whether a text has a space at a place, and LF two bytes behind it.
fn ends_row(text: &[u8], place: usize) -> bool
    requires { place + 3 ≤ length text.now }
    ensures space { IsTrue result → slice_index text.now place ≡ 32 }
    ensures feed { IsTrue result → slice_index text.now (place + 2) ≡ 10 }
{
    text[place] == b' ' && text[place + 2] == b'\n'
}

// The output that a byte says.
fn output_of(byte: u8) -> Option<bool>
    ensures { IfSome result (λ output. bit_token output ≡ byte ∷ []) }
{
    match byte {
        b'0' => Some(false),
        b'1' => Some(true),
        _ => None,
    }
}

/// The row for so many inputs with which a text begins, where its line stands alone: cells, a space, an output and LF.
/// None says nothing.
pub fn row_in_place(text: &[u8], inputs: usize) -> Option<PlacedRow<'_>>
    requires { inputs ≤ 6 }
    ensures { IfSome result (λ r. RowStandsAlone text.now r.pattern.now r.output r.after.now) }
{
    if text.len() < inputs + 3 {
        return None;
    }
    if !ends_row(text, inputs) {
        return None;
    }
    let pattern = &text[..inputs];
    if !is_pattern(pattern) {
        return None;
    }
    let output = output_of(text[inputs + 1])?;
    Some(PlacedRow {
        pattern,
        output,
        after: &text[inputs + 3..],
    })
}
