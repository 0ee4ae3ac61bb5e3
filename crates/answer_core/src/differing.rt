//! The lines of the input at which two functions are told apart.
ghost use Rattle.std.specs.Prelude.{◌≡◌, ◌++◌, length, take, OnOk};
ghost use Rattle.answer_core.specs.DifferingLines.{word_line, word_lines, value_line, differing_lines, difference_at};

use poly_mixed::Labels;
use std::alloc::{AllocError, Global};

/// Appends the lines of an input at which two functions are told apart: a line for each word of the labels with its element,
/// and one for each of the two values there, by its name.
pub fn add_difference(
    alloc: Global,
    text: &mut Vec<u8>,
    labels: &Labels,
    input: &[u64; 8],
    first: &str,
    left: u64,
    second: &str,
    right: u64,
) -> Result<(), AllocError>
    ensures { OnOk result (text.new.items ≡ text.old.items ++ differing_lines labels.now first.now second.now (difference_at labels.now input.now left right)) }
{
    add_words(alloc, text, labels, input)?;
    add_value(alloc, text, first, left)?;
    add_value(alloc, text, second, right)
}

// Appends a line for each word with its element.
fn add_words(
    alloc: Global,
    text: &mut Vec<u8>,
    labels: &Labels,
    input: &[u64; 8],
) -> Result<(), AllocError>
    ensures { OnOk result (text.new.items ≡ text.old.items ++ word_lines labels.now.words (take (length labels.now.words) input.now)) }
{
    for word in 0..labels.words() {
        add_word(alloc, text, labels.name(word), input[word as usize])?;
    }
    Ok(())
}

/// Appends the line of a word with its element.
pub fn add_word(
    alloc: Global,
    lines: &mut Vec<u8>,
    name: &str,
    element: u64,
) -> Result<(), AllocError>
    ensures { OnOk result (lines.new.items ≡ lines.old.items ++ word_line name.now element) }
{
    let line = format!(in alloc; "{name} = 0x{element:x}\n")?;
    lines.extend_from_slice(line.as_bytes())
}

// Appends the line of a value.
fn add_value(alloc: Global, text: &mut Vec<u8>, name: &str, value: u64) -> Result<(), AllocError>
    ensures { OnOk result (text.new.items ≡ text.old.items ++ value_line name.now value) }
{
    let line = format!(in alloc; "{name} 0x{value:x}\n")?;
    text.extend_from_slice(line.as_bytes())
}
