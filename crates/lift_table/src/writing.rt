//! How a table is written.
ghost use Rattle.std.specs.Prelude.{◌≡◌, ◌++◌, ◌∷◌, [], IfOk, OnOk};
ghost use Rattle.text_core.specs.Numbers.{hex_text};
ghost use Rattle.lift_table.specs.TableText.{table_text};

use std::alloc::{AllocError, Global};
use text_core::push_hex;

/// The text of a table: the head, and then each value by row on a line of its own.
pub fn write_table(alloc: Global, table: &[u64]) -> Result<Vec<u8>, AllocError>
    ensures { IfOk result (λ text. text.items ≡ table_text table.now) }
{
    let mut text = Vec::from_slice(alloc, b"gftable 1\n")?;
    for value in table {
        add_value(&mut text, *value)?;
    }
    Ok(text)
}

// Appends the line of a value.
fn add_value(text: &mut Vec<u8>, value: u64) -> Result<(), AllocError>
    ensures { OnOk result (text.new.items ≡ text.old.items ++ (hex_text value ++ (10 ∷ []))) }
{
    push_hex(text, u128::from(value))?;
    text.push(b'\n')?;
    Ok(())
}
