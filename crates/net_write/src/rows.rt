//! The rows of a gate's cover.
ghost use Rattle.std.specs.Prelude.{◌≡◌, ◌+◌, ◌<◌, ◌≤◌, ◌^◌, ◌++◌, ◌∷◌, [], true, OnOk};
ghost use Rattle.std.specs.Int.{bit_at};
ghost use Rattle.net_blif.specs.Statement.{row_tokens};
ghost use Rattle.net_write.specs.Written.{line_text, pattern, rows_of, text_with};
ghost use Rattle.net_write.specs.private.Fields.{rows_at};

use std::alloc::AllocError;

// A bit of an index as a character.
fn cell(index: u32, bit: u32) -> u8
    requires { bit < 32 }
    ensures { result ≡ 48 + bit_at index bit }
{
    b'0' + ((index >> bit) % 2) as u8
}

// Appends the lowest bits of an index as characters, the lowest first.
fn add_pattern(out: &mut Vec<u8>, inputs: u32, index: u32) -> Result<(), AllocError>
    requires { inputs ≤ 6 }
    ensures { OnOk result (out.new.items ≡ out.old.items ++ pattern inputs index) }
{
    for i in 0..inputs {
        out.push(cell(index, i))?;
    }
    Ok(())
}

// Appends the row that fits an index.
fn add_row(out: &mut Vec<u8>, inputs: u32, index: u32) -> Result<(), AllocError>
    requires { inputs ≤ 6 }
    ensures { OnOk result (out.new.items ≡ out.old.items ++ line_text (row_tokens (pattern inputs index) true)) }
{
    if inputs == 0 {
        out.extend_from_slice(b"1\n")?;
        return Ok(());
    }
    add_pattern(out, inputs, index)?;
    out.extend_from_slice(b" 1\n")?;
    Ok(())
}

// Appends the row of an index, if its bit of the table is 1.
fn add_row_of(out: &mut Vec<u8>, inputs: u32, table: u64, index: u32) -> Result<(), AllocError>
    requires few { inputs ≤ 6 }
    requires within { index < 64 }
    ensures { OnOk result (out.new.items ≡ out.old.items ++ text_with (rows_at inputs table (index ∷ []))) }
{
    if (table >> index) % 2 == 1 {
        add_row(out, inputs, index)?;
    }
    Ok(())
}

// How many choices of values there are for the inputs.
fn choices(inputs: u32) -> u32
    requires { inputs ≤ 6 }
    ensures count { result ≡ 2 ^ inputs }
    ensures few { result ≤ 64 }
{
    1 << inputs
}

// Appends a row for each index whose bit of the table is 1, by rising index.
pub(crate) fn add_rows(out: &mut Vec<u8>, inputs: u32, table: u64) -> Result<(), AllocError>
    requires { inputs ≤ 6 }
    ensures { OnOk result (out.new.items ≡ out.old.items ++ text_with (rows_of inputs table)) }
{
    for index in 0..choices(inputs) {
        add_row_of(out, inputs, table, index)?;
    }
    Ok(())
}
