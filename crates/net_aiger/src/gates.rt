//! Tables of literals and of their conjunctions.
ghost use Rattle.std.specs.Prelude.{◌≡◌, ◌==◌, ◌%◌, ◌++◌, OnOk, if◌then◌else◌};
ghost use Rattle.net_aiger.specs.Nets.{and_table as table_of_and, inputs_of, is_plain as plain, table_of as table_of_literal};

use crate::reader::Reader;
use std::alloc::AllocError;

/// Whether a literal is its variable.
pub(crate) fn is_plain(literal: u32) -> bool
    ensures { result ≡ plain literal }
{
    2 <= literal && literal % 2 == 0
}

/// A constant, a buffer, or an inverter, as a table.
pub(crate) fn table_of(literal: u32) -> u64
    ensures { result ≡ table_of_literal literal }
{
    if literal < 2 {
        u64::from(literal)
    } else if literal % 2 == 0 {
        2
    } else {
        1
    }
}

// The conjunction of two literals of variables, as a table.
fn both_table(left: u32, right: u32) -> u64
    ensures { result ≡ (if right % 2 == 0 then (if left % 2 == 0 then 8 else 4) else (if left % 2 == 0 then 2 else 1)) }
{
    match (left % 2 == 0, right % 2 == 0) {
        (true, true) => 8,
        (false, true) => 4,
        (true, false) => 2,
        (false, false) => 1,
    }
}

/// The conjunction of two literals, as a table over their variables.
pub(crate) fn and_table(left: u32, right: u32) -> u64
    ensures { result ≡ table_of_and left right }
{
    if left < 2 {
        if left == 0 { 0 } else { table_of(right) }
    } else if right < 2 {
        if right == 0 { 0 } else { table_of(left) }
    } else {
        both_table(left, right)
    }
}

/// Appends the net of a literal's variable, if it is no constant.
pub(crate) fn put_input(
    reader: &Reader,
    inputs: &mut Vec<u32>,
    literal: u32,
) -> Result<(), AllocError>
    ensures { OnOk result (inputs.new.items ≡ inputs.old.items ++ inputs_of reader.now literal) }
{
    if literal >= 2 {
        inputs.push(reader.variable_net(literal))?;
    }
    Ok(())
}
