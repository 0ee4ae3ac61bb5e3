//! Tables of functions of functions.
ghost use Rattle.std.specs.Prelude.{◌≡◌, ◌<◌, ◌≤◌, ◌+◌, ◌^◌, ℕ, Bool, List, length, ◌==◌};
ghost use Rattle.std.specs.Int.{bit_at};
ghost use Rattle.lists.specs.Lists.{Has};
ghost use Rattle.net_core.specs.Value.{index_of};
ghost use Rattle.net_simplify.specs.private.Lists.{bit_number, value_number};

// How many bits a table of so many places has.
pub fn rows(places: u32) -> u32
    requires { places ≤ 6 }
    ensures rows { result ≡ 2 ^ places }
    ensures few { result ≤ 64 }
    ensures fewer { places ≤ 5 → result ≤ 32 }
{
    match places {
        0 => 1,
        1 => 2,
        2 => 4,
        3 => 8,
        4 => 16,
        5 => 32,
        _ => 64,
    }
}

// The bit of this index in a table.
pub fn table_bit(table: u64, index: u32) -> u32
    requires { index < 64 }
    ensures bit { result ≡ bit_at table index }
    ensures small { result < 2 }
{
    ((table >> index) & 1) as u32
}
