//! The bits of the indices that a row fits, a cell at a time.
ghost use Rattle.std.specs.Prelude.{◌≡◌, ◌==◌, ◌<◌, ◌≤◌, ◌+◌, ◌*◌, ◌^◌, length};
ghost use Rattle.net_blif.specs.Cover.{fits as row_fits, number_of_bits};
ghost use Rattle.net_blif.specs.private.Rows.{unless};

// The bits of twice as many indices, of which the upper half has a 1 where the next cell is asked.
fn doubled(bits: u64, width: u32, cell: u8) -> u64
    requires width { width ≤ 32 }
    requires bits { bits < 2 ^ width }
    ensures { result ≡ unless (cell == 48) bits * 2 ^ width + unless (cell == 49) bits }
{
    if cell == b'0' {
        bits
    } else if cell == b'1' {
        bits << width
    } else {
        (bits << width) + bits
    }
}

// The bits of the indices that a row fits, with a cell for each input.
fn cell_by_cell(pattern: &[u8]) -> u64
    requires { length pattern.now ≤ 6 }
    ensures { result ≡ number_of_bits (row_fits pattern.now) (2 ^ length pattern.now) }
{
    let mut bits = 1;
    let mut width = 1;
    for cell in pattern {
        bits = doubled(bits, width, *cell);
        width *= 2;
    }
    bits
}

// The bits of the indices that a row of one cell fits.
fn bits_of_one(pattern: &[u8]) -> u64
    requires { length pattern.now ≡ 1 }
    ensures { result ≡ number_of_bits (row_fits pattern.now) (2 ^ length pattern.now) }
{
    doubled(1, 1, pattern[0])
}

// The bits of the indices that a row of two cells fits.
fn bits_of_two(pattern: &[u8]) -> u64
    requires { length pattern.now ≡ 2 }
    ensures { result ≡ number_of_bits (row_fits pattern.now) (2 ^ length pattern.now) }
{
    let half = doubled(1, 1, pattern[0]);
    doubled(half, 2, pattern[1])
}

/// The bits of the indices that a row fits, with a cell for each input. Most rows have one or two, which need no loop. Always
/// inlined, since a call costs as much as such a row.
#[inline(always)]
pub fn cells_bits(pattern: &[u8]) -> u64
    requires { length pattern.now ≤ 6 }
    ensures { result ≡ number_of_bits (row_fits pattern.now) (2 ^ length pattern.now) }
{
    match pattern.len() {
        1 => bits_of_one(pattern),
        2 => bits_of_two(pattern),
        _ => cell_by_cell(pattern),
    }
}
