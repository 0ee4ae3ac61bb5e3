//! The bytes of a word, sixteen at a time.
ghost use Rattle.std.specs.Prelude.{◌≡◌, ◌<◌, ◌≤◌, ◌==◌, ℕ, IsTrue, length, slice_index, if◌then◌else◌};
ghost use Rattle.std.specs.Int.{w64, trailing_zeros};
ghost use Rattle.net_blif.specs.private.FirstLine.{IsWordByte};

use std::simd::prelude::*;

const LANES: usize = 16;

// The place of the lowest bit that is set, or 16.
fn lowest(mask: u64) -> usize
    ensures { result ≡ (if mask == 0 then 16 else trailing_zeros w64 mask) }
{
    if mask == 0 {
        LANES
    } else {
        mask.trailing_zeros() as usize
    }
}

// How many of the first 16 bytes of a text, from the first, are from `$` to `~`.
fn run_of(text: &[u8]) -> usize
    requires { 16 ≤ length text.now }
    ensures short { result ≤ 16 }
    ensures word { (k : ℕ) → k < result → IsWordByte (slice_index text.now k) }
{
    let from_dollar = u8x16::from_slice(text) - u8x16::splat(b'$');
    let others = from_dollar.simd_ge(u8x16::splat(b'~' - b'$' + 1));
    lowest(others.to_bitmask())
}

/// With how many bytes from `$` to `~` a text begins, and whether these are all: there may be more where sixteen bytes at once
/// do not tell. Always inlined, since a call costs as much as a short word.
#[inline(always)]
pub fn word_run(text: &[u8]) -> (usize, bool)
    ensures within { result.0 ≤ length text.now }
    ensures word { (k : ℕ) → k < result.0 → IsWordByte (slice_index text.now k) }
    ensures inside { IsTrue result.1 → result.0 < length text.now }
{
    if text.len() < LANES {
        return (0, false);
    }
    let run = run_of(text);
    (run, run < LANES)
}
