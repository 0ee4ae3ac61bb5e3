//! Rows: where the bits of terms stand in one list.
ghost use Rattle.std.specs.Prelude.{◌≡◌, ◌≤◌, IsTrue};
ghost use Rattle.rato_reduce.specs.private.Rows.{bits_at};

/// Where the bits of a term begin and end in a list of ranks, a hash of them, and the coefficient. The hash decides how many
/// equal terms are found, and nothing else.
#[derive(Clone, Copy)]
pub struct Row {
    /// Where its bits begin.
    pub start: usize,
    /// The place behind the last of them.
    pub stop: usize,
    /// The exclusive or of the hashes of its bits.
    pub hash: u64,
    /// Its coefficient.
    pub coefficient: u64,
}

/// The bits of a row.
pub fn bits_of<'a>(ranks: &'a [u32], row: &Row) -> &'a [u32]
    ensures { result.now ≡ bits_at ranks.now row.now }
{
    let stop = clipped(row.stop, ranks.len());
    let start = clipped(row.start, stop);
    &ranks[start..stop]
}

// A place, and in place of one behind the end the end.
fn clipped(place: usize, end: usize) -> usize
    ensures within { result ≤ end }
    ensures early { place ≤ end → result ≡ place }
    ensures late { end ≤ place → result ≡ end }
{
    if place < end { place } else { end }
}

/// Whether two rows are seen to be of the same bits.
pub fn has_same_bits(ranks: &[u32], one: &Row, other: &Row) -> bool
    ensures { IsTrue result → bits_at ranks.now one.now ≡ bits_at ranks.now other.now }
{
    one.hash == other.hash && bits_of(ranks, one) == bits_of(ranks, other)
}

/// The hash of a rank.
pub fn hash_of(rank: u32) -> u64 {
    let mixed = (u64::from(rank) ^ 0x9e3779b97f4a7c15).wrapping_mul(0xbf58476d1ce4e5b9);
    (mixed ^ (mixed >> 29)).wrapping_mul(0x94d049bb133111eb)
}
