//! Parities of the bits that numbers share with a mask.

ghost use Rattle.std.specs.Prelude.{◌≡◌, ◌<◌, ◌≤◌, length};
ghost use Rattle.gf_basis.specs.private.TraceWord.{parity as parity_of, parity_word};

/// Whether the number of bits that are set in both is odd, as 0 or 1.
pub fn parity(mask: u64, x: u64) -> u64
    ensures value { result ≡ parity_of mask x }
    ensures bit { result ≤ 1 }
{
    u64::from((mask & x).count_ones() % 2)
}

/// The word whose bit i is the parity of row i with the mask.
pub fn parities(rows: &[u64], mask: u64) -> u64
    requires few { length rows.now ≤ 64 }
    ensures word { result ≡ parity_word rows.now mask }
{
    let mut word = 0;
    for i in (0..rows.len()).rev() {
        word = (word << 1) | parity(mask, rows[i]);
    }
    word
}
