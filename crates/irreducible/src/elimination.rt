//! Elimination of rows of bits.

ghost use Rattle.std.specs.Prelude.{◌≡◌, ◌<◌, ◌≤◌, ◌^◌, length};
ghost use Rattle.irreducible.specs.Span.{combination, IsRank};
ghost use Rattle.irreducible.specs.private.Pivots.{ByTop, IsCleared, IsRankSoFar, IsKernelSoFar, AreChoices};

/// What is left of a row, and which pivots were taken away, bit t for the pivot at place t.
#[derive(Drop)]
pub struct Reduction {
    pub left: u64,
    pub used: u64,
}

/// At each place a sum of rows whose highest bit stands there, or 0; which rows it is the sum of; at each place a choice
/// of rows with the sum 0 whose highest bit stands there, or 0; and the rank.
#[derive(Drop)]
pub struct Pivots {
    pub sums: [u64; 64],
    pub choices: [u64; 64],
    pub vectors: [u64; 64],
    pub rank: u32,
}

/// The exclusive or of the rows i with bit i of `choice` set, of at most 64 rows.
pub fn combined(rows: &[u64], choice: u64) -> u64
    requires { length rows.now ≤ 64 }
    ensures { result ≡ combination rows.now choice }
{
    let mut sum = 0;
    for (i, row) in rows.iter().enumerate() {
        if (choice >> i) & 1 == 1 {
            sum ^= *row;
        }
    }
    sum
}

/// What is left of a row when the pivots are taken away.
pub fn reduced(sums: &[u64; 64], row: u64) -> Reduction
    requires { ByTop sums.now }
    ensures { IsCleared sums.now row result.left result.used 0 }
{
    let mut left = row;
    let mut used = 0;
    for place in (0..64).rev() {
        if (left >> place) & 1 == 1 {
            left ^= sums[place];
            used ^= 1 << place;
        }
    }
    Reduction { left, used }
}

/// The pivots of the rows.
pub fn eliminated(rows: &[u64]) -> Pivots
    requires { length rows.now ≤ 64 }
    ensures rank { IsRankSoFar rows.now result.sums (length rows.now) result.rank }
    ensures choices { AreChoices rows.now result.sums result.choices }
    ensures kernel { IsKernelSoFar rows.now result.vectors (length rows.now) }
{
    let mut sums = [0; 64];
    let mut choices = [0; 64];
    let mut vectors = [0; 64];
    let mut rank = 0;
    for (i, row) in rows.iter().enumerate() {
        let step = reduced(&sums, *row);
        if step.left != 0 {
            let place = step.left.ilog2() as usize;
            choices[place] = (1 << i) ^ combined(&choices, step.used);
            sums[place] = step.left;
            rank += 1;
        } else {
            vectors[i] = (1 << i) ^ combined(&choices, step.used);
        }
    }
    Pivots {
        sums,
        choices,
        vectors,
        rank,
    }
}

/// The dimension of the span of the rows.
pub fn rank_of(rows: &[u64]) -> u32
    requires { length rows.now ≤ 64 }
    ensures { IsRank rows.now result }
{
    eliminated(rows).rank
}
