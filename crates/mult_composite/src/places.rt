//! Places that are counted coefficient by coefficient, and their bits.
ghost use Rattle.std.specs.Prelude.{◌≡◌, ◌+◌, ◌*◌, ◌-◌, ◌/◌, ◌%◌, ◌<◌, ◌≤◌, ◌^◌, IsTrue};
ghost use Rattle.gf_field.specs.Polynomial.{coefficient};
ghost use Rattle.make_laws.specs.TowerProduct.{adds_to as adds_to_of};

// How many pairs of n there are.
pub(crate) fn square(n: usize) -> usize
    requires { n ≤ 64 }
    ensures is { result ≡ n * n }
    ensures most { result ≤ 4096 }
{
    n * n
}

// How many bits m - 1 coefficients have, of m that fit a word.
pub(crate) fn high_count(n: usize, m: usize) -> usize
    requires some { 1 ≤ m }
    requires small { n * m ≤ 64 }
    ensures is { result ≡ (m - 1) * n }
    ensures few { result ≤ 64 }
{
    let less = m - 1;
    less * n
}

// How many bits 2 * m - 1 coefficients have.
pub(crate) fn sum_count(n: usize, m: usize) -> usize
    requires some { 1 ≤ m }
    requires small { n ≤ 32 }
    requires few { m ≤ 64 }
    ensures is { result ≡ (2 * m - 1) * n }
    ensures most { result ≤ 4064 }
{
    let count = 2 * m - 1;
    count * n
}

// The coefficient that a place of c coefficients of n bits is in.
pub(crate) fn group_of(n: usize, c: usize, p: usize) -> usize
    requires some { 1 ≤ n }
    requires place { p < c * n }
    ensures is { result ≡ p / n }
    ensures below { result < c }
{
    p / n
}

// The bit of its coefficient that a place is.
pub(crate) fn bit_of(n: usize, p: usize) -> usize
    requires { 1 ≤ n }
    ensures is { result ≡ p % n }
    ensures below { result < n }
{
    p % n
}

// The place of bit l of coefficient i, of m that a word has.
pub(crate) fn word_place(n: usize, m: usize, i: usize, l: usize) -> usize
    requires coefficient { i < m }
    requires bit { l < n }
    requires small { n * m ≤ 64 }
    ensures is { result ≡ n * i + l }
    ensures below { result < n * m }
{
    let start = n * i;
    start + l
}

// The place of bit l of coefficient d, of c that there are.
pub(crate) fn sum_place(n: usize, c: usize, d: usize, l: usize) -> usize
    requires coefficient { d < c }
    requires bit { l < n }
    requires small { n ≤ 32 }
    requires few { c ≤ 128 }
    ensures is { result ≡ d * n + l }
    ensures below { result < c * n }
{
    let start = d * n;
    start + l
}

// The place of bit q, counted from coefficient m, of 2 * m - 1 that there are.
pub(crate) fn high_place(n: usize, m: usize, q: usize) -> usize
    requires two { 2 ≤ m }
    requires bit { q < (m - 1) * n }
    requires small { n * m ≤ 64 }
    ensures is { result ≡ m * n + q }
    ensures below { result < (2 * m - 1) * n }
{
    let start = m * n;
    start + q
}

// The place of bit l of the product of coefficients i and j, of m each.
pub(crate) fn pair_place(n: usize, m: usize, i: usize, j: usize, l: usize) -> usize
    requires first { i < m }
    requires second { j < m }
    requires bit { l < n }
    requires small { n ≤ 32 }
    requires few { m ≤ 64 }
    ensures is { result ≡ (i * m + j) * n + l }
    ensures below { result < m * m * n }
{
    let row = i * m;
    let pair = row + j;
    let start = pair * n;
    start + l
}

// Coefficient e of an element of a tower.
pub(crate) fn coefficient_of(n: usize, m: usize, element: u64, e: usize) -> u64
    requires some { 1 ≤ n }
    requires place { e < m }
    requires small { n * m ≤ 64 }
    ensures is { result ≡ coefficient n element e }
    ensures element { result < 2 ^ n }
{
    let start = word_place(n, m, e, 0);
    (element >> start) & (u64::MAX >> (64 - n))
}

// Whether place i of m and a place of m add up to d.
pub(crate) fn adds_to(m: usize, d: usize, i: usize) -> bool
    requires small { m ≤ 64 }
    requires place { i < m }
    requires sum { d < 128 }
    ensures is { result ≡ adds_to_of m d i }
    ensures first { IsTrue result → i ≤ d }
    ensures second { IsTrue result → d < i + m }
{
    i < d + 1 && d < i + m
}
