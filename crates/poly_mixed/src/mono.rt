//! Monomials, in the order of terms in a text.
ghost use Rattle.std.specs.Prelude.{◌≡◌, ◌+◌, ◌<◌, ◌≤◌, ℕ, length, IfOk, refl};
ghost use Rattle.std.specs.Prelude.{◌^◌, ◌++◌, take, drop, slice_index, slice_set, OnOk, OnErr};
ghost use Rattle.std.specs.List.{AllByRecursion};
ghost use Rattle.poly_mixed.specs.Cofactor.{without_bit};
ghost use Rattle.poly_mixed.specs.Product.{add_exponent, add_exponents, with_rank, times};
ghost use Rattle.std.specs.List.Sorted.{IsStrictlySortedBy};
ghost use Rattle.std.specs.Ordering.{nat_cmp, eq_by_cmp, as_partial_cmp};
ghost use Rattle.std.specs.Cmp.{partial_order_from_total, partial_equiv_from_equiv, eq_by_cmp_equiv};
ghost use Rattle.poly_mixed.specs.Monomial.{Monomial, exponents_cmp, has_bit, ranks_cmp, text_cmp, text_cmp_total};

use smallvec::SmallVec;
use std::alloc::{AllocError, Global};
use std::cmp::Ordering;
use std::marker::Model;

/// A product of powers of the words and of different bits.
pub struct Mono {
    exponents: [u64; 8],
    // false only where each exponent is 0: most monomials are of bits alone, and their exponents are not read
    has_words: bool,
    bits: SmallVec<u32, 6>,
}

impl Model for Mono {
    ghost use Rattle.std.specs.Prelude.{◌≡◌, length, IsFalse, replicate};
    ghost use Rattle.std.specs.List.Sorted.{IsStrictlySortedBy};
    ghost use Rattle.std.specs.Ordering.{nat_cmp};
    ghost use Rattle.poly_mixed.specs.Monomial.{Monomial};

    ghost Value = { Monomial };

    ghost view = { λ m. record { exponents = m.exponents; bits = m.bits.items } };

    ghost invariant = { λ m. IsStrictlySortedBy nat_cmp m.bits.items × (IsFalse m.has_words → m.exponents ≡ replicate 8 0) };
}

// By hand, so that a caller that lets one go makes one call, and not one for each part of its bits.
impl Drop for Mono {
    fn drop(self) {
        let Mono {
            exponents: _,
            has_words: _,
            bits,
        } = self;
        drop(bits);
    }
}

impl Mono {
    /// The monomial of rising ranks of bits and an exponent for each word.
    pub fn new(alloc: Global, bits: &[u32], exponents: &[u64; 8]) -> Result<Mono, AllocError>
        requires { IsStrictlySortedBy nat_cmp bits.now }
        ensures { IfOk result (λ m. m ≡ record { exponents = exponents.now; bits = bits.now }) }
    {
        Ok(Mono {
            exponents: *exponents,
            has_words: *exponents != [0; 8],
            bits: SmallVec::from_slice(alloc, bits)?,
        })
    }

    /// The ranks of its bits, rising.
    pub fn bits(&self) -> &[u32]
        ensures value { result.now ≡ self.now.bits }
        ensures rising { IsStrictlySortedBy nat_cmp self.now.bits }
    {
        self.bits.as_slice()
    }

    pub(crate) fn has(&self, bit: u32) -> bool
        ensures { result ≡ has_bit bit self.now }
    {
        self.bits.as_slice().contains(&bit)
    }

    // The product over a field of 2^k elements.
    pub(crate) fn times(&self, other: &Mono, k: u32) -> Result<Mono, AllocError>
        requires k_in { (1 ≤ k) × (k ≤ 64) }
        requires over { AllByRecursion (λ e. e < 2 ^ k) self.now.exponents }
        requires other_over { AllByRecursion (λ e. e < 2 ^ k) other.now.exponents }
        ensures { IfOk result (λ m. m ≡ times k self.now other.now) }
    {
        let mut bits = self.bits.clone()?;
        for r in other.bits.as_slice() {
            add_rank(&mut bits, *r)?;
        }
        Ok(Mono {
            exponents: self.times_words(other, k),
            has_words: self.has_words || other.has_words,
            bits,
        })
    }

    // The exponents of the product's words.
    fn times_words(&self, other: &Mono, k: u32) -> [u64; 8]
        requires k_in { (1 ≤ k) × (k ≤ 64) }
        requires over { AllByRecursion (λ e. e < 2 ^ k) self.now.exponents }
        requires other_over { AllByRecursion (λ e. e < 2 ^ k) other.now.exponents }
        ensures { result ≡ add_exponents k self.now.exponents other.now.exponents }
    {
        if self.has_words || other.has_words {
            sum_exponents(&self.exponents, &other.exponents, k)
        } else {
            [0; 8]
        }
    }

    // The monomial without the bit.
    pub(crate) fn without(&self, bit: u32) -> Result<Mono, AllocError>
        ensures { IfOk result (λ m. m ≡ without_bit bit self.now) }
    {
        let mut bits = SmallVec::new(*self.bits.allocator());
        for r in self.bits.as_slice() {
            if *r != bit {
                bits.push(*r)?;
            }
        }
        Ok(Mono {
            exponents: self.exponents,
            has_words: self.has_words,
            bits,
        })
    }

    // Takes the bit out.
    pub(crate) fn drop_bit(&mut self, bit: u32)
        ensures { self.new ≡ without_bit bit self.old }
    {
        if let Ok(i) = self.bits.as_slice().binary_search(&bit) {
            self.bits.remove(i);
        }
    }

    // Gives a word an exponent.
    pub(crate) fn set_exponent(&mut self, word: usize, exponent: u64)
        requires { word < 8 }
        ensures { self.new ≡ record { exponents = slice_set self.old.exponents word exponent; bits = self.old.bits } }
    {
        self.exponents[word] = exponent;
        self.has_words = true;
    }

    // Puts a bit into it. After running out of memory it is not used again.
    pub(crate) fn add_bit(&mut self, bit: u32) -> Result<(), AllocError>
        ensures { OnOk result (self.new ≡ record { exponents = self.old.exponents; bits = with_rank self.old.bits bit }) }
    {
        add_rank(&mut self.bits, bit)?;
        Ok(())
    }

    // The order of the exponents of the words.
    fn compare_words(&self, other: &Mono) -> Ordering
        ensures { result ≡ exponents_cmp self.now.exponents other.now.exponents }
    {
        if self.has_words || other.has_words {
            other.exponents.as_slice().cmp(&self.exponents.as_slice())
        } else {
            Ordering::Equal
        }
    }

    // Another monomial that is the same.
    pub(crate) fn copied(&self) -> Result<Mono, AllocError>
        ensures { IfOk result (λ m. m ≡ self.now) }
    {
        Ok(Mono {
            exponents: self.exponents,
            has_words: self.has_words,
            bits: self.bits.clone()?,
        })
    }

    /// The exponent of each word.
    pub fn exponents(&self) -> &[u64; 8]
        ensures value { result.now ≡ self.now.exponents }
    {
        &self.exponents
    }
}

fn compare_ranks(a: &[u32], b: &[u32]) -> Ordering
    ensures { result ≡ ranks_cmp a.now b.now }
{
    let mut i = 0;
    while i < a.len() && i < b.len() {
        match a[i].cmp(&b[i]) {
            Ordering::Equal => {}
            other => return other,
        }
        i += 1;
    }
    b.len().cmp(&a.len())
}

impl PartialEq for Mono {
    ghost eq = { eq_by_cmp text_cmp };

    ghost laws = { partial_equiv_from_equiv (eq_by_cmp_equiv text_cmp_total) };

    fn eq(&self, other: &Mono) -> bool {
        self.cmp(other) == Ordering::Equal
    }
}

impl Eq for Mono {
    ghost laws = { eq_by_cmp_equiv text_cmp_total };
}

impl Ord for Mono {
    ghost cmp = { text_cmp };

    ghost total = { text_cmp_total };

    ghost matches_partial_cmp = { λ x y. refl };

    ghost matches_eq = { λ x y. refl };

    fn cmp(&self, other: &Mono) -> Ordering {
        match self.compare_words(other) {
            Ordering::Equal => compare_ranks(self.bits.as_slice(), other.bits.as_slice()),
            words => words,
        }
    }
}

impl PartialOrd for Mono {
    ghost partial_cmp = { as_partial_cmp text_cmp };

    ghost laws = { partial_order_from_total text_cmp_total };

    fn partial_cmp(&self, other: &Mono) -> Option<Ordering> {
        Some(self.cmp(other))
    }
}

fn add_rank(bits: &mut SmallVec<u32, 6>, r: u32) -> Result<(), AllocError>
    ensures with { OnOk result (bits.new.items ≡ with_rank bits.old.items r) }
    ensures unchanged { OnErr result (bits.new.items ≡ bits.old.items) }
{
    let i = place_of(bits.as_slice(), r);
    if i < bits.len() && bits.as_slice()[i] == r {
        return Ok(());
    }
    bits.insert(i, r)?;
    Ok(())
}

/// The index of the first rank that is not below `r`, or the length where there is none.
pub fn place_of(bits: &[u32], r: u32) -> usize
    ensures within { result ≤ length bits.now }
    ensures place { with_rank bits.now r ≡ take result bits.now ++ with_rank (drop result bits.now) r }
    ensures below { (i : ℕ) → i < result → slice_index bits.now i < r }
    ensures stop { result < length bits.now → r ≤ slice_index bits.now result }
{
    let mut i = 0;
    while i < bits.len() && bits[i] < r {
        i += 1;
    }
    i
}

/// The exponents of the product of two monomials with exponents below 2^k, over a field of 2^k elements.
pub fn sum_exponents(a: &[u64; 8], b: &[u64; 8], k: u32) -> [u64; 8]
    requires k_in { (1 ≤ k) × (k ≤ 64) }
    requires left { AllByRecursion (λ e. e < 2 ^ k) a.now }
    requires right { AllByRecursion (λ e. e < 2 ^ k) b.now }
    ensures { result ≡ add_exponents k a.now b.now }
{
    let mut sums = *a;
    for i in 0..8 {
        sums[i] = sum_exponent(a[i], b[i], k);
    }
    sums
}

fn sum_exponent(a: u64, b: u64, k: u32) -> u64
    requires k_in { (1 ≤ k) × (k ≤ 64) }
    requires left { a < 2 ^ k }
    requires right { b < 2 ^ k }
    ensures { result ≡ add_exponent k a b }
{
    let top = u64::MAX >> (64 - k);
    if a <= top - b { a + b } else { a - (top - b) }
}
