//! Counts that stop at the greatest number of 64 bits, and lists of numbers.
ghost use Rattle.std.specs.Prelude.{◌≡◌};
ghost use Rattle.job_io.specs.Counts.{is_listed, next_of};

/// The next count.
pub fn next_count(count: u64) -> u64
    ensures { result ≡ next_of count }
{
    count.saturating_add(1)
}

/// Whether the number stands in the list.
pub fn is_listed(numbers: &[u32], number: u64) -> bool
    ensures { result ≡ is_listed numbers.now number }
{
    for listed in numbers {
        if u64::from(*listed) == number {
            return true;
        }
    }
    false
}
