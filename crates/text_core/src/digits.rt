//! The value of digits.
ghost use Rattle.std.specs.Prelude.{◌≡◌, ◌≤◌, ◌+◌, ◌*◌, ◌^◌, MatchOption};
ghost use Rattle.text_core.specs.Numbers.{value_of, digit_value};

/// The value of digits of a base up to 16, where it is below 2^64.
pub fn value_in_base(digits: &[u8], base: u8) -> Option<u64>
    requires { (1 ≤ base) × (base ≤ 16) }
    ensures { MatchOption result (2 ^ 64 ≤ value_of base digits.now) (λ n. n ≡ value_of base digits.now) }
{
    let mut n: u64 = 0;
    for byte in digits {
        match with_digit(n, base, digit(*byte)) {
            Some(more) => n = more,
            None => return None,
        }
    }
    Some(n)
}

// A value with one more digit, where it is below 2^64.
fn with_digit(n: u64, base: u8, digit: u8) -> Option<u64>
    ensures { MatchOption result (2 ^ 64 ≤ n * base + digit) (λ m. m ≡ n * base + digit) }
{
    let shifted = n.checked_mul(u64::from(base))?;
    shifted.checked_add(u64::from(digit))
}

// What a digit stands for.
fn digit(byte: u8) -> u8
    ensures { result ≡ digit_value byte }
{
    if byte < 58 {
        byte.saturating_sub(48)
    } else if byte < 71 {
        byte - 55
    } else {
        byte.saturating_sub(87)
    }
}
