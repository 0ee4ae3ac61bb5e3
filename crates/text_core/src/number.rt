//! Numbers in hexadecimal and in decimal, by value.
ghost use Rattle.std.specs.Prelude.{◌≡◌, ◌<◌, ◌≤◌, ◌+◌, ◌*◌, ℕ, IfSome, IfNone};
ghost use Rattle.text_core.specs.Numbers.{IsDigit, digit_value, IsHex, IsDecimal, value_of, AreDigits};

/// The number of a token `0x..`, where it is at most `limit`.
pub fn read_hex(token: &[u8], limit: u128) -> Option<u128>
    ensures found { IfSome result (λ n. IsHex token.now n × (n ≤ limit)) }
    ensures none { IfNone result ((n : ℕ) → IsHex token.now n → n ≤ limit → ⊥) }
{
    match token {
        [b'0', b'x', digits @ ..] => digits_value(digits, 16, limit),
        _ => None,
    }
}

/// The number of a token of decimal digits, where it is at most `limit`.
pub fn read_decimal(token: &[u8], limit: u128) -> Option<u128>
    ensures found { IfSome result (λ n. IsDecimal token.now n × (n ≤ limit)) }
    ensures none { IfNone result ((n : ℕ) → IsDecimal token.now n → n ≤ limit → ⊥) }
{
    digits_value(token, 10, limit)
}

// What a digit of the base stands for.
fn digit(byte: u8, base: u8) -> Option<u8>
    ensures found { IfSome result (λ d. IsDigit base byte × (d ≡ digit_value byte)) }
    ensures none { IfNone result (IsDigit base byte → ⊥) }
{
    let value = match byte {
        b'0'..=b'9' => byte - b'0',
        b'a'..=b'f' => byte - b'a' + 10,
        b'A'..=b'F' => byte - b'A' + 10,
        _ => return None,
    };
    if value < base { Some(value) } else { None }
}

// A value with one more digit, where it is at most `limit`.
fn with_digit(value: u128, base: u8, digit: u8, limit: u128) -> Option<u128>
    ensures found { IfSome result (λ n. (n ≡ value * base + digit) × (n ≤ limit)) }
    ensures none { IfNone result (limit < value * base + digit) }
{
    let shifted = value.checked_mul(u128::from(base))?;
    let sum = shifted.checked_add(u128::from(digit))?;
    if sum <= limit { Some(sum) } else { None }
}

// The number of at least one digit of the base, where it is at most `limit`.
fn digits_value(digits: &[u8], base: u8, limit: u128) -> Option<u128>
    requires { 0 < base }
    ensures found { IfSome result (λ n. AreDigits base digits.now × (n ≡ value_of base digits.now) × (n ≤ limit)) }
    ensures none { IfNone result (AreDigits base digits.now → value_of base digits.now ≤ limit → ⊥) }
{
    if digits.is_empty() {
        return None;
    }
    let mut value: u128 = 0;
    for &byte in digits {
        let digit = digit(byte, base)?;
        let Some(next) = with_digit(value, base, digit, limit) else {
            return None;
        };
        value = next;
    }
    Some(value)
}
