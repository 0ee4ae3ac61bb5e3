//! Laws of texts. These functions do nothing: their contracts are proved of the definitions alone.
ghost use Rattle.std.specs.Prelude.{◌<◌, ◌^◌, decimal, ℕ};
ghost use Rattle.text_core.specs.Numbers.{hex_text, IsDecimal, IsHex};

/// A number is read back from the text in hexadecimal that is written of it.
pub fn hex_is_read_back()
    ensures { (n : ℕ) → n < 16 ^ 64 → IsHex (hex_text n) n }
{}

/// A number is read back from its text in decimal.
pub fn decimal_is_read_back()
    ensures { (n : ℕ) → n < 2 ^ 64 → IsDecimal (decimal n) n }
{}
