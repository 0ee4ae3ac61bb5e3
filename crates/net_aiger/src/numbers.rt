//! The words of a line, and the numbers that they say.
ghost use Rattle.std.specs.Prelude.{◌≡◌, ◌∷◌, [], IfOk, IfSome, Some, map};
ghost use Rattle.std.specs.Option.{option_map};
ghost use Rattle.net_aiger.specs.Numbers.{number_of, numbers_of, words_of};

use std::alloc::{AllocError, Global};
use text_core::read_decimal;

/// The number that a word says, which is below 2^32. As a line the word says that number alone. It takes no memory.
pub(crate) fn number(word: &[u8]) -> Option<u32>
    ensures value { result ≡ number_of word.now }
    ensures alone { IfSome result (λ n. numbers_of (words_of word.now) ≡ Some (n ∷ [])) }
{
    match read_decimal(word, 4_294_967_295) {
        Some(number) => Some(number as u32),
        None => None,
    }
}

/// The words of a line, which spaces separate.
pub(crate) fn words<'a>(alloc: Global, line: &'a [u8]) -> Result<Vec<&'a [u8]>, AllocError>
    ensures { IfOk result (λ v. map (λ word. word.now) v.items ≡ words_of line.now) }
{
    line.split(|&b| b == b' ')
        .filter(|word| !word.is_empty())
        .collect(alloc)
}

/// The numbers that words say, where each says one.
pub(crate) fn numbers(alloc: Global, words: &[&[u8]]) -> Result<Option<Vec<u32>>, AllocError>
    ensures { IfOk result (λ found. option_map (λ v. v.items) found ≡ numbers_of (map (λ word. word.now) words.now)) }
{
    let mut numbers = Vec::new(alloc);
    for word in words {
        let Some(number) = number(*word) else {
            return Ok(None);
        };
        numbers.push(number)?;
    }
    Ok(Some(numbers))
}

/// The numbers that a line says, where each of its words says one.
pub(crate) fn numbers_in(alloc: Global, line: &[u8]) -> Result<Option<Vec<u32>>, AllocError>
    ensures { IfOk result (λ found. option_map (λ v. v.items) found ≡ numbers_of (words_of line.now)) }
{
    let words = words(alloc, line)?;
    numbers(alloc, &words)
}
