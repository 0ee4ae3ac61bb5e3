//! Words, one after another.
ghost use Rattle.std.specs.Prelude.{◌≡◌};
ghost use Rattle.std.specs.List.{list_any};
ghost use Rattle.std.specs.Str.{bytes_eq};
ghost use Rattle.outcome.specs.Outcome.{Returns};
ghost use Rattle.net_words.specs.Roles.{is_output as is_output_word, input_count as count_inputs};
ghost use Rattle.net_signature.specs.Body.{with_word as words_with, is_fed as is_fed_word};
ghost use Rattle.net_signature.specs.Few.{AreFew};
ghost use Rattle.net_signature.specs.Reading.{Fits};

use crate::fault::SigFault;
use net_words::{Role, WordText};

const MAX_WORDS: usize = 8;

/// One more word, whose name is new; no second output word, and no ninth other word. A fault leaves the words as before.
pub fn add_word(words: &mut Vec<WordText>, word: WordText) -> Result<(), SigFault>
    ensures fits { Fits (λ u. words.new.items) result (Returns (words_with words.old.items word)) }
    ensures few { AreFew words.old.items → AreFew words.new.items }
{
    let line = word.line;
    let before = words.as_slice();
    if has_name(before, word.name.as_str()) {
        return Err(SigFault::NameTwice { line });
    }
    if is_output(&word) {
        if has_output(before) {
            return Err(SigFault::TwoOutputs { line });
        }
    } else if input_count(before) >= MAX_WORDS {
        return Err(SigFault::TooManyWords { line });
    }
    words.push(word)?;
    Ok(())
}

// Whether a word has the name.
fn has_name(words: &[WordText], name: &str) -> bool
    ensures { result ≡ list_any (λ other. bytes_eq other.name name.now) words.now }
{
    words.iter().any(|word| word.name.as_str() == name)
}

// Whether a word is the output.
fn is_output(word: &WordText) -> bool
    ensures { result ≡ is_output_word word.now }
{
    word.role == Role::Output
}

/// Whether a word is fed.
pub fn is_fed(word: &WordText) -> bool
    ensures { result ≡ is_fed_word word.now }
{
    word.role == Role::Fed
}

/// Whether there is an output word.
pub fn has_output(words: &[WordText]) -> bool
    ensures { result ≡ list_any is_output_word words.now }
{
    words.iter().any(|word| is_output(word))
}

// How many words there are that are no output word.
fn input_count(words: &[WordText]) -> usize
    ensures { result ≡ count_inputs words.now }
{
    words.iter().filter(|word| !is_output(word)).count()
}
