//! The words of the commands that make netlists.
ghost use Rattle.std.specs.Prelude.{◌≡◌, ◌∷◌, [], map, string_bytes, IfSome, IfNone};
ghost use Rattle.job_words.specs.Kind.{kind_name as name_of};
ghost use Rattle.job_words.specs.MadeWords.{AreTrialWords, IsOfKind, IsTrialNumber, IsValueOf};

use crate::kind::Kind;
use crate::operands::is_operand;
use crate::options::read_terms;
use text_core::{read_decimal, read_hex};

/// The words of a trial.
#[derive(Clone, Copy)]
pub struct TrialWords {
    /// The number that tells which gate is turned over, and where.
    pub number: u64,
    /// The modulus of the field, bit i of which is the coefficient of x^i.
    pub modulus: u128,
    /// The most terms that a stage may have, 1 to 262,144.
    pub terms: u32,
}

/// A kind and a signature.
pub(crate) fn of_kind<'a>(words: &'a [String]) -> Option<(&'a str, Kind)>
    ensures found { IfSome result (λ r. IsOfKind (map string_bytes words.now) r.0.now r.1) }
    ensures none { IfNone result ((signature kind : _) → IsOfKind (map string_bytes words.now) signature kind → ⊥) }
{
    match words {
        [kind, signature] => kind_and_file(kind.as_str(), signature.as_str()),
        _ => None,
    }
}

// The signature and the kind, where the first word is a kind's name and the second names a file.
fn kind_and_file<'a>(kind: &str, signature: &'a str) -> Option<(&'a str, Kind)>
    ensures found { IfSome result (λ r. IsOfKind (kind.now ∷ signature.now ∷ []) r.0.now r.1) }
    ensures none { IfNone result ((s k : _) → IsOfKind (kind.now ∷ signature.now ∷ []) s k → ⊥) }
{
    if !is_operand(signature) {
        return None;
    }
    match read_kind(kind) {
        Some(kind) => Some((signature, kind)),
        None => None,
    }
}

// The kind of this name.
fn read_kind(name: &str) -> Option<Kind>
    ensures found { IfSome result (λ kind. name.now ≡ name_of kind) }
    ensures none { IfNone result ((kind : _) → name.now ≡ name_of kind → ⊥) }
{
    match name {
        "mastrovito" => Some(Kind::Mastrovito),
        "montgomery" => Some(Kind::Montgomery),
        "composite" => Some(Kind::Composite),
        "normal" => Some(Kind::Normal),
        "adder" => Some(Kind::Adder),
        "squarer" => Some(Kind::Squarer),
        "digit" => Some(Kind::Digit),
        _ => None,
    }
}

/// A number and a modulus with the option of terms behind them.
pub(crate) fn of_numbers(words: &[String]) -> Option<TrialWords>
    ensures found { IfSome result (λ trial. AreTrialWords (map string_bytes words.now) trial.number trial.modulus trial.terms) }
    ensures none { IfNone result ((number modulus terms : _) → AreTrialWords (map string_bytes words.now) number modulus terms → ⊥) }
{
    match words {
        [number, modulus, options @ ..] => {
            of_two_numbers(number.as_str(), modulus.as_str(), options)
        }
        _ => None,
    }
}

// The words of a trial, where two words are its number and its modulus, and those behind them the option of terms.
fn of_two_numbers(number: &str, modulus: &str, options: &[String]) -> Option<TrialWords>
    ensures found { IfSome result (λ trial. AreTrialWords (number.now ∷ modulus.now ∷ map string_bytes options.now) trial.number trial.modulus trial.terms) }
    ensures none { IfNone result ((n m t : _) → AreTrialWords (number.now ∷ modulus.now ∷ map string_bytes options.now) n m t → ⊥) }
{
    match two_numbers(number, modulus) {
        Some((number, modulus)) => match read_terms(options) {
            Some(terms) => Some(TrialWords {
                number,
                modulus,
                terms,
            }),
            None => None,
        },
        None => None,
    }
}

// The two numbers themselves.
fn two_numbers(number: &str, modulus: &str) -> Option<(u64, u128)>
    ensures found { IfSome result (λ r. IsTrialNumber number.now r.0 × IsValueOf modulus.now r.1) }
    ensures none { IfNone result ((n m : _) → IsTrialNumber number.now n → IsValueOf modulus.now m → ⊥) }
{
    match (trial_number(number), value_of(modulus)) {
        (Some(number), Some(modulus)) => Some((number, modulus)),
        _ => None,
    }
}

// The number of a trial.
fn trial_number(word: &str) -> Option<u64>
    ensures found { IfSome result (λ number. IsTrialNumber word.now number) }
    ensures none { IfNone result ((number : _) → IsTrialNumber word.now number → ⊥) }
{
    let digits = word.as_bytes();
    if digits.len() != 1 && digits.starts_with(b"0") {
        return None;
    }
    match read_decimal(digits, u128::from(u64::MAX)) {
        Some(number) => Some(number as u64),
        None => None,
    }
}

// The number that a value stands for.
fn value_of(word: &str) -> Option<u128>
    ensures found { IfSome result (λ value. IsValueOf word.now value) }
    ensures none { IfNone result ((value : _) → IsValueOf word.now value → ⊥) }
{
    if word.len() > 34 {
        return None;
    }
    read_hex(word.as_bytes(), u128::MAX)
}
