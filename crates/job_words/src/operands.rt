//! Operands: words that stand for files and for values.
ghost use Rattle.std.specs.Prelude.{◌≡◌, ◌≤◌, ◌↔◌, All, drop, length, map, take, string_bytes, IsTrue, IfSome, IfNone};
ghost use Rattle.job_words.specs.Operands.{IsBlifName, IsOperand, IsValue};
ghost use Rattle.job_words.specs.Shapes.{AreValues};
ghost use Rattle.job_words.specs.private.OptionPlace.{begins_options as begins, before_options, from_options};

use crate::options::read_cycles;
use text_core::read_hex;

/// Values with the option of cycles behind them.
pub(crate) fn read_values<'a>(words: &'a [String]) -> Option<(&'a [String], u32)>
    ensures found { IfSome result (λ r. AreValues (map string_bytes words.now) (map string_bytes r.0.now) r.1) }
    ensures none { IfNone result ((vs c : _) → AreValues (map string_bytes words.now) vs c → ⊥) }
    ensures few { IfSome result (λ r. r.1 ≤ 4096) }
{
    let end = options_begin(words);
    let values = &words[..end];
    if !are_values(values) {
        return None;
    }
    match read_cycles(&words[end..]) {
        Some(cycles) => Some((values, cycles)),
        None => None,
    }
}

// Where the options begin: at the first word that begins with `--`, or at the end.
fn options_begin(words: &[String]) -> usize
    ensures within { result ≤ length words.now }
    ensures before { take result (map string_bytes words.now) ≡ before_options (map string_bytes words.now) }
    ensures behind { drop result (map string_bytes words.now) ≡ from_options (map string_bytes words.now) }
{
    for i in 0..words.len() {
        if begins_options(words[i].as_str()) {
            return i;
        }
    }
    words.len()
}

// Whether a word begins the options.
fn begins_options(word: &str) -> bool
    ensures { result ≡ begins word.now }
{
    word.starts_with("--")
}

// Whether each word is a value.
fn are_values(words: &[String]) -> bool
    ensures { IsTrue result ↔ All IsValue (map string_bytes words.now) }
{
    for i in 0..words.len() {
        if !is_value(words[i].as_str()) {
            return false;
        }
    }
    true
}

// Whether a word is a value.
fn is_value(word: &str) -> bool
    ensures { IsTrue result ↔ IsValue word.now }
{
    word.len() <= 34 && read_hex(word.as_bytes(), u128::MAX).is_some()
}

/// Whether a word can stand for a file.
pub(crate) fn is_operand(word: &str) -> bool
    ensures { IsTrue result ↔ IsOperand word.now }
{
    !word.is_empty()
        && !word.starts_with("--")
        && word.as_bytes().iter().all(|&b| b >= 0x20 && b != 0x7f)
}

/// Whether a netlist of this name is in BLIF.
pub(crate) fn is_blif(net: &str) -> bool
    ensures { IsTrue result ↔ IsBlifName net.now }
{
    let bytes = net.as_bytes();
    !bytes.ends_with(b".v") && !bytes.ends_with(b".aag")
}
