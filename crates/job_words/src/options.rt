//! Options: what stands behind the operands of a command.
ghost use Rattle.std.specs.Prelude.{◌≤◌, [], ◌∷◌, true, map, string_bytes, IfSome, IfNone};
ghost use Rattle.job_words.specs.Options.{AreNone, IsTermCount, IsTermsOption, IsCycleCount, IsCyclesOption, AreOptions, AreCircuitOptions};

use text_core::read_decimal;

const CYCLES: u32 = 0;

// The option without a number.
const SIMPLIFY: &str = "--simplify";

/// The greatest bound on the terms of a stage.
pub(crate) const STAGE_LIMIT: u32 = 262_144;

/// The bound on the terms of a stage where no option sets it.
pub(crate) const STAGE_TERMS: u32 = 65_536;

/// Nothing, where there are no options.
pub(crate) fn read_nothing(options: &[String]) -> Option<()>
    ensures found { IfSome result (λ u. AreNone (map string_bytes options.now)) }
    ensures none { IfNone result (AreNone (map string_bytes options.now) → ⊥) }
{
    match options {
        [] => Some(()),
        _ => None,
    }
}

/// The bound on terms, which has this limit and stands by default at this number, and the number of cycles that the options
/// set.
pub(crate) fn read_options(options: &[String], limit: u32, default: u32) -> Option<(u32, u32)>
    ensures found { IfSome result (λ r. AreOptions limit default (map string_bytes options.now) r.0 r.1) }
    ensures none { IfNone result ((terms cycles : _) → AreOptions limit default (map string_bytes options.now) terms cycles → ⊥) }
    ensures few { IfSome result (λ r. r.1 ≤ 4096) }
{
    match options {
        [] => Some((default, CYCLES)),
        [name, number] => of_option(name.as_str(), number.as_str(), limit, default),
        [name, number, other, second] => of_two(
            name.as_str(),
            number.as_str(),
            other.as_str(),
            second.as_str(),
            limit,
            default,
        ),
        _ => None,
    }
}

// The bound on terms and the number of cycles, of which one option with its number sets one, and the other stands by default.
fn of_option(name: &str, number: &str, limit: u32, default: u32) -> Option<(u32, u32)>
    ensures found { IfSome result (λ r. AreOptions limit default (name.now ∷ number.now ∷ []) r.0 r.1) }
    ensures none { IfNone result ((terms cycles : _) → AreOptions limit default (name.now ∷ number.now ∷ []) terms cycles → ⊥) }
    ensures few { IfSome result (λ r. r.1 ≤ 4096) }
{
    match name {
        "--terms" => match term_count(number, limit) {
            Some(terms) => Some((terms, CYCLES)),
            None => None,
        },
        "--cycles" => match cycle_count(number) {
            Some(cycles) => Some((default, cycles)),
            None => None,
        },
        _ => None,
    }
}

// The bound on terms and the number of cycles, where two options with their numbers set both, in either order.
fn of_two(
    name: &str,
    number: &str,
    other: &str,
    second: &str,
    limit: u32,
    default: u32,
) -> Option<(u32, u32)>
    ensures found { IfSome result (λ r. AreOptions limit default (name.now ∷ number.now ∷ other.now ∷ second.now ∷ []) r.0 r.1) }
    ensures none { IfNone result ((terms cycles : _) → AreOptions limit default (name.now ∷ number.now ∷ other.now ∷ second.now ∷ []) terms cycles → ⊥) }
    ensures few { IfSome result (λ r. r.1 ≤ 4096) }
{
    if name == "--terms" && other == "--cycles" {
        both(number, second, limit)
    } else if name == "--cycles" && other == "--terms" {
        both(second, number, limit)
    } else {
        None
    }
}

// The two numbers.
fn both(terms: &str, cycles: &str, limit: u32) -> Option<(u32, u32)>
    ensures found { IfSome result (λ r. IsTermCount limit terms.now r.0 × IsCycleCount cycles.now r.1) }
    ensures none { IfNone result ((t c : _) → IsTermCount limit terms.now t → IsCycleCount cycles.now c → ⊥) }
    ensures few { IfSome result (λ r. r.1 ≤ 4096) }
{
    match (term_count(terms, limit), cycle_count(cycles)) {
        (Some(terms), Some(cycles)) => Some((terms, cycles)),
        _ => None,
    }
}

/// The bound on the terms of a stage and the number of cycles that the options set, and whether they ask for a simpler circuit.
pub(crate) fn read_circuit_options(options: &[String]) -> Option<(u32, u32, bool)>
    ensures found { IfSome result (λ r. AreCircuitOptions (map string_bytes options.now) r.0 r.1 r.2) }
    ensures none { IfNone result ((terms cycles simple : _) → AreCircuitOptions (map string_bytes options.now) terms cycles simple → ⊥) }
    ensures few { IfSome result (λ r. r.1 ≤ 4096) }
{
    match read_options(options, STAGE_LIMIT, STAGE_TERMS) {
        Some((terms, cycles)) => Some((terms, cycles, false)),
        None => match read_simplify(options) {
            Some((terms, cycles)) => Some((terms, cycles, true)),
            None => None,
        },
    }
}

// The two numbers, where the options ask for a simpler circuit: `--simplify` stands before the others, between them, or behind.
fn read_simplify(options: &[String]) -> Option<(u32, u32)>
    ensures found { IfSome result (λ r. AreCircuitOptions (map string_bytes options.now) r.0 r.1 true) }
    ensures none { IfNone result ((terms cycles : _) → AreCircuitOptions (map string_bytes options.now) terms cycles true → ⊥) }
    ensures few { IfSome result (λ r. r.1 ≤ 4096) }
{
    match options {
        [word] => of_simplify(word.as_str()),
        [first, second, third] => of_three(first.as_str(), second.as_str(), third.as_str()),
        [first, second, third, fourth, fifth] => of_five(
            first.as_str(),
            second.as_str(),
            third.as_str(),
            fourth.as_str(),
            fifth.as_str(),
        ),
        _ => None,
    }
}

// The two numbers that stand by default, where the only word is `--simplify`.
fn of_simplify(word: &str) -> Option<(u32, u32)>
    ensures found { IfSome result (λ r. AreCircuitOptions (word.now ∷ []) r.0 r.1 true) }
    ensures none { IfNone result ((terms cycles : _) → AreCircuitOptions (word.now ∷ []) terms cycles true → ⊥) }
    ensures few { IfSome result (λ r. r.1 ≤ 4096) }
{
    if word == SIMPLIFY {
        Some((STAGE_TERMS, CYCLES))
    } else {
        None
    }
}

// The two numbers, where three words are one option with its number, and `--simplify` before or behind.
fn of_three(first: &str, second: &str, third: &str) -> Option<(u32, u32)>
    ensures found { IfSome result (λ r. AreCircuitOptions (first.now ∷ second.now ∷ third.now ∷ []) r.0 r.1 true) }
    ensures none { IfNone result ((terms cycles : _) → AreCircuitOptions (first.now ∷ second.now ∷ third.now ∷ []) terms cycles true → ⊥) }
    ensures few { IfSome result (λ r. r.1 ≤ 4096) }
{
    if first == SIMPLIFY {
        of_option(second, third, STAGE_LIMIT, STAGE_TERMS)
    } else if third == SIMPLIFY {
        of_option(first, second, STAGE_LIMIT, STAGE_TERMS)
    } else {
        None
    }
}

// The two numbers, where five words are two options with their numbers, and `--simplify` before, between or behind.
fn of_five(first: &str, second: &str, third: &str, fourth: &str, fifth: &str) -> Option<(u32, u32)>
    ensures found { IfSome result (λ r. AreCircuitOptions (first.now ∷ second.now ∷ third.now ∷ fourth.now ∷ fifth.now ∷ []) r.0 r.1 true) }
    ensures none { IfNone result ((terms cycles : _) → AreCircuitOptions (first.now ∷ second.now ∷ third.now ∷ fourth.now ∷ fifth.now ∷ []) terms cycles true → ⊥) }
    ensures few { IfSome result (λ r. r.1 ≤ 4096) }
{
    if first == SIMPLIFY {
        of_two(second, third, fourth, fifth, STAGE_LIMIT, STAGE_TERMS)
    } else if third == SIMPLIFY {
        of_two(first, second, fourth, fifth, STAGE_LIMIT, STAGE_TERMS)
    } else if fifth == SIMPLIFY {
        of_two(first, second, third, fourth, STAGE_LIMIT, STAGE_TERMS)
    } else {
        None
    }
}

/// The number of cycles that the options set, where there is no other option.
pub(crate) fn read_cycles(options: &[String]) -> Option<u32>
    ensures found { IfSome result (λ cycles. IsCyclesOption (map string_bytes options.now) cycles) }
    ensures none { IfNone result ((cycles : _) → IsCyclesOption (map string_bytes options.now) cycles → ⊥) }
    ensures few { IfSome result (λ cycles. cycles ≤ 4096) }
{
    match options {
        [] => Some(CYCLES),
        [name, number] => of_cycles(name.as_str(), number.as_str()),
        _ => None,
    }
}

// The number of cycles, where the one option is `--cycles` with its number.
fn of_cycles(name: &str, number: &str) -> Option<u32>
    ensures found { IfSome result (λ cycles. IsCyclesOption (name.now ∷ number.now ∷ []) cycles) }
    ensures none { IfNone result ((cycles : _) → IsCyclesOption (name.now ∷ number.now ∷ []) cycles → ⊥) }
    ensures few { IfSome result (λ cycles. cycles ≤ 4096) }
{
    match name {
        "--cycles" => cycle_count(number),
        _ => None,
    }
}

/// The bound on the terms of a stage that the options set, where there is no other option.
pub(crate) fn read_terms(options: &[String]) -> Option<u32>
    ensures found { IfSome result (λ terms. IsTermsOption 262144 65536 (map string_bytes options.now) terms) }
    ensures none { IfNone result ((terms : _) → IsTermsOption 262144 65536 (map string_bytes options.now) terms → ⊥) }
{
    match options {
        [] => Some(STAGE_TERMS),
        [name, number] => of_terms(name.as_str(), number.as_str()),
        _ => None,
    }
}

// The bound on terms, where the one option is `--terms` with its number.
fn of_terms(name: &str, number: &str) -> Option<u32>
    ensures found { IfSome result (λ terms. IsTermsOption 262144 65536 (name.now ∷ number.now ∷ []) terms) }
    ensures none { IfNone result ((terms : _) → IsTermsOption 262144 65536 (name.now ∷ number.now ∷ []) terms → ⊥) }
{
    match name {
        "--terms" => term_count(number, STAGE_LIMIT),
        _ => None,
    }
}

// A number of terms.
fn term_count(number: &str, limit: u32) -> Option<u32>
    ensures found { IfSome result (λ terms. IsTermCount limit number.now terms) }
    ensures none { IfNone result ((terms : _) → IsTermCount limit number.now terms → ⊥) }
{
    let digits = number.as_bytes();
    if digits.starts_with(b"0") {
        return None;
    }
    match read_decimal(digits, u128::from(limit)) {
        Some(terms) if terms > 0 => Some(terms as u32),
        _ => None,
    }
}

// A number of cycles.
fn cycle_count(number: &str) -> Option<u32>
    ensures found { IfSome result (λ cycles. IsCycleCount number.now cycles) }
    ensures none { IfNone result ((cycles : _) → IsCycleCount number.now cycles → ⊥) }
    ensures few { IfSome result (λ cycles. cycles ≤ 4096) }
{
    let digits = number.as_bytes();
    if digits.len() != 1 && digits.starts_with(b"0") {
        return None;
    }
    match read_decimal(digits, 4_096) {
        Some(cycles) => Some(cycles as u32),
        None => None,
    }
}
