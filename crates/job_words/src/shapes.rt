//! The shapes of words behind the name of a command: files, and what follows them.
ghost use Rattle.std.specs.Prelude.{◌∷◌, map, string_bytes, IfSome, IfNone};
ghost use Rattle.job_words.specs.Options.{AreCircuitOptions, AreNone, AreStageOptions, AreSumOptions, IsCyclesOption, IsTermsOption};
ghost use Rattle.job_words.specs.Shapes.{IsOverBlif, IsOverFile, IsOverFiles, AreValues};
ghost use Rattle.job_words.specs.private.Rest.{Anything, IsRest};

use crate::operands::{is_blif, is_operand, read_values};
use crate::options::{
    STAGE_LIMIT, STAGE_TERMS, read_circuit_options, read_cycles, read_nothing, read_options,
    read_terms,
};
use crate::words::{
    ComposeWords, CyclePairWords, CycleWords, EvalWords, NetWords, PairWords, SimplifyPairWords,
    SimplifyWords,
};

// The greatest bound on the terms of a running sum, which stands where no option sets it.
const SUM_LIMIT: u32 = 1_048_576;

/// A signature and a second file.
pub(crate) fn over_file<'a>(words: &'a [String]) -> Option<(&'a str, &'a str)>
    ensures found { IfSome result (λ r. IsOverFile AreNone (map string_bytes words.now) r.0.now r.1.now) }
    ensures none { IfNone result ((signature file : _) → IsOverFile AreNone (map string_bytes words.now) signature file → ⊥) }
{
    match file_and_rest(words) {
        Some((signature, file, rest)) => match read_nothing(rest) {
            Some(()) => Some((signature, file)),
            None => None,
        },
        None => None,
    }
}

/// A signature, and a netlist with the options of stages and cycles.
pub(crate) fn over_net<'a>(words: &'a [String]) -> Option<(&'a str, NetWords<'a>)>
    ensures found { IfSome result (λ r. IsOverFile (λ rest. AreStageOptions rest r.1.terms r.1.cycles) (map string_bytes words.now) r.0.now r.1.net.now) }
    ensures none { IfNone result ((signature net terms cycles : _) → IsOverFile (λ rest. AreStageOptions rest terms cycles) (map string_bytes words.now) signature net → ⊥) }
{
    match file_and_rest(words) {
        Some((signature, net, rest)) => match read_options(rest, STAGE_LIMIT, STAGE_TERMS) {
            Some((terms, cycles)) => Some((signature, NetWords { net, terms, cycles })),
            None => None,
        },
        None => None,
    }
}

/// A signature, and a netlist with the options of stages and cycles and that of a simpler circuit.
pub(crate) fn over_circuit<'a>(words: &'a [String]) -> Option<(&'a str, SimplifyWords<'a>)>
    ensures found { IfSome result (λ r. IsOverFile (λ rest. AreCircuitOptions rest r.1.terms r.1.cycles r.1.simplify) (map string_bytes words.now) r.0.now r.1.net.now) }
    ensures none { IfNone result ((signature net terms cycles simple : _) → IsOverFile (λ rest. AreCircuitOptions rest terms cycles simple) (map string_bytes words.now) signature net → ⊥) }
{
    match file_and_rest(words) {
        Some((signature, net, rest)) => match read_circuit_options(rest) {
            Some((terms, cycles, simplify)) => Some((
                signature,
                SimplifyWords {
                    net,
                    terms,
                    cycles,
                    simplify,
                },
            )),
            None => None,
        },
        None => None,
    }
}

/// A signature, and a netlist with the option of cycles.
pub(crate) fn over_cycles<'a>(words: &'a [String]) -> Option<(&'a str, CycleWords<'a>)>
    ensures found { IfSome result (λ r. IsOverFile (λ rest. IsCyclesOption rest r.1.cycles) (map string_bytes words.now) r.0.now r.1.net.now) }
    ensures none { IfNone result ((signature net cycles : _) → IsOverFile (λ rest. IsCyclesOption rest cycles) (map string_bytes words.now) signature net → ⊥) }
{
    match file_and_rest(words) {
        Some((signature, net, rest)) => match read_cycles(rest) {
            Some(cycles) => Some((signature, CycleWords { net, cycles })),
            None => None,
        },
        None => None,
    }
}

/// A signature, and a netlist in BLIF with the option of terms.
pub(crate) fn over_blif<'a>(words: &'a [String]) -> Option<(&'a str, ComposeWords<'a>)>
    ensures found { IfSome result (λ r. IsOverBlif (λ rest. IsTermsOption 262144 65536 rest r.1.terms) (map string_bytes words.now) r.0.now r.1.net.now) }
    ensures none { IfNone result ((signature net terms : _) → IsOverBlif (λ rest. IsTermsOption 262144 65536 rest terms) (map string_bytes words.now) signature net → ⊥) }
{
    match over_terms(words) {
        Some((signature, words)) => {
            if is_blif(words.net) {
                Some((signature, words))
            } else {
                None
            }
        }
        None => None,
    }
}

// A signature, and a netlist of any form with the option of terms.
fn over_terms<'a>(words: &'a [String]) -> Option<(&'a str, ComposeWords<'a>)>
    ensures found { IfSome result (λ r. IsOverFile (λ rest. IsTermsOption 262144 65536 rest r.1.terms) (map string_bytes words.now) r.0.now r.1.net.now) }
    ensures none { IfNone result ((signature net terms : _) → IsOverFile (λ rest. IsTermsOption 262144 65536 rest terms) (map string_bytes words.now) signature net → ⊥) }
{
    match file_and_rest(words) {
        Some((signature, net, rest)) => match read_terms(rest) {
            Some(terms) => Some((signature, ComposeWords { net, terms })),
            None => None,
        },
        None => None,
    }
}

/// A signature, and a netlist with values and the option of cycles.
pub(crate) fn over_values<'a>(words: &'a [String]) -> Option<(&'a str, EvalWords<'a>)>
    ensures found { IfSome result (λ r. IsOverFile (λ rest. AreValues rest (map string_bytes r.1.values.now) r.1.cycles) (map string_bytes words.now) r.0.now r.1.net.now) }
    ensures none { IfNone result ((signature net values cycles : _) → IsOverFile (λ rest. AreValues rest values cycles) (map string_bytes words.now) signature net → ⊥) }
{
    match file_and_rest(words) {
        Some((signature, net, rest)) => match read_values(rest) {
            Some((values, cycles)) => Some((
                signature,
                EvalWords {
                    net,
                    values,
                    cycles,
                },
            )),
            None => None,
        },
        None => None,
    }
}

/// A signature, and a netlist and another file with the options of stages and cycles and that of a simpler circuit.
pub(crate) fn over_circuits<'a>(words: &'a [String]) -> Option<(&'a str, SimplifyPairWords<'a>)>
    ensures found { IfSome result (λ r. IsOverFiles (λ rest. AreCircuitOptions rest r.1.terms r.1.cycles r.1.simplify) (map string_bytes words.now) r.0.now r.1.net.now r.1.other.now) }
    ensures none { IfNone result ((signature net other terms cycles simple : _) → IsOverFiles (λ rest. AreCircuitOptions rest terms cycles simple) (map string_bytes words.now) signature net other → ⊥) }
{
    match files_and_rest(words) {
        Some((signature, net, other, rest)) => match read_circuit_options(rest) {
            Some((terms, cycles, simplify)) => Some((
                signature,
                SimplifyPairWords {
                    net,
                    other,
                    terms,
                    cycles,
                    simplify,
                },
            )),
            None => None,
        },
        None => None,
    }
}

/// A signature, and a netlist and a certificate with the options of running sums and cycles.
pub(crate) fn over_certificate<'a>(words: &'a [String]) -> Option<(&'a str, PairWords<'a>)>
    ensures found { IfSome result (λ r. IsOverFiles (λ rest. AreSumOptions rest r.1.terms r.1.cycles) (map string_bytes words.now) r.0.now r.1.net.now r.1.other.now) }
    ensures none { IfNone result ((signature net other terms cycles : _) → IsOverFiles (λ rest. AreSumOptions rest terms cycles) (map string_bytes words.now) signature net other → ⊥) }
{
    match files_and_rest(words) {
        Some((signature, net, other, rest)) => match read_options(rest, SUM_LIMIT, SUM_LIMIT) {
            Some((terms, cycles)) => Some((
                signature,
                PairWords {
                    net,
                    other,
                    terms,
                    cycles,
                },
            )),
            None => None,
        },
        None => None,
    }
}

/// A signature, and a netlist and another file with the option of cycles.
pub(crate) fn over_files<'a>(words: &'a [String]) -> Option<(&'a str, CyclePairWords<'a>)>
    ensures found { IfSome result (λ r. IsOverFiles (λ rest. IsCyclesOption rest r.1.cycles) (map string_bytes words.now) r.0.now r.1.net.now r.1.other.now) }
    ensures none { IfNone result ((signature net other cycles : _) → IsOverFiles (λ rest. IsCyclesOption rest cycles) (map string_bytes words.now) signature net other → ⊥) }
{
    match files_and_rest(words) {
        Some((signature, net, other, rest)) => match read_cycles(rest) {
            Some(cycles) => Some((signature, CyclePairWords { net, other, cycles })),
            None => None,
        },
        None => None,
    }
}

// A signature and a file, and what follows them.
fn file_and_rest<'a>(words: &'a [String]) -> Option<(&'a str, &'a str, &'a [String])>
    ensures found { IfSome result (λ r. IsOverFile (IsRest (map string_bytes r.2.now)) (map string_bytes words.now) r.0.now r.1.now) }
    ensures none { IfNone result ((signature file : _) → IsOverFile Anything (map string_bytes words.now) signature file → ⊥) }
{
    match words {
        [signature, file, rest @ ..] => are_file(signature.as_str(), file.as_str(), rest),
        _ => None,
    }
}

// The signature, the file and what follows them, where both words name files.
fn are_file<'a>(
    signature: &'a str,
    file: &'a str,
    rest: &'a [String],
) -> Option<(&'a str, &'a str, &'a [String])>
    ensures found { IfSome result (λ r. IsOverFile (IsRest (map string_bytes r.2.now)) (signature.now ∷ file.now ∷ map string_bytes rest.now) r.0.now r.1.now) }
    ensures none { IfNone result ((s f : _) → IsOverFile Anything (signature.now ∷ file.now ∷ map string_bytes rest.now) s f → ⊥) }
{
    if is_operand(signature) && is_operand(file) {
        Some((signature, file, rest))
    } else {
        None
    }
}

// A signature and two files, and what follows them.
fn files_and_rest<'a>(words: &'a [String]) -> Option<(&'a str, &'a str, &'a str, &'a [String])>
    ensures found { IfSome result (λ r. IsOverFiles (IsRest (map string_bytes r.3.now)) (map string_bytes words.now) r.0.now r.1.now r.2.now) }
    ensures none { IfNone result ((signature file other : _) → IsOverFiles Anything (map string_bytes words.now) signature file other → ⊥) }
{
    match words {
        [signature, file, other, rest @ ..] => are_files(
            signature.as_str(),
            file.as_str(),
            other.as_str(),
            rest,
        ),
        _ => None,
    }
}

// The signature, the two files and what follows them, where all three words name files.
fn are_files<'a>(
    signature: &'a str,
    file: &'a str,
    other: &'a str,
    rest: &'a [String],
) -> Option<(&'a str, &'a str, &'a str, &'a [String])>
    ensures found { IfSome result (λ r. IsOverFiles (IsRest (map string_bytes r.3.now)) (signature.now ∷ file.now ∷ other.now ∷ map string_bytes rest.now) r.0.now r.1.now r.2.now) }
    ensures none { IfNone result ((s f o : _) → IsOverFiles Anything (signature.now ∷ file.now ∷ other.now ∷ map string_bytes rest.now) s f o → ⊥) }
{
    if is_operand(signature) && is_operand(file) && is_operand(other) {
        Some((signature, file, other, rest))
    } else {
        None
    }
}
