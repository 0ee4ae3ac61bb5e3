//! The commands, and the words that spell them.
ghost use Rattle.std.specs.Prelude.{◌∷◌, map, string_bytes, IfSome, IfNone};
ghost use Rattle.job_words.specs.Command.{Over, Trial, IsSpelled, action_of, spelled_job};
ghost use Rattle.job_words.specs.private.Groups.{IsFurther, IsLater, IsOfTables, IsOverSignature};

use crate::kind::Kind;
use crate::made_words::{TrialWords, of_kind, of_numbers};
use crate::shapes::{
    over_blif, over_certificate, over_circuit, over_circuits, over_cycles, over_file, over_files,
    over_net, over_values,
};
use crate::words::{
    ComposeWords, CyclePairWords, CycleWords, EvalWords, NetWords, PairWords, SimplifyPairWords,
    SimplifyWords,
};

/// A command.
#[derive(Clone, Copy)]
pub enum Command<'a> {
    /// What a task does over the signature of this file, which is read first.
    Over { signature: &'a str, task: Task<'a> },
    /// `trial`: makes a multiplier, turns over one gate, and prints the input at which it is told apart from the product.
    Trial(TrialWords),
}

/// What a command does over its signature.
#[derive(Clone, Copy)]
pub enum Task<'a> {
    /// `bits`: prints the output word's polynomial in the input bits.
    Bits(SimplifyWords<'a>),
    /// `abstract`: prints the output word's polynomial in the input words.
    Abstract(SimplifyWords<'a>),
    /// `check`: says whether a netlist computes its specification, or the input at which it does not.
    Check(SimplifyPairWords<'a>),
    /// `same`: says whether two netlists compute one function, or the input at which they are told apart.
    Same(SimplifyPairWords<'a>),
    /// `eval`: prints the output word's element where the input words have these.
    Eval(EvalWords<'a>),
    /// `iso`: prints the isomorphism from the tower of the signature of this file.
    Iso(&'a str),
    /// `lift`: prints the polynomial of the table of this file.
    Lift(&'a str),
    /// `table`: prints the output word's element at every input.
    Table(CycleWords<'a>),
    /// `certify`: prints the output word's polynomial in the input words, with each step that leads to it.
    Certify(NetWords<'a>),
    /// `verify`: says whether a certificate shows its claim. The bound is one on its running sums.
    Verify(PairWords<'a>),
    /// `upgrade`: prints the same certificate in the newest version.
    Upgrade(CyclePairWords<'a>),
    /// `make`: prints a netlist of this kind.
    Make(Kind),
    /// `compose`: prints what a top that wires instances of blocks computes, in its words, from the polynomials of the blocks.
    Compose(ComposeWords<'a>),
}

/// The command that the words spell.
pub fn read_words<'a>(words: &'a [String]) -> Option<Command<'a>>
    ensures found { IfSome result (λ command. IsSpelled (map string_bytes words.now) (spelled_job command)) }
    ensures none { IfNone result ((job : _) → IsSpelled (map string_bytes words.now) job → ⊥) }
{
    match words {
        [name, rest @ ..] => read_command(name.as_str(), rest),
        [] => None,
    }
}

// The command of this name with these words behind it.
fn read_command<'a>(name: &str, rest: &'a [String]) -> Option<Command<'a>>
    ensures found { IfSome result (λ command. IsSpelled (name.now ∷ map string_bytes rest.now) (spelled_job command)) }
    ensures none { IfNone result ((job : _) → IsSpelled (name.now ∷ map string_bytes rest.now) job → ⊥) }
{
    match read_task(name, rest) {
        Some((signature, task)) => Some(Command::Over { signature, task }),
        None => match read_trial(name, rest) {
            Some(words) => Some(Command::Trial(words)),
            None => None,
        },
    }
}

// The words of a trial, where this is the name of its command.
fn read_trial(name: &str, rest: &[String]) -> Option<TrialWords>
    ensures found { IfSome result (λ trial. IsSpelled (name.now ∷ map string_bytes rest.now) (Trial trial.number trial.modulus trial.terms)) }
    ensures none { IfNone result ((number modulus terms : _) → IsSpelled (name.now ∷ map string_bytes rest.now) (Trial number modulus terms) → ⊥) }
{
    match name {
        "trial" => of_numbers(rest),
        _ => None,
    }
}

// The signature and the task of a command of this name with these words behind it.
fn read_task<'a>(name: &str, rest: &'a [String]) -> Option<(&'a str, Task<'a>)>
    ensures found { IfSome result (λ r. IsSpelled (name.now ∷ map string_bytes rest.now) (Over r.0.now (action_of r.1))) }
    ensures none { IfNone result ((job : _) → IsOverSignature job → IsSpelled (name.now ∷ map string_bytes rest.now) job → ⊥) }
{
    match name {
        "bits" => match over_circuit(rest) {
            Some((signature, words)) => Some((signature, Task::Bits(words))),
            None => None,
        },
        "abstract" => match over_circuit(rest) {
            Some((signature, words)) => Some((signature, Task::Abstract(words))),
            None => None,
        },
        "check" => match over_circuits(rest) {
            Some((signature, words)) => Some((signature, Task::Check(words))),
            None => None,
        },
        "same" => match over_circuits(rest) {
            Some((signature, words)) => Some((signature, Task::Same(words))),
            None => None,
        },
        _ => word_task(name, rest),
    }
}

// The signature and the task of a command of values, of kinds or of blocks, or else of one below, with these words behind its name.
fn word_task<'a>(name: &str, rest: &'a [String]) -> Option<(&'a str, Task<'a>)>
    ensures found { IfSome result (λ r. IsSpelled (name.now ∷ map string_bytes rest.now) (Over r.0.now (action_of r.1))) }
    ensures none { IfNone result ((job : _) → IsFurther job → IsSpelled (name.now ∷ map string_bytes rest.now) job → ⊥) }
{
    match name {
        "eval" => match over_values(rest) {
            Some((signature, words)) => Some((signature, Task::Eval(words))),
            None => None,
        },
        "make" => match of_kind(rest) {
            Some((signature, kind)) => Some((signature, Task::Make(kind))),
            None => None,
        },
        "compose" => match over_blif(rest) {
            Some((signature, words)) => Some((signature, Task::Compose(words))),
            None => None,
        },
        _ => certificate_task(name, rest),
    }
}

// The signature and the task of a command of certificates, or else of tables and isomorphisms, with these words behind its name.
fn certificate_task<'a>(name: &str, rest: &'a [String]) -> Option<(&'a str, Task<'a>)>
    ensures found { IfSome result (λ r. IsSpelled (name.now ∷ map string_bytes rest.now) (Over r.0.now (action_of r.1))) }
    ensures none { IfNone result ((job : _) → IsLater job → IsSpelled (name.now ∷ map string_bytes rest.now) job → ⊥) }
{
    match name {
        "certify" => match over_net(rest) {
            Some((signature, words)) => Some((signature, Task::Certify(words))),
            None => None,
        },
        "verify" => match over_certificate(rest) {
            Some((signature, words)) => Some((signature, Task::Verify(words))),
            None => None,
        },
        "upgrade" => match over_files(rest) {
            Some((signature, words)) => Some((signature, Task::Upgrade(words))),
            None => None,
        },
        _ => table_task(name, rest),
    }
}

// The signature and the task of a command of tables and isomorphisms with these words behind its name.
fn table_task<'a>(name: &str, rest: &'a [String]) -> Option<(&'a str, Task<'a>)>
    ensures found { IfSome result (λ r. IsSpelled (name.now ∷ map string_bytes rest.now) (Over r.0.now (action_of r.1))) }
    ensures none { IfNone result ((job : _) → IsOfTables job → IsSpelled (name.now ∷ map string_bytes rest.now) job → ⊥) }
{
    match name {
        "iso" => match over_file(rest) {
            Some((signature, other)) => Some((signature, Task::Iso(other))),
            None => None,
        },
        "lift" => match over_file(rest) {
            Some((signature, table)) => Some((signature, Task::Lift(table))),
            None => None,
        },
        "table" => match over_cycles(rest) {
            Some((signature, words)) => Some((signature, Task::Table(words))),
            None => None,
        },
        _ => None,
    }
}
