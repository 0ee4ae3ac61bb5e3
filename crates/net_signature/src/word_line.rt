//! The line of a word.
ghost use Rattle.std.specs.Prelude.{◌≡◌, ◌∷◌, ◌↔◌, map, codes, All, IsTrue, IfSome, IfNone};
ghost use Rattle.text_core.specs.Names.{IsName};
ghost use Rattle.net_signature.specs.Statement.{SaysRole, SaysWord, IsNetToken, IsNetCount};
ghost use Rattle.net_signature.specs.Outcomes.{OrSyntax};
ghost use Rattle.net_signature.specs.Reading.{Fits};

use crate::basis::read_basis;
use crate::fault::SigFault;
use crate::token::is_token;
use net_core::{Name, Names};
use net_words::{Role, WordText};
use std::alloc::Global;
use text_core::{is_name, plain_text};

/// The word of a line `word NAME ROLE BASIS NET NET ..`, of which these tokens stand behind `word`.
pub fn read_word(alloc: Global, line: u32, tokens: &[&[u8]]) -> Result<WordText, SigFault>
    ensures { Fits (λ word. word) result (OrSyntax line (λ word. SaysWord (codes "word" ∷ map (λ t. t.now) tokens.now) word × (word.line ≡ line))) }
{
    match tokens {
        [name, role, basis, nets @ ..] => word_of(alloc, line, name, role, basis, nets),
        _ => Err(SigFault::Syntax { line }),
    }
}

// The word of a line of these tokens.
fn word_of(
    alloc: Global,
    line: u32,
    name: &[u8],
    role: &[u8],
    basis: &[u8],
    nets: &[&[u8]],
) -> Result<WordText, SigFault>
    ensures { Fits (λ word. word) result (OrSyntax line (λ word. SaysWord (codes "word" ∷ name.now ∷ role.now ∷ basis.now ∷ map (λ t. t.now) nets.now) word × (word.line ≡ line))) }
{
    let (Some(name), Some(role)) = (word_name(name), role_of(role)) else {
        return Err(SigFault::Syntax { line });
    };
    if !is_net_count(role, nets.len()) {
        return Err(SigFault::Syntax { line });
    }
    let name = Name::new(alloc, name)?;
    let basis = match read_basis(alloc, line, basis) {
        Ok(basis) => basis,
        Err(fault) => return Err(fault),
    };
    let nets = match net_names(alloc, line, nets) {
        Ok(nets) => nets,
        Err(fault) => return Err(fault),
    };
    Ok(WordText {
        line,
        name,
        role,
        basis,
        nets,
    })
}

/// The text of a token that is the name of a word.
pub fn word_name(token: &[u8]) -> Option<&str>
    ensures found { IfSome result (λ text. (text.now ≡ token.now) × IsName token.now) }
    ensures none { IfNone result (IsName token.now → ⊥) }
{
    if is_name(token) {
        plain_text(token)
    } else {
        None
    }
}

// The role that a token names.
fn role_of(token: &[u8]) -> Option<Role>
    ensures found { IfSome result (λ role. SaysRole token.now role) }
    ensures none { IfNone result ((role : _) → SaysRole token.now role → ⊥) }
{
    if is_token(token, b"input") {
        Some(Role::Input)
    } else if is_token(token, b"state") {
        Some(Role::State)
    } else if is_token(token, b"fed") {
        Some(Role::Fed)
    } else if is_token(token, b"output") {
        Some(Role::Output)
    } else {
        None
    }
}

// Whether a word with this role may have so many nets.
fn is_net_count(role: Role, count: usize) -> bool
    ensures { IsTrue result ↔ IsNetCount role count }
{
    match role {
        Role::Input | Role::State | Role::Output => count > 0,
        Role::Fed => count == 0,
    }
}

// The names of nets at a line.
fn net_names(alloc: Global, number: u32, tokens: &[&[u8]]) -> Result<Names, SigFault>
    ensures { Fits (λ names. names) result (OrSyntax number (λ names. (names ≡ map (λ t. t.now) tokens.now) × All IsNetToken names)) }
{
    let mut names = Vec::new(alloc);
    for token in tokens {
        let Some(name) = net_name(token) else {
            return Err(SigFault::Syntax { line: number });
        };
        names.push(Name::new(alloc, name)?)?;
    }
    Ok(Names::new(names))
}

/// The name of a net or of a model, as a token says it.
pub fn net_name(token: &[u8]) -> Option<&str>
    ensures found { IfSome result (λ name. (name.now ≡ token.now) × IsNetToken token.now) }
    ensures none { IfNone result (IsNetToken token.now → ⊥) }
{
    if token.len() <= 255 {
        plain_text(token)
    } else {
        None
    }
}
