//! The numbers of the nets of a signature's words.
ghost use Rattle.std.specs.Prelude.{◌≡◌, ◌<◌, ◌+◌, ◌^◌, [], ◌∷◌, ◌++◌, IfOk, OnOk, length, if◌then◌else◌};
ghost use Rattle.std.specs.List.{range_with_len};
ghost use Rattle.net_words.specs.Roles.{same_role};
ghost use Rattle.make_nets.specs.Ports.{role_nets as nets_of_role, starts_of, word_names};

use net_words::{Role, WordText};
use std::alloc::{AllocError, Global};

// Whether two roles are one.
pub(crate) fn is_same(role: Role, other: Role) -> bool
    ensures { result ≡ same_role role other }
{
    match (role, other) {
        (Role::Input, Role::Input) => true,
        (Role::State, Role::State) => true,
        (Role::Fed, Role::Fed) => true,
        (Role::Output, Role::Output) => true,
        _ => false,
    }
}

/// How many nets the words have in all.
pub fn count_of(words: &[WordText]) -> u32
    requires { length (word_names words.now) < 2 ^ 32 }
    ensures { result ≡ length (word_names words.now) }
{
    let mut count = 0;
    for word in words {
        count += word.nets.as_slice().len() as u32;
    }
    count
}

// Adds the number of the first net of a word, if the word has the role.
fn push_start(list: &mut Vec<u32>, word: &WordText, role: Role, from: u32) -> Result<(), AllocError>
    ensures { OnOk result (list.new.items ≡ list.old.items ++ (if same_role word.now.role role then from ∷ [] else [])) }
{
    if is_same(word.role, role) {
        list.push(from)?;
    }
    Ok(())
}

/// The number of the first net of each word with a role, in the order of the words.
pub fn starts(alloc: Global, words: &[WordText], role: Role) -> Result<Vec<u32>, AllocError>
    requires { length (word_names words.now) < 2 ^ 32 }
    ensures { IfOk result (λ list. list.items ≡ starts_of role 0 words.now) }
{
    let mut list = Vec::new(alloc);
    let mut count = 0;
    for word in words {
        push_start(&mut list, word, role, count)?;
        count += word.nets.as_slice().len() as u32;
    }
    Ok(list)
}

// Adds numbers that rise by one.
pub(crate) fn push_range(list: &mut Vec<u32>, from: u32, count: usize) -> Result<(), AllocError>
    requires { from + count < 2 ^ 32 }
    ensures { OnOk result (list.new.items ≡ list.old.items ++ range_with_len from count) }
{
    for i in 0..count {
        list.push(from + i as u32)?;
    }
    Ok(())
}

// Adds the numbers of the nets of a word, if the word has the role.
fn push_nets(list: &mut Vec<u32>, word: &WordText, role: Role, from: u32) -> Result<(), AllocError>
    requires { from + length word.now.nets < 2 ^ 32 }
    ensures { OnOk result (list.new.items ≡ list.old.items ++ (if same_role word.now.role role then range_with_len from (length word.now.nets) else [])) }
{
    if is_same(word.role, role) {
        push_range(list, from, word.nets.as_slice().len())?;
    }
    Ok(())
}

/// The numbers of the nets of the words with a role, word by word and by place.
pub fn role_nets(alloc: Global, words: &[WordText], role: Role) -> Result<Vec<u32>, AllocError>
    requires { length (word_names words.now) < 2 ^ 32 }
    ensures { IfOk result (λ list. list.items ≡ nets_of_role role 0 words.now) }
{
    let mut list = Vec::new(alloc);
    let mut count = 0;
    for word in words {
        push_nets(&mut list, word, role, count)?;
        count += word.nets.as_slice().len() as u32;
    }
    Ok(list)
}
