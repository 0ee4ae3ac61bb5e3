//! Two input words and an output word.
ghost use Rattle.std.specs.Prelude.{◌≡◌, ◌++◌, IfOk};
ghost use Rattle.std.specs.Fmt.{decimal};
ghost use Rattle.make_trial.specs.TwoInputs.{lettered, net_names, two_inputs as signature_of_two, words_of_two};

use net_core::{Name, Names, Numbers};
use net_signature::Signature;
use net_words::{BasisText, Role, WordText};
use std::alloc::{AllocError, Global};

/// The signature of the field of this modulus, bit i of which is the coefficient of x^i, with input words A and B and an output
/// word Z of k nets each: a0 .., b0 .. and z0 ... It answers nothing but the signature, or runs out of memory.
pub fn two_inputs(alloc: Global, k: u32, modulus: u128) -> Result<Signature, AllocError>
    ensures { IfOk result (λ signature. signature ≡ signature_of_two k modulus) }
{
    let words = words_of(alloc, k)?;
    let tower = Numbers::new(Vec::new(alloc));
    let upper = Numbers::new(Vec::new(alloc));
    Ok(Signature::of_parts(
        modulus,
        tower,
        upper,
        words,
        Vec::new(alloc),
        Vec::new(alloc),
    ))
}

// Its words.
fn words_of(alloc: Global, k: u32) -> Result<Vec<WordText>, AllocError>
    ensures { IfOk result (λ words. words.items ≡ words_of_two k) }
{
    let mut words = Vec::new(alloc);
    words.push(word(alloc, 3, "A", Role::Input, "a", k)?)?;
    words.push(word(alloc, 4, "B", Role::Input, "b", k)?)?;
    words.push(word(alloc, 5, "Z", Role::Output, "z", k)?)?;
    Ok(words)
}

// A word in the basis of powers.
fn word(
    alloc: Global,
    line: u32,
    name: &str,
    role: Role,
    letter: &str,
    k: u32,
) -> Result<WordText, AllocError>
    ensures { IfOk result (λ word. word ≡ lettered line name.now role letter.now k) }
{
    let name = Name::new(alloc, name)?;
    let nets = names_of(alloc, letter, k)?;
    Ok(WordText {
        line,
        name,
        role,
        basis: BasisText::Poly,
        nets,
    })
}

// The name of a net.
fn net_name(alloc: Global, letter: &str, i: u32) -> Result<Name, AllocError>
    ensures { IfOk result (λ name. name ≡ letter.now ++ decimal i) }
{
    let name = format!(in alloc; "{letter}{i}")?;
    Name::new(alloc, name.as_str())
}

// The names of k nets.
fn names_of(alloc: Global, letter: &str, k: u32) -> Result<Names, AllocError>
    ensures { IfOk result (λ names. names ≡ net_names letter.now k) }
{
    let mut names = Vec::new(alloc);
    for i in 0..k {
        names.push(net_name(alloc, letter, i)?)?;
    }
    Ok(Names::new(names))
}
