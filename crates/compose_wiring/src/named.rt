//! Words with their bases.
ghost use Rattle.std.specs.Prelude.{◌≡◌, ◌<◌, IfOk, Some, length, map, slice_get};
ghost use Rattle.gf_basis.specs.BasisParts.{elements_of};
ghost use Rattle.net_words.specs.Roles.{same_role};
ghost use Rattle.net_words.specs.declared.word.Role.TheVariants.{Output};
ghost use Rattle.compose_model.specs.NamedWord.{named_words};
ghost use Rattle.compose_wiring.specs.private.Words.{IsNamedAt};

use gf_basis::Basis;
use net_core::Name;
use net_words::{Role, WordText};
use std::alloc::{AllocError, Global};
use std::marker::Model;

/// A word with its basis. Contracts see its role, the names of its nets and the elements of its basis.
#[derive(Drop)]
pub(crate) struct Named<'a> {
    word: &'a WordText,
    basis: &'a Basis,
}

impl<'a> Model for Named<'a> {
    ghost use Rattle.gf_basis.specs.BasisParts.{elements_of};
    ghost use Rattle.compose_model.specs.NamedWord.{NamedWord};

    ghost Value = { NamedWord };

    ghost view = { λ named. record { role = named.word.now.role; nets = named.word.now.nets; basis = elements_of named.basis.now } };
}

impl<'a> Named<'a> {
    /// A word with a basis.
    pub fn new(word: &'a WordText, basis: &'a Basis) -> Named<'a>
        ensures { result ≡ record { role = word.now.role; nets = word.now.nets; basis = elements_of basis.now } }
    {
        Named { word, basis }
    }

    /// Whether it is an output word.
    pub fn is_output(&self) -> bool
        ensures { result ≡ same_role self.now.role Output }
    {
        match self.word.role {
            Role::Output => true,
            Role::Input | Role::State | Role::Fed => false,
        }
    }

    /// The names of its nets.
    pub fn nets(&self) -> &'a [Name]
        ensures { result.now ≡ self.now.nets }
    {
        self.word.nets.as_slice()
    }

    /// Its basis.
    pub fn basis(&self) -> &'a Basis
        ensures { elements_of result.now ≡ self.now.basis }
    {
        self.basis
    }
}

// The word of a place with its basis.
fn named_at<'a>(words: &'a [WordText], bases: &'a [Basis], place: usize) -> Named<'a>
    requires word { place < length words.now }
    requires basis { place < length bases.now }
    ensures { IsNamedAt words.now bases.now place result }
{
    Named::new(&words[place], &bases[place])
}

/// Words with one basis for each.
pub(crate) fn with_bases<'a>(
    alloc: Global,
    words: &'a [WordText],
    bases: &'a [Basis],
) -> Result<Vec<Named<'a>>, AllocError>
    requires { length bases.now ≡ length words.now }
    ensures { IfOk result (λ list. list.items ≡ named_words words.now (map elements_of bases.now)) }
{
    let mut list = Vec::new(alloc);
    for place in 0..words.len() {
        list.push(named_at(words, bases, place))?;
    }
    Ok(list)
}

/// The word of a place.
pub(crate) fn word_at<'b, 'a>(words: &'b [Named<'a>], place: usize) -> &'b Named<'a>
    requires { place < length words.now }
    ensures { slice_get words.now place ≡ Some result.now }
{
    &words[place]
}
