//! What may feed a word.
ghost use Rattle.std.specs.Prelude.{◌≡◌, IfOk, length, string_bytes};
ghost use Rattle.gf_basis.specs.BasisParts.{elements_of};
ghost use Rattle.compose_wiring.specs.private.Linked.{is_on, its_key, same_elements as are_same_elements};

use crate::key::key_of;
use crate::nets::Nets;
use compose_model::Feeder;
use gf_basis::Basis;
use std::alloc::{AllocError, Global};
use std::marker::Model;

/// An input word of a top, or the output word of an instance, with the nets of the top on which it stands, and its basis. Contracts
/// see these three.
#[derive(Drop)]
pub(crate) struct Candidate<'a> {
    feed: Feeder,
    nets: Nets<'a>,
    basis: &'a Basis,
}

impl<'a> Model for Candidate<'a> {
    ghost use Rattle.gf_basis.specs.BasisParts.{elements_of};
    ghost use Rattle.compose_wiring.specs.private.Plain.{CandidateValue};

    ghost Value = { CandidateValue };

    ghost view = { λ candidate. record { feed = candidate.feed; nets = candidate.nets; basis = elements_of candidate.basis.now } };
}

impl<'a> Candidate<'a> {
    /// What may feed, on these nets and with this basis.
    pub fn new(feed: Feeder, nets: Nets<'a>, basis: &'a Basis) -> Candidate<'a>
        ensures { result ≡ record { feed = feed; nets = nets.entry; basis = elements_of basis.now } }
    {
        Candidate { feed, nets, basis }
    }

    /// What feeds.
    pub fn feed(&self) -> Feeder
        ensures { result ≡ self.now.feed }
    {
        self.feed
    }

    /// The key of its nets and its basis, which has `size` elements.
    pub fn key(&self, alloc: Global, size: u32) -> Result<String, AllocError>
        requires { length self.now.basis ≡ size }
        ensures { IfOk result (λ key. string_bytes key ≡ its_key self.now) }
    {
        let key = key_of(alloc, &self.nets, self.basis, size)?;
        Ok(key)
    }

    /// Whether it stands on these nets and has the same basis, where both bases have `size` elements.
    pub fn is_on(&self, nets: &Nets<'_>, basis: &Basis, size: u32) -> bool
        requires own { length self.now.basis ≡ size }
        requires other { length (elements_of basis.now) ≡ size }
        ensures { result ≡ is_on nets.now (elements_of basis.now) self.now }
    {
        self.nets.is(nets) && same_elements(self.basis, basis, size)
    }
}

// Whether bases of so many elements are the same, place by place.
fn same_elements(a: &Basis, b: &Basis, size: u32) -> bool
    requires a { length (elements_of a.now) ≡ size }
    requires b { length (elements_of b.now) ≡ size }
    ensures { result ≡ are_same_elements (elements_of a.now) (elements_of b.now) }
{
    for place in 0..size {
        if a.element(place) != b.element(place) {
            return false;
        }
    }
    true
}
