//! What may feed words, found by the keys of their nets and bases.
ghost use Rattle.std.specs.Prelude.{◌≡◌, ◌<◌, ◌≤◌, ℕ, IfNone, IfOk, IfSome, Some, length, slice_get, true};
ghost use Rattle.lists.specs.Lists.{Has};
ghost use Rattle.compose_model.specs.declared.feeder.Feeder.{Feeder as FeederValue};
ghost use Rattle.net_blif.specs.Table.{numbers_in};
ghost use Rattle.gf_basis.specs.BasisParts.{elements_of};
ghost use Rattle.compose_wiring.specs.private.Keys.{key_of as key_by};
ghost use Rattle.compose_wiring.specs.private.Linked.{first_from, is_on, AreLinked, LeadOn};
ghost use Rattle.compose_wiring.specs.private.Plain.{CandidateValue, HaveSize, IsFirstOn};

use crate::candidate::Candidate;
use crate::key::key_of;
use crate::named::Named;
use crate::nets::Nets;
use compose_model::Feeder;
use gf_basis::Basis;
use net_blif::Table;
use std::alloc::{AllocError, Global};
use std::marker::Model;

/// What may feed words. Contracts see the list of it. A table has the first candidate of each key, and each candidate leads to
/// the next one with the same key. Words with one key stand on the same nets and have the same basis, as no name has a space, so
/// the first one is the one looked for, and a search takes what the word is long; the proofs do without that.
pub(crate) struct Candidates<'a> {
    list: Vec<Candidate<'a>>,
    firsts: Table,
    next: Vec<Option<u32>>,
}

// By hand, so that a caller that lets one go makes one call, and not one for each part.
impl<'a> Drop for Candidates<'a> {
    fn drop(self) {
        let Candidates { list, firsts, next } = self;
        drop(list);
        drop(firsts);
        drop(next);
    }
}

impl<'a> Model for Candidates<'a> {
    ghost use Rattle.std.specs.Prelude.{List};
    ghost use Rattle.net_blif.specs.Table.{numbers_in};
    ghost use Rattle.compose_wiring.specs.private.Linked.{AreLinked};
    ghost use Rattle.compose_wiring.specs.private.Plain.{CandidateValue};

    ghost Value = { List CandidateValue };

    ghost view = { λ candidates. candidates.list.items };

    ghost invariant = { λ candidates. AreLinked candidates.list.items (numbers_in candidates.firsts) candidates.next.items };
}

impl<'a> Candidates<'a> {
    /// These candidates, whose bases have `size` elements. The keys of words are hashed with `key`.
    pub fn new(
        alloc: Global,
        key: u64,
        list: Vec<Candidate<'a>>,
        size: u32,
    ) -> Result<Candidates<'a>, AllocError>
        requires { HaveSize size list.items }
        ensures { IfOk result (λ candidates. candidates ≡ list.entry.items) }
    {
        let (firsts, next) = linked(alloc, key, &list, size)?;
        Ok(Candidates { list, firsts, next })
    }

    /// The first candidate on these nets and with this basis; none exactly where there is none. All bases have `size` elements.
    pub fn find(
        &self,
        alloc: Global,
        nets: &Nets<'_>,
        basis: &Basis,
        size: u32,
    ) -> Result<Option<Feeder>, AllocError>
        requires own { HaveSize size self.now }
        requires other { length (elements_of basis.now) ≡ size }
        ensures some { IfOk result (λ r. IfSome r (λ feed. IsFirstOn self.now nets.now (elements_of basis.now) feed)) }
        ensures none { IfOk result (λ r. IfNone r ((c : CandidateValue) → Has self.now c → is_on nets.now (elements_of basis.now) c ≡ true → ⊥)) }
    {
        let key = key_of(alloc, nets, basis, size)?;
        let first = self.firsts.get(key.as_str());
        Ok(find(&self.list, first, &self.next, nets, basis, size))
    }

    /// The first that feeds a word that stands on these nets; none exactly where nothing does.
    pub fn feed_for(
        &self,
        alloc: Global,
        nets: &Nets<'_>,
        word: &Named<'_>,
    ) -> Result<Option<Feeder>, AllocError>
        requires { (k : ℕ) × (k ≤ 64) × (length word.now.nets ≡ k) × (length word.now.basis ≡ k) × HaveSize k self.now }
        ensures some { IfOk result (λ r. IfSome r (λ feed. IsFirstOn self.now nets.now word.now.basis feed)) }
        ensures none { IfOk result (λ r. IfNone r ((feed : FeederValue) → Has self.now (record { feed = feed; nets = nets.now; basis = word.now.basis }) → ⊥)) }
    {
        let feed = self.find(alloc, nets, word.basis(), word.nets().len() as u32)?;
        Ok(feed)
    }
}

// The candidate of a place.
fn candidate_at<'b, 'a>(list: &'b [Candidate<'a>], place: u32) -> &'b Candidate<'a>
    requires { place < length list.now }
    ensures { slice_get list.now place ≡ Some result.now }
{
    &list[place as usize]
}

// The first candidate of each key, and for each candidate the next one of the same key.
fn linked(
    alloc: Global,
    key: u64,
    list: &[Candidate<'_>],
    size: u32,
) -> Result<(Table, Vec<Option<u32>>), AllocError>
    requires { HaveSize size list.now }
    ensures { IfOk result (λ r. AreLinked list.now (numbers_in r.0) r.1.items) }
{
    // the candidates are in memory, so their count is below 2^32
    let Ok(count) = u32::try_from(list.len()) else {
        return Err(AllocError);
    };
    let mut firsts = Table::new(alloc, key);
    let mut next = vec![in alloc; None; list.len()]?;
    for place in (0..count).rev() {
        let text = candidate_at(list, place).key(alloc, size)?;
        next[place as usize] = firsts.get(text.as_str());
        firsts.insert(text.as_str(), place)?;
    }
    Ok((firsts, next))
}

// The first candidate on these nets and with this basis, from the first of their key on; none exactly where there is none.
fn find(
    list: &[Candidate<'_>],
    first: Option<u32>,
    next: &[Option<u32>],
    nets: &Nets<'_>,
    basis: &Basis,
    size: u32,
) -> Option<Feeder>
    requires first { first ≡ first_from 0 list.now (key_by nets.now (elements_of basis.now)) }
    requires leads { LeadOn 0 list.now next.now }
    requires own { HaveSize size list.now }
    requires other { length (elements_of basis.now) ≡ size }
    ensures some { IfSome result (λ feed. IsFirstOn list.now nets.now (elements_of basis.now) feed) }
    ensures none { IfNone result ((c : CandidateValue) → Has list.now c → is_on nets.now (elements_of basis.now) c ≡ true → ⊥) }
{
    let mut at = first;
    while let Some(place) = at {
        let candidate = candidate_at(list, place);
        if candidate.is_on(nets, basis, size) {
            return Some(candidate.feed());
        }
        at = next[place as usize];
    }
    None
}
