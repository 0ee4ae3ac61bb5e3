//! The nets of words.
ghost use Rattle.std.specs.Prelude.{◌≡◌, ◌<◌, ◌++◌, Some, length, slice_get, slice_index, IfOk, OnOk};
ghost use Rattle.net_core.specs.NetList.{nets};
ghost use Rattle.net_words.specs.Binding.{IsBinding};
ghost use Rattle.net_words.specs.BoundTo.{IsBoundTo};
ghost use Rattle.unroll.specs.Unrolled.{unrolled_nets, nets_of_word};
ghost use Rattle.unroll.specs.private.Plan.{OfWord};

use crate::plan::Plan;
use net_words::{Bound, Role};
use std::alloc::{AllocError, Global};

/// The nets of word w, below the number of words.
pub fn nets_of(alloc: Global, binding: &Bound, w: u32) -> Result<Vec<u32>, AllocError>
    requires binding { IsBinding binding.now }
    requires word { w < length binding.now.words }
    ensures { IfOk result (λ list. (word : _) → slice_get binding.now.words w ≡ Some word → list.items ≡ word.nets) }
{
    let mut list = Vec::new(alloc);
    if !binding.has_nets(w) {
        return Ok(list);
    }
    for place in 0..binding.k() {
        list.push(binding.net(w, place))?;
    }
    Ok(list)
}

impl Plan {
    // The net of a place, below k, of word w, below the number of words, in the unrolled net.
    fn place_net(&self, w: u32, place: u32) -> u32
        requires binding { IsBoundTo self.now.net self.now.binding }
        requires word { w < length self.now.binding.words }
        requires place { place < self.now.binding.k }
        ensures { (word : _) → slice_get self.now.binding.words w ≡ Some word → result ≡ slice_index (nets_of_word self.now.net self.now.binding self.now.cycles w word) place }
    {
        match self.binding.role(w) {
            Role::Fed => self.bit_net(w, place),
            Role::Input | Role::State => self.binding.net(w, place),
            Role::Output => self.net_at(self.cycles, self.binding.net(w, place)),
        }
    }

    // Adds the nets of word w, below the number of words, in the unrolled net.
    fn add_word_nets(&self, list: &mut Vec<u32>, w: u32) -> Result<(), AllocError>
        requires binding { IsBoundTo self.now.net self.now.binding }
        requires word { w < length self.now.binding.words }
        ensures { OnOk result (OfWord self.now.binding w (λ word. list.new.items ≡ list.old.items ++ nets_of_word self.now.net self.now.binding self.now.cycles w word)) }
    {
        for place in 0..self.binding.k() {
            list.push(self.place_net(w, place))?;
        }
        Ok(())
    }

    /// The nets of all words in the unrolled net, k for each word.
    pub fn word_nets(&self, alloc: Global) -> Result<Vec<u32>, AllocError>
        requires { IsBoundTo self.now.net self.now.binding }
        ensures { IfOk result (λ list. list.items ≡ unrolled_nets self.now.net self.now.binding self.now.cycles) }
    {
        let mut list = Vec::new(alloc);
        for w in 0..self.binding.words() {
            self.add_word_nets(&mut list, w)?;
        }
        Ok(list)
    }
}
