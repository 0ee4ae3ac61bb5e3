//! Words that are bound to nets.
ghost use Rattle.std.specs.Prelude.{◌≡◌, ◌<◌, ◌↔◌, IsTrue, length, slice_index, slice_get, Some};
ghost use Rattle.net_words.specs.Binding.{IsBinding};
ghost use Rattle.net_words.specs.Variables.{variables, IsRanked, IsOrdered};

use crate::feed::Feed;
use crate::word::Role;
use net_core::{Name, Numbers};
use std::marker::Model;

/// A word that is bound to nets.
#[derive(Drop)]
pub struct BoundWord {
    /// Its name, of 1 to 255 bytes.
    pub name: Name,
    /// What it is to the net list.
    pub role: Role,
    /// The numbers of its 1 to 64 nets, place 0 first; none where a fed word has none.
    pub nets: Numbers<u32>,
}

/// Words that are bound to the nets of a netlist.
pub struct Bound {
    k: u32,
    words: Vec<BoundWord>,
    feeds: Vec<Feed>,
    // How many nets the netlist has.
    nets: u32,
    // The nets in the order of variables.
    order: Vec<u32>,
    // The place of each net in this order.
    ranks: Vec<u32>,
}

// By hand, so that a caller that lets one go makes one call, and not one for each part.
impl Drop for Bound {
    fn drop(self) {
        let Bound {
            k: _,
            words,
            feeds,
            nets: _,
            order,
            ranks,
        } = self;
        drop(words);
        drop(feeds);
        drop(order);
        drop(ranks);
    }
}

impl Model for Bound {
    ghost use Rattle.net_words.specs.Binding.{Binding, IsBinding};
    ghost use Rattle.net_words.specs.Variables.{IsOrdered};

    ghost Value = { Binding };

    ghost view = { λ bound. record { k = bound.k; words = bound.words.items; feeds = bound.feeds.items; nets = bound.nets } };

    ghost invariant = { λ bound. IsBinding (record { k = bound.k; words = bound.words.items; feeds = bound.feeds.items; nets = bound.nets }) × IsOrdered bound.nets bound.words.items bound.order.items bound.ranks.items };
}

impl Bound {
    // A binding of these words, of which each has k nets, to so many nets, with their order.
    pub(crate) fn of_parts(
        k: u32,
        words: Vec<BoundWord>,
        feeds: Vec<Feed>,
        nets: u32,
        order: Vec<u32>,
        ranks: Vec<u32>,
    ) -> Bound
        requires parts { IsBinding (record { k = k; words = words.items; feeds = feeds.items; nets = nets }) }
        requires order { IsOrdered nets words.items order.items ranks.items }
        ensures { result ≡ record { k = k; words = words.items; feeds = feeds.items; nets = nets } }
    {
        Bound {
            k,
            words,
            feeds,
            nets,
            order,
            ranks,
        }
    }

    /// How many words there are.
    pub fn words(&self) -> u32
        ensures count { result ≡ length self.now.words }
        ensures is_binding { IsBinding self.now }
    {
        self.words.len() as u32
    }

    /// How many bits each word has, 1 to 64.
    pub fn k(&self) -> u32
        ensures bits { result ≡ self.now.k }
        ensures is_binding { IsBinding self.now }
    {
        self.k
    }

    /// What word w, below the number of words, is to the netlist.
    pub fn role(&self, w: u32) -> Role
        requires { w < length self.now.words }
        ensures { (word : _) → slice_get self.now.words w ≡ Some word → result ≡ word.role }
    {
        self.words[w as usize].role
    }

    /// The name of word w, below the number of words.
    pub fn name(&self, w: u32) -> &str
        requires { w < length self.now.words }
        ensures { (word : _) → slice_get self.now.words w ≡ Some word → result.now ≡ word.name }
    {
        self.words[w as usize].name.as_str()
    }

    /// What is fed, in the order of the lines.
    pub fn feeds(&self) -> &[Feed]
        ensures { result.now ≡ self.now.feeds }
    {
        &self.feeds
    }

    /// Whether word w, below the number of words, has nets: a fed word may have none.
    pub fn has_nets(&self, w: u32) -> bool
        requires { w < length self.now.words }
        ensures { (word : _) → slice_get self.now.words w ≡ Some word → IsTrue result ↔ (length word.nets ≡ self.now.k) }
    {
        self.words[w as usize].nets.as_slice().len() > 0
    }

    /// The net of a place, below k, of word w, below the number of words, which has nets.
    pub fn net(&self, w: u32, place: u32) -> u32
        requires word { w < length self.now.words }
        requires place { place < self.now.k }
        requires nets { (word : _) → slice_get self.now.words w ≡ Some word → length word.nets ≡ self.now.k }
        ensures { (word : _) → slice_get self.now.words w ≡ Some word → result ≡ slice_index word.nets place }
    {
        self.words[w as usize].nets.as_slice()[place as usize]
    }

    // The nets of word w, below the number of words.
    pub(crate) fn nets(&self, w: u32) -> &[u32]
        requires { w < length self.now.words }
        ensures { (word : _) → slice_get self.now.words w ≡ Some word → result.now ≡ word.nets }
    {
        self.words[w as usize].nets.as_slice()
    }

    // The place of a net in the order of variables after the words.
    pub(crate) fn rank_of(&self, net: u32) -> u32
        ensures { net < self.now.nets → IsRanked (variables self.now.nets self.now.words) result net }
    {
        let place = net as usize;
        if place < self.ranks.len() {
            self.ranks[place]
        } else {
            net
        }
    }

    // The net at a place in the order of variables after the words.
    pub(crate) fn net_of(&self, rank: u32) -> u32
        ensures { rank < length (variables self.now.nets self.now.words) → IsRanked (variables self.now.nets self.now.words) rank result }
    {
        let place = rank as usize;
        if place < self.order.len() {
            self.order[place]
        } else {
            rank
        }
    }
}
