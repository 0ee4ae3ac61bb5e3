//! What the cycles of a net are laid out by.
ghost use Rattle.std.specs.Prelude.{◌≡◌, ◌<◌, ◌≤◌, ◌+◌};
ghost use Rattle.lists.specs.Limits.{most_nets};
ghost use Rattle.net_core.specs.NetList.{nets};
ghost use Rattle.net_core.specs.Sound.{IsSound};
ghost use Rattle.net_words.specs.Feeds.{is_fed as is_fed_net};
ghost use Rattle.net_words.specs.Roles.{in_word};
ghost use Rattle.net_words.specs.declared.word.Role.TheVariants.{State};
ghost use Rattle.unroll.specs.Gates.{bit_net as bit_net_of};
ghost use Rattle.unroll.specs.Places.{net_at as net_at_of};
ghost use Rattle.unroll.specs.Sources.{source_at};
ghost use Rattle.unroll.specs.private.Plan.{AreFirstBits, AreMarks, AreSources, IsBit, net_count};

use net_core::Net;
use net_words::{Bound, Source};

/// A net with its words, how many cycles follow the first, which nets are fed and which are in state words, what the fed nets
/// hold in each cycle, and where the bits of the fed words begin.
pub struct Plan {
    pub net: Net,
    pub binding: Bound,
    pub cycles: u32,
    pub fed: Vec<bool>,
    pub held: Vec<bool>,
    pub sources: Vec<Source>,
    pub firsts: Vec<u32>,
    ghost sound: { IsSound net },
    ghost short: { cycles ≤ 4096 },
    ghost few: { net_count net binding cycles ≤ most_nets },
    ghost are_fed: { AreMarks (nets net) (is_fed_net binding.feeds) fed.items },
    ghost are_held: { AreMarks (nets net) (in_word State binding.words) held.items },
    ghost are_sources: { AreSources net binding cycles sources.items },
    ghost are_firsts: { AreFirstBits net binding cycles firsts.items },
}

// By hand, so that a caller that lets one go makes one call, and not one for each part.
impl Drop for Plan {
    fn drop(self) {
        let Plan {
            net,
            binding,
            cycles: _,
            fed,
            held,
            sources,
            firsts,
        } = self;
        drop(net);
        drop(binding);
        drop(fed);
        drop(held);
        drop(sources);
        drop(firsts);
    }
}

impl Plan {
    /// The number of net n of cycle t.
    pub fn net_at(&self, t: u32, n: u32) -> u32
        requires cycle { t ≤ self.now.cycles }
        requires net { n < nets self.now.net }
        ensures number { result ≡ net_at_of (nets self.now.net) t n }
        ensures within { result < net_count self.now.net self.now.binding self.now.cycles }
    {
        t * self.net.nets() + n
    }

    /// Whether the net is fed.
    pub fn is_fed(&self, n: u32) -> bool
        requires { n < nets self.now.net }
        ensures { result ≡ is_fed_net self.now.binding.feeds n }
    {
        self.fed[n as usize]
    }

    /// Whether the net is in a state word.
    pub fn is_held(&self, n: u32) -> bool
        requires { n < nets self.now.net }
        ensures { result ≡ in_word State self.now.binding.words n }
    {
        self.held[n as usize]
    }

    /// What a fed net holds in cycle t.
    pub fn source(&self, t: u32, n: u32) -> Source
        requires cycle { t ≤ self.now.cycles }
        requires net { n < nets self.now.net }
        ensures { result ≡ source_at self.now.binding.feeds n t }
    {
        self.sources[self.net_at(t, n) as usize]
    }

    /// The net of a bit of a fed word.
    pub fn bit_net(&self, word: u32, place: u32) -> u32
        requires { IsBit self.now.binding word place }
        ensures number { result ≡ bit_net_of self.now.net self.now.binding self.now.cycles word place }
        ensures within { result < net_count self.now.net self.now.binding self.now.cycles }
    {
        self.firsts[word as usize] + place
    }
}
