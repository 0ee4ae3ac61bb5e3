//! Nets in one cycle, without latches and feeds, with their words.
ghost use Rattle.std.specs.Prelude.{◌≡◌, ◌<◌, [], length, IfOk, IsOk, ◌↔◌, IfErr, IsTrue, All};
ghost use Rattle.net_core.specs.NetList.{nets};
ghost use Rattle.net_core.specs.Sound.{IsSound};
ghost use Rattle.net_words.specs.OneCycle.{IsFlat, IsOneCycle};
ghost use Rattle.net_words.specs.Variables.{variables, IsRanked};

use crate::bound::Bound;
use net_core::Net;
use std::marker::Model;

/// A net without latches, with words that are bound to it: the bits of input, state and fed words are different primary
/// inputs, and the output word depends on them alone.
pub struct Combinational {
    net: Net,
    binding: Bound,
}

// By hand, so that a caller that lets one go makes one call, and not one for each part.
impl Drop for Combinational {
    fn drop(self) {
        let Combinational { net, binding } = self;
        drop(net);
        drop(binding);
    }
}

impl Model for Combinational {
    ghost use Rattle.net_core.specs.Sound.{IsSound};
    ghost use Rattle.net_words.specs.Binding.{BoundNet};
    ghost use Rattle.net_words.specs.OneCycle.{IsOneCycle};

    ghost Value = { BoundNet };

    ghost view = { λ circuit. record { net = circuit.net; binding = circuit.binding } };

    ghost invariant = { λ circuit. IsSound circuit.net × IsOneCycle circuit.net circuit.binding };
}

impl Combinational {
    /// A net with its words, where nothing is left to unroll; both are handed back where the net has latches, the binding
    /// has a feed, or a fed word has no nets. Where none of these holds, the binding is of this net, and no chain of gates
    /// leads from a primary input in no word to a bit of the output word. That the net is sound is said once more.
    pub fn new(net: Net, binding: Bound) -> Result<Combinational, (Net, Bound)>
        requires { IsFlat net binding → IsOneCycle net binding }
        ensures made { IfOk result (λ circuit. circuit ≡ record { net = net; binding = binding }) }
        ensures flat { IsOk result ↔ IsFlat net binding }
        ensures back { IfErr result (λ pair. (pair.0 ≡ net) × (pair.1 ≡ binding)) }
        ensures sound { IsSound net }
    {
        if is_flat(&net, &binding) {
            Ok(Combinational { net, binding })
        } else {
            Err((net, binding))
        }
    }

    /// The net.
    pub fn net(&self) -> &Net
        ensures net { result.now ≡ self.now.net }
        ensures flat { self.now.net.latches ≡ [] }
        ensures sound { IsSound self.now.net }
        ensures is_bound { IsOneCycle self.now.net self.now.binding }
    {
        &self.net
    }

    /// The words.
    pub fn binding(&self) -> &Bound
        ensures binding { result.now ≡ self.now.binding }
        ensures flat { self.now.net.latches ≡ [] }
        ensures sound { IsSound self.now.net }
        ensures is_bound { IsOneCycle self.now.net self.now.binding }
    {
        &self.binding
    }

    /// The place of a net in the order of variables after the words: the bits of the input, state and fed words in
    /// signature order and by place, and then the other nets by number.
    pub fn rank_of(&self, net: u32) -> u32
        ensures ranked { net < nets self.now.net → IsRanked (variables (nets self.now.net) self.now.binding.words) result net }
        ensures within { net < nets self.now.net → result < nets self.now.net }
        ensures is_bound { IsOneCycle self.now.net self.now.binding }
    {
        self.binding.rank_of(net)
    }

    /// The net at a place in the order of variables after the words.
    pub fn net_of(&self, rank: u32) -> u32
        ensures ranked { rank < length (variables (nets self.now.net) self.now.binding.words) → IsRanked (variables (nets self.now.net) self.now.binding.words) rank result }
        ensures within { rank < nets self.now.net → result < nets self.now.net }
    {
        self.binding.net_of(rank)
    }
}

// Whether nothing is left to unroll; and that the net is sound.
fn is_flat(net: &Net, binding: &Bound) -> bool
    ensures flat { IsTrue result ↔ IsFlat net.now binding.now }
    ensures sound { IsSound net.now }
{
    net.latches().is_empty() && binding.feeds().is_empty() && have_nets(binding)
}

// Whether each word has nets.
fn have_nets(binding: &Bound) -> bool
    ensures { IsTrue result ↔ All (λ word. length word.nets ≡ binding.now.k) binding.now.words }
{
    for w in 0..binding.words() {
        if !binding.has_nets(w) {
            return false;
        }
    }
    true
}
