//! Simplified circuits.
ghost use Rattle.std.specs.Prelude.{◌≡◌, ◌<◌, ◌++◌, [], ℕ, Some, All, length, slice_get, IfOk, OnOk};
ghost use Rattle.lists.specs.Lists.{Has};
ghost use Rattle.net_core.specs.NetList.{nets};
ghost use Rattle.net_core.specs.Sound.{IsSound};
ghost use Rattle.net_words.specs.OneCycle.{IsOneCycle};
ghost use Rattle.net_simplify.specs.Circuit.{IsSimplifiedCircuit};
ghost use Rattle.net_simplify.specs.Simplified.{IsSimplifiedTwice};
ghost use Rattle.net_simplify.specs.private.Words.{nets_of};

use crate::rounds::simplified;
use circuit_model::output_nets;
use net_core::Net;
use net_words::{Bound, Combinational, rebind};
use std::alloc::{AllocError, Global};

// Adds the nets of word w.
fn add_word(binding: &Bound, w: u32, list: &mut Vec<u32>) -> Result<(), AllocError>
    requires word { w < length binding.now.words }
    requires named { All (λ word. length word.nets ≡ binding.now.k) binding.now.words }
    ensures { OnOk result ((word : _) → slice_get binding.now.words w ≡ Some word → list.new.items ≡ list.old.items ++ word.nets) }
{
    for place in 0..binding.k() {
        list.push(binding.net(w, place))?;
    }
    Ok(())
}

// The nets of all words, k of each.
fn word_nets(alloc: Global, binding: &Bound) -> Result<Vec<u32>, AllocError>
    requires { All (λ word. length word.nets ≡ binding.now.k) binding.now.words }
    ensures { IfOk result (λ list. list.items ≡ nets_of binding.now.words) }
{
    let mut list = Vec::new(alloc);
    for w in 0..binding.words() {
        add_word(binding, w, &mut list)?;
    }
    Ok(list)
}

// The net with these words.
fn with_words(alloc: Global, binding: &Bound, net: Net) -> Result<Combinational, AllocError>
    requires sound { IsSound net }
    requires bound { IsOneCycle net binding.now }
    ensures { IfOk result (λ circuit. circuit ≡ record { net = net; binding = binding.now }) }
{
    let list = word_nets(alloc, binding)?;
    let words = rebind(alloc, binding, &net, &list)?;
    match Combinational::new(net, words) {
        Ok(circuit) => Ok(circuit),
        Err(_) => unreachable!(),
    }
}

// The net, simplified twice for these ends.
fn simplified_twice(alloc: Global, net: &Net, ends: &[u32]) -> Result<Net, AllocError>
    requires flat { net.now.latches ≡ [] }
    requires ends { (n : ℕ) → Has ends.now n → n < nets net.now }
    ensures { IfOk result (λ simple. IsSimplifiedTwice ends.now net.now simple) }
{
    let between = simplified(alloc, net, ends)?;
    simplified(alloc, &between, ends)
}

/// The circuit whose net is simplified twice, for the nets of its output word, with the same words. It answers nothing but
/// this circuit, or runs out of memory.
pub fn simplify(alloc: Global, circuit: &Combinational) -> Result<Combinational, AllocError>
    ensures { IfOk result (λ simple. IsSimplifiedCircuit circuit.now simple) }
{
    let ends = output_nets(alloc, circuit.binding())?;
    let net = simplified_twice(alloc, circuit.net(), &ends)?;
    with_words(alloc, circuit.binding(), net)
}
