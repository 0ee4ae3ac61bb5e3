//! The words of a binding on other nets.
ghost use Rattle.std.specs.Prelude.{◌≡◌, ◌<◌, ◌≤◌, ◌*◌, Some, length, take, drop, slice_get, IfOk};
ghost use Rattle.net_words.specs.OneCycle.{IsClosed, IsFlat, IsOneCycle};
ghost use Rattle.net_words.specs.Rebind.{AreNets, rebinding, rebound};

use crate::bound::{Bound, BoundWord};
use crate::order::ordered;
use net_core::{Name, Net, Numbers};
use std::alloc::{AllocError, Global};

/// The binding of a net without latches with the words of another binding, in which place i of word w is the net
/// `nets[k * w + i]`. There are k numbers for each word; those of the input, state and fed words are different primary
/// inputs, and the others exist. It has no feed, and a fed word gets its nets.
pub fn rebind(alloc: Global, binding: &Bound, net: &Net, nets: &[u32]) -> Result<Bound, AllocError>
    requires { AreNets net.now binding.now nets.now }
    ensures rebound { IfOk result (λ made. made ≡ rebinding net.now binding.now nets.now) }
    ensures flat { IfOk result (λ made. IsFlat net.now made) }
    ensures one_cycle { IfOk result (λ made. IsClosed net.now made.words → IsOneCycle net.now made) }
{
    let words = rebound_words(alloc, binding, nets)?;
    let made = ordered(alloc, binding.k(), words, Vec::new(alloc), net)?;
    Ok(made)
}

// The words with these nets, k for each word.
fn rebound_words(alloc: Global, binding: &Bound, nets: &[u32]) -> Result<Vec<BoundWord>, AllocError>
    requires { length nets.now ≡ binding.now.k * length binding.now.words }
    ensures { IfOk result (λ words. words.items ≡ rebound binding.now.k binding.now.words nets.now) }
{
    let mut words = Vec::new(alloc);
    for w in 0..binding.words() {
        words.push(rebound_word(alloc, binding, w, nets)?)?;
    }
    Ok(words)
}

// Word w with its nets among these.
fn rebound_word(
    alloc: Global,
    binding: &Bound,
    w: u32,
    nets: &[u32],
) -> Result<BoundWord, AllocError>
    requires long { length nets.now ≡ binding.now.k * length binding.now.words }
    requires word { w < length binding.now.words }
    ensures { IfOk result (λ made. (word : _) → slice_get binding.now.words w ≡ Some word → made ≡ record { name = word.name; role = word.role; nets = take binding.now.k (drop (binding.now.k * w) nets.now) }) }
{
    let nets = part(
        nets,
        binding.k() as usize,
        w as usize,
        binding.words() as usize,
    );
    Ok(BoundWord {
        name: Name::new(alloc, binding.name(w))?,
        role: binding.role(w),
        nets: Numbers::new(nets.to_vec(alloc)?),
    })
}

// Part w of a list of so many parts with k numbers each.
fn part(list: &[u32], k: usize, w: usize, parts: usize) -> &[u32]
    requires long { length list.now ≡ k * parts }
    requires few { parts ≤ 9 }
    requires small { k ≤ 64 }
    requires within { w < parts }
    ensures { result.now ≡ take k (drop (k * w) list.now) }
{
    let start = k * w;
    &list[start..start + k]
}
