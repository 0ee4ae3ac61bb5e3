//! The order of variables after the words.
ghost use Rattle.std.specs.Prelude.{◌≡◌, ◌<◌, ◌+◌, ◌==◌, ◌^◌, ℕ, [], ◌∷◌, ◌++◌, length, not, slice_index, IfOk, OnOk, if◌then◌else◌};
ghost use Rattle.net_words.specs.BindReading.{AreMarks};
ghost use Rattle.net_words.specs.Roles.{stands_in};
ghost use Rattle.net_words.specs.Variables.{bits as bits_of, bits_with, others, variables as variables_of, IsRanked};

use crate::bound::BoundWord;
use crate::marks::{is_marked, list_marks, same_role};
use crate::word::Role;
use std::alloc::{AllocError, Global};

/// The nets in the order of variables: the bits of input, state and fed words, then all other nets by number.
pub fn variables(alloc: Global, count: u32, words: &[BoundWord]) -> Result<Vec<u32>, AllocError>
    ensures { IfOk result (λ order. order.items ≡ variables_of count words.now) }
{
    let mut order = bits(alloc, words)?;
    let marks = list_marks(alloc, count, &order)?;
    add_others(count, &marks, &mut order)?;
    Ok(order)
}

// The bits of input, state and fed words.
fn bits(alloc: Global, words: &[BoundWord]) -> Result<Vec<u32>, AllocError>
    ensures { IfOk result (λ list. list.items ≡ bits_of words.now) }
{
    let mut list = Vec::new(alloc);
    for word in words {
        add_bits(word, &mut list)?;
    }
    Ok(list)
}

// The bits that a word adds.
fn add_bits(word: &BoundWord, list: &mut Vec<u32>) -> Result<(), AllocError>
    ensures { OnOk result (list.new.items ≡ list.old.items ++ bits_with word.now.role word.now.nets) }
{
    match word.role {
        Role::Input | Role::State | Role::Fed => {
            list.extend_from_slice(word.nets.as_slice())?;
            Ok(())
        }
        Role::Output => Ok(()),
    }
}

// Adds the nets that are not marked.
fn add_others(count: u32, marks: &[bool], order: &mut Vec<u32>) -> Result<(), AllocError>
    requires { AreMarks count (stands_in order.old.items) marks.now }
    ensures { OnOk result (order.new.items ≡ order.old.items ++ others count order.old.items) }
{
    for net in 0..count {
        add_other(net, is_marked(marks, net), order)?;
    }
    Ok(())
}

// Adds a net that is not marked.
fn add_other(net: u32, is_marked: bool, order: &mut Vec<u32>) -> Result<(), AllocError>
    ensures { OnOk result (order.new.items ≡ order.old.items ++ (if not is_marked then net ∷ [] else [])) }
{
    if !is_marked {
        order.push(net)?;
    }
    Ok(())
}

/// The rank of each net.
pub fn ranks(alloc: Global, count: u32, order: &[u32]) -> Result<Vec<u32>, AllocError>
    requires { length order.now < 2 ^ 32 }
    ensures long { IfOk result (λ ranks. length ranks.items ≡ count) }
    ensures ranked { IfOk result (λ ranks. (j : ℕ) → j < length order.now → slice_index order.now j < count → IsRanked order.now (slice_index ranks.items (slice_index order.now j)) (slice_index order.now j)) }
{
    let mut ranks = vec![in alloc; 0; count as usize]?;
    for (rank, &net) in order.iter().enumerate() {
        set_rank(&mut ranks, net, rank as u32);
    }
    Ok(ranks)
}

// Gives a net its rank.
fn set_rank(ranks: &mut [u32], net: u32, rank: u32)
    ensures { (n : ℕ) → n < length ranks.new → slice_index ranks.new n ≡ (if n == net then rank else slice_index ranks.old n) }
{
    let place = net as usize;
    if place < ranks.len() {
        ranks[place] = rank;
    }
}
