//! The order of variables of a circuit, and the rank of a net.
ghost use Rattle.std.specs.Prelude.{◌≡◌, ◌≤◌, [], ◌∷◌, ◌++◌, length, map, not, IfOk, OnOk, if◌then◌else◌};
ghost use Rattle.net_core.specs.NetList.{nets};
ghost use Rattle.net_words.specs.Roles.{stands_in};
ghost use Rattle.net_words.specs.Variables.{others};
ghost use Rattle.circuit_model.specs.Word.{word_nets};
ghost use Rattle.circuit_model.specs.Flat.{word_of};
ghost use Rattle.stage_model.specs.Variables.{rank_in};
ghost use Rattle.stage_model.specs.private.Plain.{HasEachNet};

use circuit_model::CircuitWord;
use net_core::Net;
use std::alloc::{AllocError, Global};

// The nets of words, word by word and by place.
fn nets_of(alloc: Global, words: &[CircuitWord]) -> Result<Vec<u32>, AllocError>
    ensures { IfOk result (λ list. list.items ≡ word_nets (map word_of words.now)) }
{
    let mut list = Vec::new(alloc);
    for word in words {
        list.extend_from_slice(&word.nets)?;
    }
    Ok(list)
}

// Adds a net that stands in none of the words.
fn add_other(front: &[u32], net: u32, order: &mut Vec<u32>) -> Result<(), AllocError>
    ensures { OnOk result (order.new.items ≡ order.old.items ++ (if not (stands_in front.now net) then net ∷ [] else [])) }
{
    if !front.contains(&net) {
        order.push(net)?;
    }
    Ok(())
}

// Adds the nets that stand in none of the words, by number.
fn add_others(count: u32, front: &[u32], order: &mut Vec<u32>) -> Result<(), AllocError>
    ensures { OnOk result (order.new.items ≡ order.old.items ++ others count front.now) }
{
    for net in 0..count {
        add_other(front, net, order)?;
    }
    Ok(())
}

// The nets of the words, and then all other nets by number.
pub fn variables(alloc: Global, net: &Net, words: &[CircuitWord]) -> Result<Vec<u32>, AllocError>
    ensures order { IfOk result (λ list. list.items ≡ word_nets (map word_of words.now) ++ others (nets net.now) (word_nets (map word_of words.now))) }
    ensures each { IfOk result (λ list. HasEachNet net.now list.items) }
{
    let front = nets_of(alloc, words)?;
    let mut order = nets_of(alloc, words)?;
    add_others(net.nets(), &front, &mut order)?;
    Ok(order)
}

// The place of a net among the variables; their number where it is none of them.
pub fn rank_of(variables: &[u32], net: u32) -> usize
    ensures rank { result ≡ rank_in variables.now net }
    ensures within { result ≤ length variables.now }
{
    match variables {
        [] => 0,
        [first, rest @ ..] => {
            if *first == net {
                0
            } else {
                1 + rank_of(rest, net)
            }
        }
    }
}
