//! What is put in at the output of a gate of one input or two.
ghost use Rattle.std.specs.Prelude.{◌≡◌, ◌<◌, ◌≤◌, ◌∷◌, [], IfSome};
ghost use Rattle.lists.specs.Lists.{Has};
ghost use Rattle.net_core.specs.Sound.{IsSound};
ghost use Rattle.rato_reduce.specs.BoundVariables.{ranks_of_inputs};
ghost use Rattle.rato_reduce.specs.Monomials.{monomials};
ghost use Rattle.rato_reduce.specs.private.Pairs.{pair_sets, HasLevels};

use crate::buckets::Buckets;
use crate::first_cut::rank;
use crate::monomials::has_place;
use net_core::Gate;
use net_words::Combinational;

/// What is put in at the output of a gate of two inputs, which may be one: a sum of 1, the inputs and their product. There are
/// levels up to which the bits of each are.
#[derive(Clone, Copy)]
pub struct Pair {
    /// Whether it has 1.
    pub one: bool,
    /// Whether it has the first input.
    pub low: bool,
    /// Whether it has the second one.
    pub high: bool,
    /// Whether it has the product of both.
    pub all: bool,
    /// The first input.
    pub first: u32,
    /// The second one.
    pub second: u32,
    /// A level up to which the first one is.
    pub first_level: usize,
    /// A level up to which the second one is.
    pub second_level: usize,
    /// A level up to which both are.
    pub level: usize,
}

/// The greater of two levels.
pub fn greater_of(one: usize, other: usize) -> usize
    ensures one { one ≤ result }
    ensures other { other ≤ result }
{
    if one < other { other } else { one }
}

// What the form of a table of one bit has.
fn line_of(cut: &Buckets, form: u64, by: u32) -> Pair
    ensures levels { HasLevels cut.now.places result }
    ensures sets { pair_sets result ≡ monomials form [] (by ∷ []) 0 1 }
{
    let level = cut.level_for(&[by]);
    let one = has_place(form, 0);
    let low = has_place(form, 1);
    Pair {
        one,
        low,
        high: false,
        all: false,
        first: by,
        second: by,
        first_level: level,
        second_level: level,
        level,
    }
}

// What the form of a table of two bits has.
fn pair_of(cut: &Buckets, form: u64, first: u32, second: u32) -> Pair
    ensures levels { HasLevels cut.now.places result }
    ensures sets { pair_sets result ≡ monomials form [] (first ∷ second ∷ []) 0 1 }
{
    let first_level = cut.level_for(&[first]);
    let second_level = cut.level_for(&[second]);
    let level = greater_of(first_level, second_level);
    let one = has_place(form, 0);
    let low = has_place(form, 1);
    let high = has_place(form, 2);
    let all = has_place(form, 3);
    Pair {
        one,
        low,
        high,
        all,
        first,
        second,
        first_level,
        second_level,
        level,
    }
}

/// What the form of a gate's table has, if the gate has one input or two.
pub fn pair_at(cut: &Buckets, circuit: &Combinational, gate: &Gate, form: u64) -> Option<Pair>
    requires sound { IsSound circuit.now.net }
    requires gate { Has circuit.now.net.gates gate.now }
    ensures levels { IfSome result (λ pair. HasLevels cut.now.places pair) }
    ensures sets { IfSome result (λ pair. pair_sets pair ≡ monomials form [] (ranks_of_inputs circuit.now gate.now) 0 1) }
{
    let inputs = gate.inputs();
    if inputs.len() == 1 {
        let by = rank(circuit, inputs[0]);
        return Some(line_of(cut, form, by));
    }
    if inputs.len() == 2 {
        let first = rank(circuit, inputs[0]);
        let second = rank(circuit, inputs[1]);
        return Some(pair_of(cut, form, first, second));
    }
    None
}
