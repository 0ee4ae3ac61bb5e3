//! The bits of the nets of a job in one cycle.
ghost use Rattle.std.specs.Prelude.{◌≡◌, ◌<◌, ◌^◌, ℕ, length, IfOk};
ghost use Rattle.lists.specs.Lists.{Has};
ghost use Rattle.net_core.specs.NetList.{nets};
ghost use Rattle.net_core.specs.Value.{IsConsistent};
ghost use Rattle.circuit_model.specs.Run.{IsStart};
ghost use Rattle.circuit_model.specs.Flat.{AreOver};
ghost use Rattle.plain_runs.specs.private.Cycle.{AreKept, HaveInputs, HaveNexts, HaveStarts, IsInputBit, IsStartBit};

use crate::fed_bits::{fed_bit, net_bit};
use crate::settle::settled;
use crate::word_bits::bit_in_words;
use circuit_model::{CircuitFeed, CircuitWord};
use gf_field::Field;
use net_core::{Latch, Net, Start};
use std::alloc::{AllocError, Global};

// The bit of a primary input in a cycle.
fn input_bit<F: Field>(
    field: &F,
    words: &[CircuitWord],
    xs: &[u64],
    feeds: &[CircuitFeed],
    net: u32,
    cycle: u32,
) -> bool
    requires over { AreOver (F.degree field.now) (F.product field.now) words.now }
    requires long { length xs.now ≡ length words.now }
    requires elements { (x : ℕ) → Has xs.now x → x < 2 ^ F.degree field.now }
    ensures { IsInputBit words.now xs.now feeds.now cycle net result }
{
    let fed = fed_bit(field, words, xs, feeds, net, cycle);
    bit_in_words(field, words, xs, net, fed)
}

// A list of bits in which the primary inputs have their bits of a cycle.
fn input_bits<F: Field>(
    alloc: Global,
    field: &F,
    net: &Net,
    words: &[CircuitWord],
    xs: &[u64],
    feeds: &[CircuitFeed],
    cycle: u32,
) -> Result<Vec<bool>, AllocError>
    requires over { AreOver (F.degree field.now) (F.product field.now) words.now }
    requires long { length xs.now ≡ length words.now }
    requires elements { (x : ℕ) → Has xs.now x → x < 2 ^ F.degree field.now }
    ensures long { IfOk result (λ v. length v.items ≡ nets net.now) }
    ensures inputs { IfOk result (λ v. HaveInputs words.now xs.now feeds.now cycle net.now.inputs v.items) }
{
    let mut bits = vec![in alloc; false; net.nets() as usize]?;
    for input in net.inputs() {
        bits[*input as usize] = input_bit(field, words, xs, feeds, *input, cycle);
    }
    Ok(bits)
}

// The bit of a start; an unknown one has the bit 0.
fn start_bit(start: Start) -> bool
    ensures { IsStart start result }
{
    match start {
        Start::Zero => false,
        Start::One => true,
        Start::Unknown => false,
    }
}

// The bit of a latch in the first cycle.
fn latch_bit<F: Field>(field: &F, words: &[CircuitWord], xs: &[u64], latch: Latch) -> bool
    requires over { AreOver (F.degree field.now) (F.product field.now) words.now }
    requires long { length xs.now ≡ length words.now }
    requires elements { (x : ℕ) → Has xs.now x → x < 2 ^ F.degree field.now }
    ensures { IsStartBit words.now xs.now latch result }
{
    bit_in_words(field, words, xs, latch.out, start_bit(latch.start))
}

// Gives the outputs of latches their bits of the first cycle.
fn set_starts<F: Field>(
    field: &F,
    net: &Net,
    words: &[CircuitWord],
    xs: &[u64],
    bits: &mut Vec<bool>,
)
    requires over { AreOver (F.degree field.now) (F.product field.now) words.now }
    requires long { length xs.now ≡ length words.now }
    requires elements { (x : ℕ) → Has xs.now x → x < 2 ^ F.degree field.now }
    requires bits { length bits.old.items ≡ nets net.now }
    ensures long { length bits.new.items ≡ nets net.now }
    ensures kept { AreKept net.now.inputs bits.old.items bits.new.items }
    ensures latches { HaveStarts words.now xs.now net.now.latches bits.new.items }
{
    for latch in net.latches() {
        bits[latch.out as usize] = latch_bit(field, words, xs, *latch);
    }
}

// Gives the outputs of latches the bits that they have after these bits of all nets.
fn set_nexts(net: &Net, before: &[bool], bits: &mut Vec<bool>)
    requires { length bits.old.items ≡ nets net.now }
    ensures long { length bits.new.items ≡ nets net.now }
    ensures kept { AreKept net.now.inputs bits.old.items bits.new.items }
    ensures latches { HaveNexts net.now.latches before.now bits.new.items }
{
    for latch in net.latches() {
        bits[latch.out as usize] = net_bit(before, latch.next);
    }
}

/// The bits of all nets in the first cycle.
pub fn first_bits<F: Field>(
    alloc: Global,
    field: &F,
    net: &Net,
    words: &[CircuitWord],
    xs: &[u64],
    feeds: &[CircuitFeed],
) -> Result<Vec<bool>, AllocError>
    requires over { AreOver (F.degree field.now) (F.product field.now) words.now }
    requires long { length xs.now ≡ length words.now }
    requires elements { (x : ℕ) → Has xs.now x → x < 2 ^ F.degree field.now }
    ensures consistent { IfOk result (λ v. IsConsistent net.now v.items) }
    ensures inputs { IfOk result (λ v. HaveInputs words.now xs.now feeds.now 0 net.now.inputs v.items) }
    ensures latches { IfOk result (λ v. HaveStarts words.now xs.now net.now.latches v.items) }
{
    let mut bits = input_bits(alloc, field, net, words, xs, feeds, 0)?;
    set_starts(field, net, words, xs, &mut bits);
    let bits = settled(alloc, net, bits)?;
    Ok(bits)
}

/// The bits of all nets in a cycle that follows these bits.
pub fn next_bits<F: Field>(
    alloc: Global,
    field: &F,
    net: &Net,
    words: &[CircuitWord],
    xs: &[u64],
    feeds: &[CircuitFeed],
    cycle: u32,
    before: &[bool],
) -> Result<Vec<bool>, AllocError>
    requires over { AreOver (F.degree field.now) (F.product field.now) words.now }
    requires long { length xs.now ≡ length words.now }
    requires elements { (x : ℕ) → Has xs.now x → x < 2 ^ F.degree field.now }
    ensures consistent { IfOk result (λ v. IsConsistent net.now v.items) }
    ensures inputs { IfOk result (λ v. HaveInputs words.now xs.now feeds.now cycle net.now.inputs v.items) }
    ensures latches { IfOk result (λ v. HaveNexts net.now.latches before.now v.items) }
{
    let mut bits = input_bits(alloc, field, net, words, xs, feeds, cycle)?;
    set_nexts(net, before, &mut bits);
    let bits = settled(alloc, net, bits)?;
    Ok(bits)
}
