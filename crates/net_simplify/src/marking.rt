//! How often nets are used, up to twice.
ghost use Rattle.std.specs.Prelude.{◌≡◌, ◌<◌, ◌+◌, ◌*◌, ◌∷◌, [], ℕ, List, length, min, slice_set, IfOk};
ghost use Rattle.lists.specs.Lists.{Has, times};
ghost use Rattle.net_core.specs.GateValue.{GateValue};
ghost use Rattle.net_core.specs.NetList.{nets};
ghost use Rattle.net_core.specs.Order.{IsLevelOrder};
ghost use Rattle.net_simplify.specs.Uses.{uses};
ghost use Rattle.net_simplify.specs.private.Marks.{AreCounts, count_at, gates_by};
ghost use Rattle.net_simplify.specs.private.Underway.{AreMarks};

use net_core::{Gate, Net};
use std::alloc::{AllocError, Global};

/// The mark of a net, and 0 where it has none.
pub fn mark_at(marks: &[u8], net: u32) -> u8
    ensures { result ≡ count_at marks.now net }
{
    match marks.get(net as usize) {
        Some(mark) => *mark,
        None => 0,
    }
}

// One more, up to 2.
fn one_more(count: u8) -> u8
    ensures { result ≡ min 2 (count + 1) }
{
    if count < 2 { count + 1 } else { 2 }
}

// One more use of a net.
fn add(marks: &mut [u8], net: u32)
    requires { net < length marks.old }
    ensures { marks.new ≡ slice_set marks.old net (min 2 (count_at marks.old net + 1)) }
{
    let count = one_more(mark_at(marks, net));
    marks[net as usize] = count;
}

// One more use of each of the nets.
fn add_all(marks: &mut [u8], nets: &[u32])
    requires { (n : ℕ) → Has nets.now n → n < length marks.old }
    ensures long { length marks.new ≡ length marks.old }
    ensures each { (f : ℕ → ℕ) → AreCounts marks.old f → AreCounts marks.new (λ n. f n + times n nets.now) }
{
    for net in nets {
        add(marks, *net);
    }
}

// The uses of a gate, if its own net is used.
fn add_gate(marks: &mut [u8], gate: &Gate)
    requires { (n : ℕ) → Has gate.now.inputs n → n < length marks.old }
    ensures long { length marks.new ≡ length marks.old }
    ensures each { (ends : List ℕ) (gates : List GateValue) → AreCounts marks.old (uses ends gates) → AreCounts marks.new (uses ends (gate.now ∷ gates)) }
{
    if mark_at(marks, gate.out()) != 0 {
        add_all(marks, gate.inputs());
    }
}

// The uses by the ends and by the gates in their order, the last gate first.
fn add_gates(marks: &mut [u8], net: &Net, ends: &[u32], order: &[u32])
    requires order { IsLevelOrder net.now order.now }
    requires long { length marks.old ≡ nets net.now }
    requires ends { (n : ℕ) → Has ends.now n → n < nets net.now }
    ensures long { length marks.new ≡ length marks.old }
    ensures each { AreCounts marks.old (λ n. 0) → AreCounts marks.new (uses ends.now (gates_by net.now.gates order.now)) }
{
    let gates = net.gates();
    add_all(marks, ends);
    for place in (0..order.len()).rev() {
        add_gate(marks, &gates[order[place] as usize]);
    }
}

// The uses of all nets, and twice more those that are primary inputs.
fn mark_all(marks: &mut [u8], net: &Net, ends: &[u32], order: &[u32])
    requires order { IsLevelOrder net.now order.now }
    requires long { length marks.old ≡ nets net.now }
    requires ends { (n : ℕ) → Has ends.now n → n < nets net.now }
    ensures long { length marks.new ≡ length marks.old }
    ensures marks { AreCounts marks.old (λ n. 0) → net.now.latches ≡ [] → AreMarks net.now ends.now (gates_by net.now.gates order.now) marks.new }
{
    let inputs = net.inputs();
    add_gates(marks, net, ends, order);
    add_all(marks, inputs);
    add_all(marks, inputs);
}

/// For each net how often it is used, where 2 stands for more too; a primary input counts as used twice more. Marks of a net
/// without latches tell which gates are used, and which are used once.
pub fn use_marks(
    alloc: Global,
    net: &Net,
    ends: &[u32],
    order: &[u32],
) -> Result<Vec<u8>, AllocError>
    requires order { IsLevelOrder net.now order.now }
    requires ends { (n : ℕ) → Has ends.now n → n < nets net.now }
    ensures marks { IfOk result (λ v. net.now.latches ≡ [] → AreMarks net.now ends.now (gates_by net.now.gates order.now) v.items) }
{
    let mut marks = vec![in alloc; 0u8; net.nets() as usize]?;
    mark_all(&mut marks, net, ends, order);
    Ok(marks)
}
