//! Marks of nets.
ghost use Rattle.std.specs.Prelude.{◌≡◌, ◌<◌, ◌==◌, ◌&&◌, ◌||◌, false, length, IfOk};
ghost use Rattle.std.specs.List.{list_any};
ghost use Rattle.net_core.specs.NetList.{nets};
ghost use Rattle.net_words.specs.Bind.{is_latch, is_used};
ghost use Rattle.net_words.specs.BindReading.{mark_at, AreMarks};
ghost use Rattle.net_words.specs.Roles.{in_word, same_role as is_same_role, stands_in};

use crate::bound::BoundWord;
use crate::word::Role;
use net_core::{Gate, Latch, Net};
use std::alloc::{AllocError, Global};

/// The marks of the primary inputs.
pub fn input_marks(alloc: Global, net: &Net) -> Result<Vec<bool>, AllocError>
    ensures { IfOk result (λ marks. AreMarks (nets net.now) (stands_in net.now.inputs) marks.items) }
{
    let mut marks = no_marks(alloc, net)?;
    mark_all(&mut marks, net.inputs());
    Ok(marks)
}

/// The marks of the outputs of latches.
pub fn latch_marks(alloc: Global, net: &Net) -> Result<Vec<bool>, AllocError>
    ensures { IfOk result (λ marks. AreMarks (nets net.now) (is_latch net.now) marks.items) }
{
    let mut marks = no_marks(alloc, net)?;
    mark_outs(&mut marks, net.latches());
    Ok(marks)
}

/// The marks of the nets that something depends on: inputs of gates, the next nets of latches, bits of the output word.
pub fn used_marks(alloc: Global, net: &Net, words: &[BoundWord]) -> Result<Vec<bool>, AllocError>
    ensures { IfOk result (λ marks. AreMarks (nets net.now) (is_used net.now words.now) marks.items) }
{
    let mut marks = no_marks(alloc, net)?;
    mark_gates(&mut marks, net.gates());
    mark_nexts(&mut marks, net.latches());
    mark_words(&mut marks, words, Role::Output);
    Ok(marks)
}

/// The marks of the nets in words with a role.
pub fn word_marks(
    alloc: Global,
    net: &Net,
    words: &[BoundWord],
    role: Role,
) -> Result<Vec<bool>, AllocError>
    ensures { IfOk result (λ marks. AreMarks (nets net.now) (in_word role words.now) marks.items) }
{
    let mut marks = no_marks(alloc, net)?;
    mark_words(&mut marks, words, role);
    Ok(marks)
}

/// Whether a net is marked.
pub fn is_marked(marks: &[bool], net: u32) -> bool
    ensures { result ≡ mark_at marks.now net }
{
    let place = net as usize;
    place < marks.len() && marks[place]
}

/// Whether two roles are the same.
pub fn same_role(a: Role, b: Role) -> bool
    ensures { result ≡ is_same_role a b }
{
    match (a, b) {
        (Role::Input, Role::Input) => true,
        (Role::State, Role::State) => true,
        (Role::Fed, Role::Fed) => true,
        (Role::Output, Role::Output) => true,
        _ => false,
    }
}

/// The marks of the nets of a list, below a number.
pub fn list_marks(alloc: Global, count: u32, list: &[u32]) -> Result<Vec<bool>, AllocError>
    ensures { IfOk result (λ marks. AreMarks count (stands_in list.now) marks.items) }
{
    let mut marks = vec![in alloc; false; count as usize]?;
    mark_all(&mut marks, list);
    Ok(marks)
}

/// A mark for each net, none of them set.
pub fn no_marks(alloc: Global, net: &Net) -> Result<Vec<bool>, AllocError>
    ensures long { IfOk result (λ marks. length marks.items ≡ nets net.now) }
    ensures none { IfOk result (λ marks. AreMarks (nets net.now) (λ n. false) marks.items) }
{
    let marks = vec![in alloc; false; net.nets() as usize]?;
    Ok(marks)
}

/// Marks a net.
pub fn mark(marks: &mut [bool], net: u32)
    ensures { AreMarks (length marks.new) (λ k. mark_at marks.old k || (net == k)) marks.new }
{
    let place = net as usize;
    if place < marks.len() {
        marks[place] = true;
    }
}

fn mark_all(marks: &mut [bool], list: &[u32])
    ensures { AreMarks (length marks.new) (λ k. mark_at marks.old k || stands_in list.now k) marks.new }
{
    for &net in list {
        mark(marks, net);
    }
}

fn mark_outs(marks: &mut [bool], latches: &[Latch])
    ensures { AreMarks (length marks.new) (λ k. mark_at marks.old k || list_any (λ l. l.out == k) latches.now) marks.new }
{
    for latch in latches {
        mark(marks, latch.out);
    }
}

fn mark_nexts(marks: &mut [bool], latches: &[Latch])
    ensures { AreMarks (length marks.new) (λ k. mark_at marks.old k || list_any (λ l. l.next == k) latches.now) marks.new }
{
    for latch in latches {
        mark(marks, latch.next);
    }
}

fn mark_gates(marks: &mut [bool], gates: &[Gate])
    ensures { AreMarks (length marks.new) (λ k. mark_at marks.old k || list_any (λ gate. stands_in gate.inputs k) gates.now) marks.new }
{
    for gate in gates {
        mark_all(marks, gate.inputs());
    }
}

fn mark_words(marks: &mut [bool], words: &[BoundWord], role: Role)
    ensures { AreMarks (length marks.new) (λ k. mark_at marks.old k || in_word role words.now k) marks.new }
{
    for word in words {
        mark_word(marks, word, role);
    }
}

fn mark_word(marks: &mut [bool], word: &BoundWord, role: Role)
    ensures { AreMarks (length marks.new) (λ k. mark_at marks.old k || (is_same_role word.now.role role && stands_in word.now.nets k)) marks.new }
{
    if same_role(word.role, role) {
        mark_all(marks, word.nets.as_slice());
    }
}
