//! Marks of nets.
ghost use Rattle.std.specs.Prelude.{◌≡◌, ◌<◌, ◌||◌, ◌==◌, ℕ, Some, false, length, slice_get, IfOk, OnOk};
ghost use Rattle.net_core.specs.NetList.{nets};
ghost use Rattle.net_words.specs.Binding.{IsBinding};
ghost use Rattle.net_words.specs.Feeds.{is_fed};
ghost use Rattle.net_words.specs.Roles.{in_word, stands_in};
ghost use Rattle.net_words.specs.declared.word.Role.TheVariants.{State};
ghost use Rattle.unroll.specs.private.Plan.{AreMarks, mark_at, marks_with, AreMarkedToo};

use crate::words::nets_of;
use net_core::Net;
use net_words::{Bound, Feed, Role};
use std::alloc::{AllocError, Global};

// Marks a net, if it is below the number of marks.
fn mark(marks: &mut [bool], net: u32)
    ensures { (n : ℕ) → n < length marks.new → mark_at marks.new n ≡ (mark_at marks.old n || net == n) }
{
    let place = net as usize;
    if place < marks.len() {
        marks[place] = true;
    }
}

// Marks the nets of a list.
fn mark_all(marks: &mut [bool], list: &[u32])
    ensures { (n : ℕ) → n < length marks.new → mark_at marks.new n ≡ (mark_at marks.old n || stands_in list.now n) }
{
    for net in list {
        mark(marks, *net);
    }
}

// Marks the nets that are fed.
fn mark_feeds(marks: &mut [bool], feeds: &[Feed])
    ensures { (n : ℕ) → n < length marks.new → mark_at marks.new n ≡ (mark_at marks.old n || is_fed feeds.now n) }
{
    for feed in feeds {
        mark(marks, feed.net);
    }
}

/// The marks of the nets that are fed.
pub fn fed_marks(alloc: Global, net: &Net, binding: &Bound) -> Result<Vec<bool>, AllocError>
    ensures { IfOk result (λ marks. AreMarks (nets net.now) (is_fed binding.now.feeds) marks.items) }
{
    let mut marks = vec![in alloc; false; net.nets() as usize]?;
    mark_feeds(&mut marks, binding.feeds());
    Ok(marks)
}

// Marks the nets of word w, below the number of words, if it is a state word.
fn mark_held(alloc: Global, marks: &mut [bool], binding: &Bound, w: u32) -> Result<(), AllocError>
    requires binding { IsBinding binding.now }
    requires word { w < length binding.now.words }
    ensures { OnOk result ((word : _) → slice_get binding.now.words w ≡ Some word → AreMarkedToo (marks_with word) marks.old marks.new) }
{
    if binding.role(w) != Role::State {
        return Ok(());
    }
    let list = nets_of(alloc, binding, w)?;
    mark_all(marks, &list);
    Ok(())
}

// Marks the nets in state words.
fn mark_states(alloc: Global, marks: &mut [bool], binding: &Bound) -> Result<(), AllocError>
    ensures { OnOk result ((n : ℕ) → n < length marks.new → mark_at marks.new n ≡ (mark_at marks.old n || in_word State binding.now.words n)) }
{
    for w in 0..binding.words() {
        mark_held(alloc, marks, binding, w)?;
    }
    Ok(())
}

/// The marks of the nets in state words.
pub fn held_marks(alloc: Global, net: &Net, binding: &Bound) -> Result<Vec<bool>, AllocError>
    ensures { IfOk result (λ marks. AreMarks (nets net.now) (in_word State binding.now.words) marks.items) }
{
    let mut marks = vec![in alloc; false; net.nets() as usize]?;
    mark_states(alloc, &mut marks, binding)?;
    Ok(marks)
}
