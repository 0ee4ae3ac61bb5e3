//! The binding of feeds to nets.
ghost use Rattle.std.specs.Prelude.{◌≡◌, ◌||◌, [], length, IfOk};
ghost use Rattle.outcome.specs.Outcome.{Returns};
ghost use Rattle.net_core.specs.NetList.{nets, number_of};
ghost use Rattle.net_words.specs.BindReading.{AreMarks, FitsBinding, mark_at};
ghost use Rattle.net_words.specs.Feeds.{FeedsOf, bound_feed as is_bound_feed, free_net, is_fed};
ghost use Rattle.net_words.specs.Roles.{in_word, stands_in};
ghost use Rattle.net_words.specs.declared.word.Role.TheVariants.{Input};

use crate::binding::BindFault;
use crate::bound::BoundWord;
use crate::feed::{Feed, FeedText};
use crate::marks::{is_marked, mark, no_marks, word_marks};
use crate::word::Role;
use net_core::Net;
use std::alloc::{AllocError, Global};

/// The feeds with their nets, or the first whose net is no primary input that is in no input word.
pub fn bind_feeds(
    alloc: Global,
    feeds: &[FeedText],
    net: &Net,
    words: &[BoundWord],
    inputs: &[bool],
) -> Result<Vec<Feed>, BindFault>
    requires inputs { AreMarks (nets net.now) (stands_in net.now.inputs) inputs.now }
    ensures fits { FitsBinding (λ bound. bound.items) result (FeedsOf net.now words.now [] feeds.now) }
{
    let held = word_marks(alloc, net, words, Role::Input)?;
    let mut bound = Vec::new(alloc);
    for feed in feeds {
        let number = match feed_net(feed, net, words, inputs, &held) {
            Ok(number) => number,
            Err(fault) => return Err(fault),
        };
        bound.push(bound_feed(feed, number))?;
    }
    Ok(bound)
}

// The feed with its net.
fn bound_feed(feed: &FeedText, net: u32) -> Feed
    ensures { result ≡ is_bound_feed feed.now net }
{
    Feed {
        line: feed.line,
        net,
        cycle: feed.cycle,
        source: feed.source,
    }
}

// The net of a feed, if it is a primary input in no input word.
fn feed_net(
    feed: &FeedText,
    net: &Net,
    _words: &[BoundWord],
    inputs: &[bool],
    held: &[bool],
) -> Result<u32, BindFault>
    requires inputs { AreMarks (nets net.now) (stands_in net.now.inputs) inputs.now }
    requires held { AreMarks (nets net.now) (in_word Input _words.now) held.now }
    ensures fits { FitsBinding (λ n. n) result (Returns (free_net net.now _words.now feed.now.line (number_of net.now feed.now.net))) }
    ensures is { result ≡ free_net net.now _words.now feed.now.line (number_of net.now feed.now.net) }
{
    let fault = BindFault::FeedNotFree { line: feed.line };
    match net.find(feed.net.as_str()) {
        Some(found) => {
            if is_marked(inputs, found) && !is_marked(held, found) {
                Ok(found)
            } else {
                Err(fault)
            }
        }
        None => Err(fault),
    }
}

/// The marks of the nets that are fed.
pub fn fed_marks(alloc: Global, net: &Net, feeds: &[Feed]) -> Result<Vec<bool>, AllocError>
    ensures { IfOk result (λ marks. AreMarks (nets net.now) (is_fed feeds.now) marks.items) }
{
    let mut marks = no_marks(alloc, net)?;
    mark_feeds(&mut marks, feeds);
    Ok(marks)
}

fn mark_feeds(marks: &mut [bool], feeds: &[Feed])
    ensures { AreMarks (length marks.new) (λ n. mark_at marks.old n || is_fed feeds.now n) marks.new }
{
    for feed in feeds {
        mark(marks, feed.net);
    }
}
