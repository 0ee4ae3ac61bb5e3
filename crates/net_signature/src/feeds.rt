//! Feeds, one after another.
ghost use Rattle.std.specs.Prelude.{◌≡◌, ◌≤◌, ◌==◌, ◌++◌, ◌∷◌, [], length, string_bytes, Ok, IfOk};
ghost use Rattle.std.specs.List.{list_any};
ghost use Rattle.outcome.specs.Outcome.{Returns};
ghost use Rattle.net_signature.specs.Body.{is_feed_of, with_feed as feeds_with};
ghost use Rattle.net_signature.specs.private.Seen.{feed_key};
ghost use Rattle.net_signature.specs.Reading.{Fits};

use crate::fault::SigFault;
use crate::seen::{Seen, add_text, is_seen};
use indexmap::IndexMap;
use net_core::KeyedHash;
use net_words::FeedText;
use std::alloc::{AllocError, Global};
use std::marker::Model;

/// Feeds, and their nets and cycles. Contracts see the list of feeds.
#[derive(Drop)]
pub struct Feeds {
    list: Vec<FeedText>,
    seen: Seen,
}

impl Model for Feeds {
    ghost use Rattle.std.specs.Prelude.{◌≡◌, ℕ, List, is_some};
    ghost use Rattle.std.specs.List.{list_any};
    ghost use Rattle.indexmap.specs.IndexMap.{get_by_text};
    ghost use Rattle.net_words.specs.declared.feed.FeedText.{FeedText};
    ghost use Rattle.net_signature.specs.private.Seen.{has_key};

    ghost Value = { List FeedText };

    ghost view = { λ f. f.list.items };

    ghost invariant = { λ f. (q : List ℕ) → is_some (get_by_text f.seen q) ≡ list_any (has_key q) f.list.items };
}

impl Feeds {
    /// No feeds, whose nets are hashed with this key. It takes no memory.
    pub fn new(alloc: Global, key: u64) -> Feeds
        ensures { result ≡ [] }
    {
        Feeds {
            list: Vec::new(alloc),
            seen: IndexMap::with_hasher(alloc, KeyedHash::new(key)),
        }
    }

    /// Whether there is none.
    pub fn is_empty(&self) -> bool
        ensures { result ≡ (length self.now == 0) }
    {
        self.list.is_empty()
    }

    // Whether there is a feed of the same net and cycle, of which this is the key.
    fn has(&self, key: &str, feed: &FeedText) -> bool
        requires { key.now ≡ feed_key feed.now.net feed.now.cycle }
        ensures { result ≡ list_any (is_feed_of feed.now.net feed.now.cycle) self.now }
    {
        is_seen(&self.seen, key)
    }

    /// One more feed, whose net has none in this cycle. A fault leaves some feeds.
    pub fn add(&mut self, alloc: Global, feed: FeedText) -> Result<(), SigFault>
        requires { feed.cycle ≤ 4096 }
        ensures { Fits (λ u. self.new) result (Returns (feeds_with self.old feed)) }
    {
        let line = feed.line;
        let key = key_of(alloc, feed.net.as_str(), feed.cycle)?;
        if self.has(key.as_str(), &feed) {
            return Err(SigFault::FeedTwice { line });
        }
        self.push(key, feed)
    }

    // One more feed, of which this is the key. Where memory runs out, some feeds are left.
    fn push(&mut self, key: String, feed: FeedText) -> Result<(), SigFault>
        requires { string_bytes key ≡ feed_key feed.net feed.cycle }
        ensures { Fits (λ u. self.new) result (Returns (Ok (self.old ++ feed ∷ []))) }
    {
        self.list.push(feed)?;
        match add_text(&mut self.seen, key) {
            Ok(()) => Ok(()),
            Err(_) => {
                self.list.clear();
                self.seen.clear();
                Err(SigFault::OutOfMemory)
            }
        }
    }

    /// The feeds, in order.
    pub fn into_list(self) -> Vec<FeedText>
        ensures { result.items ≡ self }
    {
        self.list
    }
}

// A text that tells net and cycle.
fn key_of(alloc: Global, net: &str, cycle: u32) -> Result<String, AllocError>
    requires { cycle ≤ 4096 }
    ensures { IfOk result (λ key. string_bytes key ≡ feed_key net.now cycle) }
{
    let mut key = String::new(alloc);
    key.push(char::from((cycle / 64) as u8))?;
    key.push(char::from((cycle % 64) as u8))?;
    key.push_str(net)?;
    Ok(key)
}
