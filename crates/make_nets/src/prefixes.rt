//! The prefix of the names of inner nets.
ghost use Rattle.std.specs.Prelude.{◌≡◌, ◌≤◌, ◌+◌, max, IfOk, length, map, string_bytes};
ghost use Rattle.make_nets.specs.MakerNames.{AreMakerNames};
ghost use Rattle.make_nets.specs.Ports.{outer_names, word_names};
ghost use Rattle.make_nets.specs.Prefix.{leading as leading_of, most_leading as most_leading_of, prefix_of};

use net_core::Name;
use net_words::{FeedText, WordText};
use std::alloc::{AllocError, Global};

// How many bytes `w` a name begins with.
fn leading(name: &[u8]) -> usize
    ensures count { result ≡ leading_of name.now }
    ensures within { result ≤ length name.now }
{
    let mut count = 0;
    for byte in name {
        if *byte != b'w' {
            return count;
        }
        count += 1;
    }
    count
}

// The larger of two numbers.
fn larger(a: usize, b: usize) -> usize
    ensures { result ≡ max a b }
{
    if a < b { b } else { a }
}

// The most of them among these names.
fn most_leading(names: &[Name]) -> usize
    ensures { result ≡ most_leading_of names.now }
{
    let mut most = 0;
    for name in names {
        let count = leading(name.as_str().as_bytes());
        most = larger(most, count);
    }
    most
}

// The most of them among the names of the nets of words.
fn most_in_words(words: &[WordText]) -> usize
    ensures { result ≡ most_leading_of (word_names words.now) }
{
    let mut most = 0;
    for word in words {
        let count = most_leading(word.nets.as_slice());
        most = larger(most, count);
    }
    most
}

// The most of them among the names of fed nets.
fn most_in_feeds(feeds: &[FeedText]) -> usize
    ensures { result ≡ most_leading_of (map (λ feed. feed.net) feeds.now) }
{
    let mut most = 0;
    for feed in feeds {
        let count = leading(feed.net.as_str().as_bytes());
        most = larger(most, count);
    }
    most
}

/// The prefix of the names of inner nets: `w` as often as needed so that no name of the words' nets and of the fed nets begins
/// with it. It answers nothing but the prefix, or runs out of memory.
pub fn prefix_for(
    alloc: Global,
    words: &[WordText],
    feeds: &[FeedText],
) -> Result<String, AllocError>
    requires { AreMakerNames (outer_names words.now (map (λ feed. feed.net) feeds.now)) }
    ensures { IfOk result (λ text. string_bytes text ≡ prefix_of (outer_names words.now (map (λ feed. feed.net) feeds.now))) }
{
    let most = larger(most_in_words(words), most_in_feeds(feeds));
    "w".repeat(alloc, most + 1)
}
