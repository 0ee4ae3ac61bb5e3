//! The bits that are fed to nets.
ghost use Rattle.std.specs.Prelude.{◌≡◌, ◌==◌, ◌&&◌, ◌<◌, ◌^◌, ℕ, Some, length, map, IsTrue};
ghost use Rattle.std.specs.Int.{bit_at};
ghost use Rattle.lists.specs.Lists.{Has};
ghost use Rattle.net_core.specs.Value.{bit_of};
ghost use Rattle.circuit_model.specs.Feeds.{source_at as source_in};
ghost use Rattle.circuit_model.specs.Run.{HasSource};
ghost use Rattle.circuit_model.specs.Flat.{AreOver, word_of};
ghost use Rattle.plain_runs.specs.private.Cycle.{AreFed, AreOnlyFed, HasItsSource, IsWordBit};

use circuit_model::{CircuitFeed, CircuitWord, FeedSource};
use gf_field::Field;

// The bit of a number at a place.
fn bit_at_place(bits: u64, place: u32) -> bool
    ensures { result ≡ (bit_at bits place == 1) }
{
    if place < 64 {
        (bits >> place) & 1 == 1
    } else {
        false
    }
}

// The bit of a word's element at a place; it is 0 where there is no such word.
fn word_bit<F: Field>(field: &F, words: &[CircuitWord], xs: &[u64], word: u32, place: u32) -> bool
    requires over { AreOver (F.degree field.now) (F.product field.now) words.now }
    requires long { length xs.now ≡ length words.now }
    requires elements { (x : ℕ) → Has xs.now x → x < 2 ^ F.degree field.now }
    ensures { IsWordBit words.now xs.now word place result }
{
    let at = word as usize;
    if at < words.len() {
        bit_at_place(words[at].basis.bits_of(field, xs[at]), place)
    } else {
        false
    }
}

// The bit of a source where the words have these elements.
fn source_bit<F: Field>(field: &F, words: &[CircuitWord], xs: &[u64], source: FeedSource) -> bool
    requires over { AreOver (F.degree field.now) (F.product field.now) words.now }
    requires long { length xs.now ≡ length words.now }
    requires elements { (x : ℕ) → Has xs.now x → x < 2 ^ F.degree field.now }
    ensures { HasSource (map word_of words.now) xs.now source result }
{
    match source {
        FeedSource::Constant(bit) => bit,
        FeedSource::Bit { word, place } => word_bit(field, words, xs, word, place),
    }
}

// Whether the feed is that of a net for a cycle.
fn is_for(feed: &CircuitFeed, net: u32, cycle: u32) -> bool
    ensures { result ≡ (feed.now.net == net && feed.now.cycle == cycle) }
{
    feed.net == net && feed.cycle == cycle
}

// The source of a net's feed for a cycle, and the constant 0 where there is none.
fn source_at(feeds: &[CircuitFeed], net: u32, cycle: u32) -> FeedSource
    ensures { result ≡ source_in feeds.now net cycle }
{
    for feed in feeds {
        if is_for(feed, net, cycle) {
            return feed.source;
        }
    }
    FeedSource::Constant(false)
}

/// The bit that is fed to a net in a cycle.
pub fn fed_bit<F: Field>(
    field: &F,
    words: &[CircuitWord],
    xs: &[u64],
    feeds: &[CircuitFeed],
    net: u32,
    cycle: u32,
) -> bool
    requires over { AreOver (F.degree field.now) (F.product field.now) words.now }
    requires long { length xs.now ≡ length words.now }
    requires elements { (x : ℕ) → Has xs.now x → x < 2 ^ F.degree field.now }
    ensures { HasItsSource words.now xs.now feeds.now cycle net result }
{
    source_bit(field, words, xs, source_at(feeds, net, cycle))
}

/// The bit of a net; it is 0 past the end.
pub fn net_bit(bits: &[bool], net: u32) -> bool
    ensures { result ≡ bit_of bits.now net }
{
    match bits.get(net as usize) {
        Some(bit) => *bit,
        None => false,
    }
}

/// Whether each fed net has the bit that is fed to it in a cycle.
pub fn are_fed<F: Field>(
    field: &F,
    words: &[CircuitWord],
    xs: &[u64],
    feeds: &[CircuitFeed],
    cycle: u32,
    bits: &[bool],
) -> bool
    requires over { AreOver (F.degree field.now) (F.product field.now) words.now }
    requires long { length xs.now ≡ length words.now }
    requires elements { (x : ℕ) → Has xs.now x → x < 2 ^ F.degree field.now }
    ensures fed { IsTrue result → AreFed words.now xs.now feeds.now cycle bits.now }
    ensures complete { AreOnlyFed words.now xs.now feeds.now cycle bits.now → IsTrue result }
{
    for feed in feeds {
        let bit = fed_bit(field, words, xs, feeds, feed.net, cycle);
        if net_bit(bits, feed.net) != bit {
            return false;
        }
    }
    true
}
