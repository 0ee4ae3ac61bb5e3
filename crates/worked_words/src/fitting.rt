//! Which words and feeds can be bound.
ghost use Rattle.std.specs.Prelude.{◌≡◌, ◌⊎◌, ◌↔◌, ℕ, Some, length, filter, map, slice_get, All, IsTrue};
ghost use Rattle.lists.specs.Lists.{Has};
ghost use Rattle.net_words.specs.Binding.{AreWords};
ghost use Rattle.net_words.specs.Feeds.{AreFeeds, IsSource};
ghost use Rattle.net_words.specs.Roles.{is_output as is_output_word, input_count as count_inputs};
ghost use Rattle.net_words.specs.declared.word.Role.TheVariants.{Fed};

use net_words::{FeedText, Role, Source, WordText};

/// Whether words and feeds can be bound.
pub(crate) fn fit(words: &[WordText], feeds: &[FeedText]) -> bool
    ensures { IsTrue result → (k : ℕ) × AreWords k words.now × AreFeeds k (map (λ word. word.role) words.now) feeds.now }
{
    let k = width(words);
    are_words(words, k) && are_feeds(words, k, feeds)
}

// How many nets the first word has that is not fed.
fn width(words: &[WordText]) -> usize {
    for word in words {
        if word.role != Role::Fed {
            return word.nets.as_slice().len();
        }
    }
    0
}

fn are_words(words: &[WordText], k: usize) -> bool
    ensures { IsTrue result → AreWords k words.now }
{
    if words.len() < 1 || words.len() > 9 {
        return false;
    }
    if output_count(words) != 1 || input_count(words) > 8 {
        return false;
    }
    if k < 1 || k > 64 {
        return false;
    }
    have_nets(words, k)
}

fn is_output(word: &WordText) -> bool
    ensures { result ≡ is_output_word word.now }
{
    word.role == Role::Output
}

fn output_count(words: &[WordText]) -> usize
    ensures { result ≡ length (filter is_output_word words.now) }
{
    words.iter().filter(|word| is_output(word)).count()
}

fn input_count(words: &[WordText]) -> usize
    ensures { result ≡ count_inputs words.now }
{
    words.iter().filter(|word| !is_output(word)).count()
}

fn has_nets(word: &WordText, k: usize) -> bool
    ensures { IsTrue result ↔ ((length word.now.nets ≡ k) ⊎ (word.now.role ≡ Fed)) }
{
    word.nets.as_slice().len() == k || word.role == Role::Fed
}

fn have_nets(words: &[WordText], k: usize) -> bool
    ensures { IsTrue result ↔ All (λ word. (length word.nets ≡ k) ⊎ (word.role ≡ Fed)) words.now }
{
    words.iter().all(|word| has_nets(word, k))
}

fn has_source(words: &[WordText], k: usize, source: Source) -> bool
    ensures { IsTrue result → IsSource k (map (λ word. word.role) words.now) source }
{
    match source {
        Source::Zero | Source::One => true,
        Source::Bit { word, place } => (place as usize) < k && is_fed(words, word as usize),
    }
}

fn is_fed(words: &[WordText], w: usize) -> bool
    ensures { IsTrue result → slice_get (map (λ word. word.role) words.now) w ≡ Some Fed }
{
    w < words.len() && words[w].role == Role::Fed
}

// Whether two feeds have another net or another cycle.
fn differ(feed: &FeedText, other: &FeedText) -> bool
    ensures { IsTrue result → feed.now.net ≡ other.now.net → feed.now.cycle ≡ other.now.cycle → ⊥ }
{
    feed.cycle != other.cycle || feed.net.as_str() != other.net.as_str()
}

// Whether no other feed has this one's net and cycle.
fn is_apart(feed: &FeedText, others: &[FeedText]) -> bool
    ensures { IsTrue result → (other : FeedText) → Has others.now other → feed.now.net ≡ other.net → feed.now.cycle ≡ other.cycle → ⊥ }
{
    match others {
        [] => true,
        [other, rest @ ..] => {
            if differ(feed, other) {
                is_apart(feed, rest)
            } else {
                false
            }
        }
    }
}

// Whether a feed has a source in words of k nets, and no other feed its net and cycle.
fn fits_beside(words: &[WordText], k: usize, feed: &FeedText, others: &[FeedText]) -> bool
    ensures source { IsTrue result → IsSource k (map (λ word. word.role) words.now) feed.now.source }
    ensures apart { IsTrue result → (other : FeedText) → Has others.now other → feed.now.net ≡ other.net → feed.now.cycle ≡ other.cycle → ⊥ }
{
    if has_source(words, k, feed.source) {
        is_apart(feed, others)
    } else {
        false
    }
}

// Whether feeds can be bound beside words of k nets.
fn are_feeds(words: &[WordText], k: usize, feeds: &[FeedText]) -> bool
    ensures { IsTrue result → AreFeeds k (map (λ word. word.role) words.now) feeds.now }
{
    match feeds {
        [] => true,
        [feed, rest @ ..] => {
            if fits_beside(words, k, feed, rest) {
                are_feeds(words, k, rest)
            } else {
                false
            }
        }
    }
}
