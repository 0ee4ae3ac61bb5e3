//! The signatures that a multiplier digit by digit fits.
ghost use Rattle.std.specs.Prelude.{◌≡◌, ◌≤◌, ◌<◌, ◌*◌, ◌/◌, ◌%◌, ◌↔◌, IsTrue, IfSome, IsSome, Some, ℕ, suc, length, slice_get};
ghost use Rattle.net_words.specs.declared.feed.FeedText.{FeedText as FeedValue};
ghost use Rattle.net_words.specs.declared.feed.Source.TheVariants.{Bit};
ghost use Rattle.net_words.specs.declared.word.BasisText.TheVariants.{Poly};
ghost use Rattle.mult_digit.specs.DigitForm.{AreDigitFeeds, IsDigitFeed, IsPolyWord};
ghost use Rattle.mult_digit.specs.private.Words.{DigitWordsBy};

use net_words::{BasisText, FeedText, Role, Source, WordText};

// Whether two roles are one.
fn is_same(role: Role, other: Role) -> bool
    ensures { IsTrue result ↔ (role ≡ other) }
{
    match (role, other) {
        (Role::Input, Role::Input) => true,
        (Role::State, Role::State) => true,
        (Role::Fed, Role::Fed) => true,
        (Role::Output, Role::Output) => true,
        _ => false,
    }
}

// Whether a basis is that of the powers of the root.
fn is_poly(basis: &BasisText) -> bool
    ensures { IsTrue result ↔ (basis.now ≡ Poly) }
{
    match basis {
        BasisText::Poly => true,
        BasisText::Normal { .. } => false,
        BasisText::Elements { .. } => false,
    }
}

// Whether a word has a role and the basis of the powers of the root.
fn is_poly_word(word: &WordText, role: Role) -> bool
    ensures { IsTrue result ↔ IsPolyWord role word.now }
{
    is_same(word.role, role) && is_poly(&word.basis)
}

/// Whether the words are a fed word without nets, an input word and the output word, all in the basis of powers.
pub(crate) fn are_words(words: &[WordText]) -> bool
    ensures { IsTrue result ↔ DigitWordsBy words.now }
{
    match words {
        [a, b, z] => {
            is_poly_word(a, Role::Fed)
                && a.nets.as_slice().is_empty()
                && is_poly_word(b, Role::Input)
                && is_poly_word(z, Role::Output)
        }
        _ => false,
    }
}

// Whether a source is this place of the first word.
fn is_place(source: Source, at: u32) -> bool
    ensures { IsTrue result ↔ (source ≡ Bit 0 at) }
{
    match source {
        Source::Bit { word, place } => word == 0 && place == at,
        Source::Zero => false,
        Source::One => false,
    }
}

// Whether a line is of this cycle.
fn is_cycle(feed: &FeedText, cycle: u32) -> bool
    ensures { IsTrue result ↔ (feed.now.cycle ≡ cycle) }
{
    feed.cycle == cycle
}

// Whether a line feeds the net of this name.
fn is_named(feed: &FeedText, name: &str) -> bool
    ensures { IsTrue result ↔ (feed.now.net ≡ name.now) }
{
    feed.net.as_str() == name
}

// Whether all three hold.
fn all_of(a: bool, b: bool, c: bool) -> bool
    ensures { IsTrue result ↔ (IsTrue a × IsTrue b × IsTrue c) }
{
    a && b && c
}

// Whether line i feeds its bit, where a digit has `width` of the k bits.
fn is_line(k: u32, width: u32, feeds: &[FeedText], i: u32) -> bool
    requires some { 1 ≤ width }
    requires few { k ≤ 64 }
    requires line { i < length feeds.now }
    requires net { i % width < length feeds.now }
    requires place { width * suc (i / width) ≤ k }
    ensures { (feed : FeedValue) → slice_get feeds.now i ≡ Some feed → IsTrue result ↔ IsDigitFeed k width feeds.now i feed }
{
    let feed = &feeds[i as usize];
    let bit = i % width;
    let cycle = is_cycle(feed, i / width);
    let source = is_place(feed.source, k - width * (i / width + 1) + bit);
    let net = is_named(feed, feeds[bit as usize].net.as_str());
    all_of(cycle, source, net)
}

// Whether the lines feed digits of so many bits.
fn are_lines(k: u32, width: u32, feeds: &[FeedText]) -> bool
    requires some { 1 ≤ width }
    requires few { k ≤ 64 }
    requires long { length feeds.now ≡ k }
    requires divides { k % width ≡ 0 }
    ensures { IsTrue result ↔ AreDigitFeeds k width feeds.now }
{
    for i in 0..k {
        if !is_line(k, width, feeds, i) {
            return false;
        }
    }
    true
}

// Whether the lines feed digits of so many bits, where that number may not divide k.
fn are_digits(k: u32, width: u32, feeds: &[FeedText]) -> bool
    requires some { 1 ≤ width }
    requires few { k ≤ 64 }
    requires long { length feeds.now ≡ k }
    ensures { IsTrue result ↔ AreDigitFeeds k width feeds.now }
{
    if k % width != 0 {
        return false;
    }
    are_lines(k, width, feeds)
}

/// The number of bits of the digits that these lines feed, if they do, of k bits in all.
pub(crate) fn width_of(k: u32, feeds: &[FeedText]) -> Option<u32>
    requires some { 1 ≤ k }
    requires few { k ≤ 64 }
    ensures some { IfSome result (λ width. AreDigitFeeds k width feeds.now) }
    ensures none { (width : ℕ) → AreDigitFeeds k width feeds.now → IsSome result }
{
    if feeds.len() != k as usize {
        return None;
    }
    for width in 1..k + 1 {
        if are_digits(k, width, feeds) {
            return Some(width);
        }
    }
    None
}
