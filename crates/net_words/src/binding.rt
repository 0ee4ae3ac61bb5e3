//! The binding of words to nets.
ghost use Rattle.std.specs.Prelude.{◌≡◌, ◌≤◌, ◌&&◌, ◌<◌, ℕ, [], length, map, IfOk};
ghost use Rattle.outcome.specs.Outcome.{Returns};
ghost use Rattle.net_core.specs.NetList.{NetList, nets as nets_of, number_of};
ghost use Rattle.net_core.specs.Sound.{IsSound};
ghost use Rattle.net_words.specs.Binding.{AreWords};
ghost use Rattle.net_words.specs.Bind.{is_latch, is_used, is_uncovered as is_uncovered_net, with_role, names_with, place_net, taken_with, NetsOf, BoundOf, IsCovered, started, BindingOf, bits_of as bits_of_words, is_unknown as is_unknown_start};
ghost use Rattle.net_words.specs.BindReading.{AreMarks, FitsBinding};
ghost use Rattle.net_words.specs.BoundTo.{IsBoundTo};
ghost use Rattle.net_words.specs.Feeds.{AreFeeds, is_fed};
ghost use Rattle.net_words.specs.OneCycle.{IsFlat, IsOneCycle};
ghost use Rattle.net_words.specs.Roles.{stands_in, in_word as is_in_word, same_role as is_same_role};
ghost use Rattle.net_words.specs.declared.binding.BindFault.TheVariants.{OutOfMemory};
ghost use Rattle.net_words.specs.declared.word.Role.TheVariants.{Fed, Input};

use crate::bound::{Bound, BoundWord};
use crate::feed::{Feed, FeedText};
use crate::feeds::{bind_feeds, fed_marks};
use crate::marks::{input_marks, is_marked, latch_marks, same_role, used_marks, word_marks};
use crate::order::ordered;
use crate::word::{Role, WordText};
use net_core::{Latch, Name, Net, Numbers, Start};
use std::alloc::{AllocError, AllocFailed, Global};
use thiserror::Error;

/// Why words can't be bound to a netlist. Words and places count from 0.
#[derive(Debug, Drop, Error)]
pub enum BindFault {
    /// No named net has the name.
    #[error("no net for place {place} of word {word}")]
    NoSuchNet { word: u32, place: u32 },
    /// The word is an input and the net is no primary input.
    #[error("place {place} of word {word} is no input")]
    NotInput { word: u32, place: u32 },
    /// The word is a state and the net is no latch's output.
    #[error("place {place} of word {word} is no latch")]
    NotLatch { word: u32, place: u32 },
    /// The net stands twice in input and state words.
    #[error("net {net} stands twice")]
    NetTwice { net: u32 },
    /// The net of a feed is no named net, or no primary input, or stands in an input word.
    #[error("feed at line {line} is no free input")]
    FeedNotFree { line: u32 },
    /// A primary input in no input word and no feed that something depends on.
    #[error("input {net} is in no word")]
    Uncovered { net: u32 },
    /// A latch with an unknown start in no state word.
    #[error("latch {net} has no start")]
    UnknownStart { net: u32 },
    /// Out of memory.
    #[error("out of memory")]
    OutOfMemory,
}

impl From<AllocError> for BindFault {
    ghost from_gives = { λ _ e. e ≡ OutOfMemory };

    fn from(_error: AllocError) -> BindFault {
        BindFault::OutOfMemory
    }
}

impl<T: Drop> From<AllocFailed<T>> for BindFault {
    ghost from_gives = { λ _ e. e ≡ OutOfMemory };

    fn from(_error: AllocFailed<T>) -> BindFault {
        BindFault::OutOfMemory
    }
}

/// Binds words and feeds to the nets of a netlist, or gives the first fault: word by word and place by place `NoSuchNet`,
/// `NotInput`, `NotLatch` and `NetTwice`; then `FeedNotFree`, at the first such feed; then `Uncovered`, the least such net;
/// then `UnknownStart`, the first such latch. Each word that is not fed has k nets for one k from 1 to 64, one is the
/// output word, and at most 8 are others; a feed's source is a constant, or a place below k of a fed word; and no two
/// feeds have the same net and cycle. A fed word gets no nets. That the net is sound is said once more.
pub fn bind(
    alloc: Global,
    words: &[WordText],
    feeds: &[FeedText],
    net: &Net,
) -> Result<Bound, BindFault>
    requires words { (k : ℕ) × AreWords k words.now × AreFeeds k (map (λ word. word.role) words.now) feeds.now }
    ensures fits { FitsBinding (λ bound. bound) result (BindingOf net.now words.now feeds.now) }
    ensures nets { IfOk result (λ bound. bound.nets ≡ nets_of net.now) }
    ensures bound { IfOk result (λ bound. IsBoundTo net.now bound) }
    ensures one_cycle { IfOk result (λ bound. IsFlat net.now bound → IsOneCycle net.now bound) }
    ensures sound { IsSound net.now }
{
    let held = net.latches();
    let inputs = input_marks(alloc, net)?;
    let latches = latch_marks(alloc, net)?;
    let mut taken = Vec::new(alloc);
    bind_marked(
        alloc, words, feeds, net, held, &inputs, &latches, &mut taken,
    )
}

// The words and feeds with their nets, where these are the marks of the primary inputs and of the outputs of latches.
fn bind_marked(
    alloc: Global,
    words: &[WordText],
    feeds: &[FeedText],
    net: &Net,
    held: &[Latch],
    inputs: &[bool],
    latches: &[bool],
    taken: &mut Vec<u32>,
) -> Result<Bound, BindFault>
    requires words { (k : ℕ) × AreWords k words.now × AreFeeds k (map (λ word. word.role) words.now) feeds.now }
    requires held { held.now ≡ net.now.latches }
    requires inputs { AreMarks (nets_of net.now) (stands_in net.now.inputs) inputs.now }
    requires latches { AreMarks (nets_of net.now) (is_latch net.now) latches.now }
    requires taken { taken.old.items ≡ [] }
    ensures { FitsBinding (λ bound. bound) result (BindingOf net.now words.now feeds.now) }
{
    let k = bits_of(words);
    let bound = match bind_words(alloc, k, words, net, inputs, latches, taken) {
        Ok(bound) => bound,
        Err(fault) => return Err(fault),
    };
    let fed = match bind_feeds(alloc, feeds, net, &bound, inputs) {
        Ok(fed) => fed,
        Err(fault) => return Err(fault),
    };
    match check_covered(alloc, net, &bound, &fed, inputs) {
        Ok(()) => {}
        Err(fault) => return Err(fault),
    }
    match check_started(&bound, held) {
        Ok(()) => {}
        Err(fault) => return Err(fault),
    }
    let bound = ordered(alloc, k, bound, fed, net)?;
    Ok(bound)
}

// How many nets each word has that is not fed.
fn bits_of(words: &[WordText]) -> u32
    requires { (k : ℕ) × AreWords k words.now }
    ensures words { AreWords result words.now }
    ensures bits { result ≡ bits_of_words words.now }
{
    for word in words {
        if !same_role(word.role, Role::Fed) {
            return word.nets.as_slice().len() as u32;
        }
    }
    0
}

// The words with their nets.
fn bind_words(
    alloc: Global,
    _k: u32,
    words: &[WordText],
    net: &Net,
    inputs: &[bool],
    latches: &[bool],
    taken: &mut Vec<u32>,
) -> Result<Vec<BoundWord>, BindFault>
    requires words { AreWords _k words.now }
    requires inputs { AreMarks (nets_of net.now) (stands_in net.now.inputs) inputs.now }
    requires latches { AreMarks (nets_of net.now) (is_latch net.now) latches.now }
    ensures fits { FitsBinding (λ bound. (bound.items, taken.new.items)) result (BoundOf net.now taken.old.items [] words.now) }
{
    let mut bound = Vec::new(alloc);
    for (i, word) in words.iter().enumerate() {
        let nets = match bind_word(alloc, i as u32, word, net, inputs, latches, taken) {
            Ok(nets) => nets,
            Err(fault) => return Err(fault),
        };
        bound.push(BoundWord {
            name: Name::new(alloc, word.name.as_str())?,
            role: word.role,
            nets: Numbers::new(nets),
        })?;
    }
    Ok(bound)
}

// The nets of a word.
fn bind_word(
    alloc: Global,
    number: u32,
    word: &WordText,
    net: &Net,
    inputs: &[bool],
    latches: &[bool],
    taken: &mut Vec<u32>,
) -> Result<Vec<u32>, BindFault>
    requires few { (word.now.role ≡ Fed → ⊥) → length word.now.nets ≤ 64 }
    requires inputs { AreMarks (nets_of net.now) (stands_in net.now.inputs) inputs.now }
    requires latches { AreMarks (nets_of net.now) (is_latch net.now) latches.now }
    ensures fits { FitsBinding (λ nets. (nets.items, taken.new.items)) result (NetsOf net.now number word.now.role taken.old.items [] (names_with word.now.role word.now.nets)) }
{
    match word.role {
        Role::Fed => Ok(Vec::new(alloc)),
        Role::Input | Role::State | Role::Output => bind_places(
            alloc,
            number,
            word.role,
            word.nets.as_slice(),
            net,
            inputs,
            latches,
            taken,
        ),
    }
}

// The nets of a word's places.
fn bind_places(
    alloc: Global,
    number: u32,
    role: Role,
    names: &[Name],
    net: &Net,
    inputs: &[bool],
    latches: &[bool],
    taken: &mut Vec<u32>,
) -> Result<Vec<u32>, BindFault>
    requires few { length names.now ≤ 64 }
    requires inputs { AreMarks (nets_of net.now) (stands_in net.now.inputs) inputs.now }
    requires latches { AreMarks (nets_of net.now) (is_latch net.now) latches.now }
    ensures fits { FitsBinding (λ nets. (nets.items, taken.new.items)) result (NetsOf net.now number role taken.old.items [] names.now) }
{
    let mut nets = Vec::new(alloc);
    for (i, name) in names.iter().enumerate() {
        let text = name.as_str();
        let found = match bind_place(number, i as u32, role, text, net, inputs, latches, taken) {
            Ok(found) => found,
            Err(fault) => return Err(fault),
        };
        nets.push(found)?;
    }
    Ok(nets)
}

// The net of a place.
fn bind_place(
    word: u32,
    place: u32,
    role: Role,
    name: &str,
    net: &Net,
    inputs: &[bool],
    latches: &[bool],
    taken: &mut Vec<u32>,
) -> Result<u32, BindFault>
    requires inputs { AreMarks (nets_of net.now) (stands_in net.now.inputs) inputs.now }
    requires latches { AreMarks (nets_of net.now) (is_latch net.now) latches.now }
    ensures fits { FitsBinding (λ n. n) result (Returns (place_net net.now word place taken.old.items role (number_of net.now name.now))) }
    ensures taken { IfOk result (λ n. taken.new.items ≡ taken_with role n taken.old.items) }
{
    match net.find(name) {
        Some(found) => {
            let input = is_marked(inputs, found);
            let latch = is_marked(latches, found);
            take_net(word, place, role, found, input, latch, taken)
        }
        None => Err(BindFault::NoSuchNet { word, place }),
    }
}

// Takes a net as a bit of a word, where it is a primary input or a latch's output or neither.
fn take_net(
    word: u32,
    place: u32,
    role: Role,
    found: u32,
    input: bool,
    latch: bool,
    taken: &mut Vec<u32>,
) -> Result<u32, BindFault>
    ensures fits { (net : NetList) → input ≡ stands_in net.inputs found → latch ≡ is_latch net found → FitsBinding (λ n. n) result (Returns (with_role net word place taken.old.items role found)) }
    ensures net { IfOk result (λ n. n ≡ found) }
    ensures taken { IfOk result (λ n. taken.new.items ≡ taken_with role n taken.old.items) }
{
    match role {
        Role::Input => {
            if !input {
                return Err(BindFault::NotInput { word, place });
            }
        }
        Role::State => {
            if !latch {
                return Err(BindFault::NotLatch { word, place });
            }
        }
        Role::Fed => return Err(BindFault::NotInput { word, place }),
        Role::Output => return Ok(found),
    }
    if taken.as_slice().contains(&found) {
        return Err(BindFault::NetTwice { net: found });
    }
    taken.push(found)?;
    Ok(found)
}

// Refuses the least primary input in no input word and no feed that something depends on.
fn check_covered(
    alloc: Global,
    net: &Net,
    words: &[BoundWord],
    feeds: &[Feed],
    inputs: &[bool],
) -> Result<(), BindFault>
    requires inputs { AreMarks (nets_of net.now) (stands_in net.now.inputs) inputs.now }
    ensures { FitsBinding (λ u. tt) result (IsCovered net.now words.now feeds.now) }
{
    let held = word_marks(alloc, net, words, Role::Input)?;
    let fed = fed_marks(alloc, net, feeds)?;
    let used = used_marks(alloc, net, words)?;
    check_marked(net, words, feeds, inputs, &held, &fed, &used)
}

// Refuses the least net that is uncovered by these marks.
fn check_marked(
    net: &Net,
    words: &[BoundWord],
    feeds: &[Feed],
    inputs: &[bool],
    held: &[bool],
    fed: &[bool],
    used: &[bool],
) -> Result<(), BindFault>
    requires inputs { AreMarks (nets_of net.now) (stands_in net.now.inputs) inputs.now }
    requires held { AreMarks (nets_of net.now) (is_in_word Input words.now) held.now }
    requires fed { AreMarks (nets_of net.now) (is_fed feeds.now) fed.now }
    requires used { AreMarks (nets_of net.now) (is_used net.now words.now) used.now }
    ensures { FitsBinding (λ u. tt) result (IsCovered net.now words.now feeds.now) }
{
    for number in 0..net.nets() {
        if is_uncovered(net, words, feeds, inputs, held, fed, used, number) {
            return Err(BindFault::Uncovered { net: number });
        }
    }
    Ok(())
}

// Whether a primary input is in no input word and no feed and something depends on it.
fn is_uncovered(
    _net: &Net,
    _words: &[BoundWord],
    _feeds: &[Feed],
    inputs: &[bool],
    held: &[bool],
    fed: &[bool],
    used: &[bool],
    number: u32,
) -> bool
    requires inputs { AreMarks (nets_of _net.now) (stands_in _net.now.inputs) inputs.now }
    requires held { AreMarks (nets_of _net.now) (is_in_word Input _words.now) held.now }
    requires fed { AreMarks (nets_of _net.now) (is_fed _feeds.now) fed.now }
    requires used { AreMarks (nets_of _net.now) (is_used _net.now _words.now) used.now }
    requires within { number < nets_of _net.now }
    ensures { result ≡ is_uncovered_net _net.now _words.now _feeds.now number }
{
    is_marked(inputs, number)
        && !is_marked(held, number)
        && !is_marked(fed, number)
        && is_marked(used, number)
}

// Refuses the first latch with an unknown start that is in no state word.
fn check_started(words: &[BoundWord], latches: &[Latch]) -> Result<(), BindFault>
    ensures fits { FitsBinding (λ u. tt) result (Returns (started words.now latches.now)) }
    ensures is { result ≡ started words.now latches.now }
{
    for latch in latches {
        if is_unknown(latch.start) && !in_word(Role::State, words, latch.out) {
            return Err(BindFault::UnknownStart { net: latch.out });
        }
    }
    Ok(())
}

// Whether a start is unknown.
fn is_unknown(start: Start) -> bool
    ensures { result ≡ is_unknown_start start }
{
    start == Start::Unknown
}

// Whether a net stands in a word with this role.
fn in_word(role: Role, words: &[BoundWord], net: u32) -> bool
    ensures { result ≡ is_in_word role words.now net }
{
    words.iter().any(|word| stands_in_word(role, word, net))
}

// Whether the word has this role and the net.
fn stands_in_word(role: Role, word: &BoundWord, net: u32) -> bool
    ensures { result ≡ (is_same_role word.now.role role && stands_in word.now.nets net) }
{
    same_role(word.role, role) && word.nets.as_slice().contains(&net)
}
