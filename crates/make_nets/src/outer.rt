//! The nets of a signature's words, by name.
ghost use Rattle.std.specs.Prelude.{◌≡◌, ◌<◌, ◌≤◌, ◌+◌, ◌++◌, [], ◌∷◌, ◌↔◌, true, IfOk, IfSome, IsSome, OnOk, IsTrue, List, Some, ℕ, length, map};
ghost use Rattle.lists.specs.Limits.{most_nets};
ghost use Rattle.net_core.specs.Inside.{IsNetName};
ghost use Rattle.net_core.specs.NetList.{empty, nets, number_of, with_name};
ghost use Rattle.net_write.specs.Plain.{IsPlainByte, IsPlainName};
ghost use Rattle.make_nets.specs.MadeNet.{outer_net};
ghost use Rattle.make_nets.specs.MakerNames.{AreMade, AreMakerNames, IsMakerName};
ghost use Rattle.make_nets.specs.Ports.{outer_names, word_names};

use crate::ports::count_of;
use net_core::{Name, NetFault, NetMaker};
use net_words::{FeedText, WordText};
use std::alloc::{AllocError, Global};

// Whether a byte may stand in a plain name.
fn is_plain_byte(byte: u8) -> bool
    ensures { IsTrue result ↔ IsPlainByte byte }
{
    byte > b' ' && byte <= b'~' && byte != b'#' && byte != b'\\'
}

// Whether all bytes of a name are such.
fn is_plain(name: &str) -> bool
    ensures { IsTrue result ↔ IsPlainName name.now }
{
    name.as_bytes().iter().all(|byte| is_plain_byte(*byte))
}

// Whether a net that a maker names may have the name.
fn is_maker_name(name: &str) -> bool
    ensures { IsTrue result ↔ IsMakerName name.now }
{
    let long = name.as_bytes().len();
    1 <= long && long <= 128 && is_plain(name)
}

// The number of the net of this name, which is made if there is none.
pub(crate) fn named(maker: &mut NetMaker, name: &str) -> Result<u32, AllocError>
    requires name { IsNetName name.now }
    requires room { nets maker.old < most_nets }
    ensures number { IfOk result (λ n. number_of maker.new name.now ≡ Some n) }
    ensures made { OnOk result (maker.new ≡ with_name maker.old name.now) }
{
    match maker.net(name) {
        Ok(number) => Ok(number),
        Err(NetFault::OutOfMemory) => Err(AllocError),
        Err(_) => unreachable!(),
    }
}

// Makes a net of this name after so many others, if it is a name that it may have and no other net has.
fn add_name(maker: &mut NetMaker, count: u32, name: &str) -> Result<bool, AllocError>
    requires before { (names : List (List ℕ)) × AreMade names maker.old true × (length names ≡ count) }
    requires room { count < most_nets }
    ensures { IfOk result (λ all. (names : List (List ℕ)) → AreMade names maker.old true → AreMade (names ++ name.now ∷ []) maker.new all) }
{
    if !is_maker_name(name) {
        return Ok(false);
    }
    let number = named(maker, name)?;
    Ok(number == count)
}

// Makes nets of these names after so many others.
fn add_names(maker: &mut NetMaker, count: u32, list: &[Name]) -> Result<bool, AllocError>
    requires before { (names : List (List ℕ)) × AreMade names maker.old true × (length names ≡ count) }
    requires room { count + length list.now ≤ most_nets }
    ensures { IfOk result (λ all. (names : List (List ℕ)) → AreMade names maker.old true → AreMade (names ++ list.now) maker.new all) }
{
    let mut count = count;
    for name in list {
        if !add_name(maker, count, name.as_str())? {
            return Ok(false);
        }
        count += 1;
    }
    Ok(true)
}

// Makes nets of the names of words, after so many others.
fn add_word_names(maker: &mut NetMaker, words: &[WordText]) -> Result<bool, AllocError>
    requires before { maker.old ≡ empty }
    requires room { length (word_names words.now) ≤ most_nets }
    ensures { IfOk result (λ all. AreMade (word_names words.now) maker.new all) }
{
    let mut count = 0;
    for word in words {
        if !add_names(maker, count, word.nets.as_slice())? {
            return Ok(false);
        }
        count += word.nets.as_slice().len() as u32;
    }
    Ok(true)
}

// Makes nets of the names of fed nets, after so many others.
fn add_fed_names(maker: &mut NetMaker, count: u32, feeds: &[FeedText]) -> Result<bool, AllocError>
    requires before { (names : List (List ℕ)) × AreMade names maker.old true × (length names ≡ count) }
    requires room { count + length feeds.now ≤ most_nets }
    ensures { IfOk result (λ all. (names : List (List ℕ)) → AreMade names maker.old true → AreMade (names ++ map (λ feed. feed.net) feeds.now) maker.new all) }
{
    let mut count = count;
    for feed in feeds {
        if !add_name(maker, count, feed.net.as_str())? {
            return Ok(false);
        }
        count += 1;
    }
    Ok(true)
}

/// The nets of a signature's words and of its fed nets, by name, word by word and by place, and then the fed ones; none where
/// these are no names of at most 128 plain bytes, or where two are the same. It answers nothing but this, or runs out of memory.
pub fn outer_nets(
    alloc: Global,
    words: &[WordText],
    feeds: &[FeedText],
) -> Result<Option<NetMaker>, AllocError>
    requires { length (outer_names words.now (map (λ feed. feed.net) feeds.now)) ≤ most_nets }
    ensures made { IfOk result (λ found. IfSome found (λ maker. maker ≡ outer_net (outer_names words.now (map (λ feed. feed.net) feeds.now)))) }
    ensures names { IfOk result (λ found. IsSome found ↔ AreMakerNames (outer_names words.now (map (λ feed. feed.net) feeds.now))) }
{
    let mut maker = NetMaker::new(alloc);
    if !add_word_names(&mut maker, words)? {
        return Ok(None);
    }
    if !add_fed_names(&mut maker, count_of(words), feeds)? {
        return Ok(None);
    }
    Ok(Some(maker))
}
