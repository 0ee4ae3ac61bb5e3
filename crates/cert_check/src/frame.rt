//! What a line begins with.
ghost use Rattle.std.specs.Prelude.{◌≡◌, ◌<◌, ◌≤◌, ◌==◌, length, MatchOption, IfSome, Some};
ghost use Rattle.text_core.specs.Numbers.{value_of};
ghost use Rattle.net_core.specs.NetList.{nets};
ghost use Rattle.poly_mixed.specs.Labels.{word_of};
ghost use Rattle.cert_check.specs.Scan.{digits_at as digits_of, indexed_at as indexed_of};
ghost use Rattle.cert_check.specs.Frame.{after_generator as generator_left, net_named, bit_named, after_number as number_left, let_named, let_line as line_of_let, paired as paired_left, ended, frame_of, version_named as version_by, version_of as version_in, claim_text as text_of_claim};
ghost use Rattle.cert_check.specs.private.Scanning.{left_of};
ghost use Rattle.cert_check.specs.private.Reading.{AreDrivers, pair_left, text_left, frame_left};

use crate::drivers::has_driver;
use crate::fault::LineFault;
use crate::scan::{after_sign, after_word, digits_at, indexed_at, is_blank};
use net_core::Net;
use poly_mixed::{Generator, Labels};
use text_core::value_in_base;

/// A generator with the text of its multiplier, the text of a shared multiplier, or the end.
#[derive(Clone, Copy)]
pub(crate) enum Frame<'a> {
    Pair(Generator, &'a [u8]),
    Share(&'a [u8]),
    End,
}

/// The value of decimal digits, where it is below a limit.
pub(crate) fn below(digits: &[u8], limit: u32) -> Option<u32>
    ensures { MatchOption result (limit ≤ value_of 10 digits.now) (λ n. (n ≡ value_of 10 digits.now) × (n < limit)) }
{
    match value_in_base(digits, 10) {
        Some(n) if n < u64::from(limit) => Some(n as u32),
        _ => None,
    }
}

// The generator, with what stands after `:`.
fn after_generator(
    generator: Generator,
    rest: Option<&[u8]>,
) -> Result<(Generator, &[u8]), LineFault>
    ensures { pair_left result ≡ generator_left generator (left_of rest.entry) }
{
    match rest {
        Some(rest) => Ok((generator, rest)),
        None => Err(LineFault::Syntax),
    }
}

// A net that a gate drives, by its number.
fn net_line<'a>(
    net: &Net,
    drivers: &[Option<u32>],
    bytes: &'a [u8],
) -> Result<(Generator, &'a [u8]), LineFault>
    requires { AreDrivers net.now drivers.now }
    ensures value { pair_left result ≡ net_named net.now (digits_of bytes.now) }
{
    let Some((digits, rest)) = digits_at(bytes) else {
        return Err(LineFault::Syntax);
    };
    let Some(n) = below(digits, net.nets()) else {
        return Err(LineFault::NoSuchNet);
    };
    if has_driver(drivers, n) {
        after_generator(Generator::Net(n), after_sign(rest, b':'))
    } else {
        Err(LineFault::NotDriven)
    }
}

// The number of the word of a name.
fn word_number(labels: &Labels, name: &[u8]) -> Option<u32>
    ensures value { result ≡ word_of labels.now.words name.now }
    ensures below { IfSome result (λ w. w < length labels.now.words) }
{
    for word in 0..labels.words() {
        if labels.name(word).as_bytes() == name {
            return Some(word);
        }
    }
    None
}

// A bit of a word that the labels name.
fn bit_line<'a>(labels: &Labels, bytes: &'a [u8]) -> Result<(Generator, &'a [u8]), LineFault>
    ensures value { pair_left result ≡ bit_named labels.now (indexed_of bytes.now) }
{
    let Some((name, digits, rest)) = indexed_at(bytes) else {
        return Err(LineFault::Syntax);
    };
    let Some(word) = word_number(labels, name) else {
        return Err(LineFault::NoSuchBit);
    };
    let Some(place) = below(digits, labels.bits(word)) else {
        return Err(LineFault::NoSuchBit);
    };
    after_generator(Generator::Bit { word, place }, after_sign(rest, b':'))
}

// What stands after a sign, or a fault.
fn or_syntax(rest: Option<&[u8]>) -> Result<&[u8], LineFault>
    ensures { text_left result ≡ number_left (left_of rest.entry) }
{
    match rest {
        Some(rest) => Ok(rest),
        None => Err(LineFault::Syntax),
    }
}

// Whether digits have this value.
fn is_value(digits: &[u8], n: u32) -> bool
    ensures { result ≡ (value_of 10 digits.now == n) }
{
    value_in_base(digits, 10) == Some(u64::from(n))
}

// The text of the shared multiplier that is to have this number.
fn shared_text(count: u32, bytes: &[u8]) -> Result<&[u8], LineFault>
    ensures { text_left result ≡ let_named count (digits_of bytes.now) }
{
    match digits_at(bytes) {
        Some((digits, rest)) if is_value(digits, count) => or_syntax(after_sign(rest, b':')),
        _ => Err(LineFault::Syntax),
    }
}

// A shared multiplier, in version 2.
fn let_line(version: u32, count: u32, bytes: &[u8]) -> Result<Frame<'_>, LineFault>
    ensures { frame_left result ≡ line_of_let version count bytes.now }
{
    if version == 2 {
        match shared_text(count, bytes) {
            Ok(text) => Ok(Frame::Share(text)),
            Err(fault) => Err(fault),
        }
    } else {
        Err(LineFault::Syntax)
    }
}

// The end, after which nothing stands.
fn end_line(bytes: &[u8]) -> Result<Frame<'_>, LineFault>
    ensures { frame_left result ≡ ended bytes.now }
{
    if is_blank(bytes) {
        Ok(Frame::End)
    } else {
        Err(LineFault::Syntax)
    }
}

// A generator with the text of its multiplier.
fn paired<'a>(found: Result<(Generator, &'a [u8]), LineFault>) -> Result<Frame<'a>, LineFault>
    ensures { frame_left result ≡ paired_left (pair_left found.entry) }
{
    match found {
        Ok((generator, text)) => Ok(Frame::Pair(generator, text)),
        Err(fault) => Err(fault),
    }
}

/// What a line after the claim begins with, where so many shared multipliers stand before it.
pub(crate) fn frame_at<'a>(
    net: &Net,
    drivers: &[Option<u32>],
    labels: &Labels,
    version: u32,
    count: u32,
    line: &'a [u8],
) -> Result<Frame<'a>, LineFault>
    requires { AreDrivers net.now drivers.now }
    ensures value { frame_left result ≡ frame_of net.now labels.now version count line.now }
{
    if let Some(rest) = after_word(line, b"net") {
        return paired(net_line(net, drivers, rest));
    }
    if let Some(rest) = after_word(line, b"bit") {
        return paired(bit_line(labels, rest));
    }
    if let Some(rest) = after_word(line, b"let") {
        return let_line(version, count, rest);
    }
    match after_word(line, b"end") {
        Some(rest) => end_line(rest),
        None => Err(LineFault::Syntax),
    }
}

// The version of digits after which nothing stands.
fn version_named(digits: &[u8], rest: &[u8]) -> Result<u32, LineFault>
    ensures { result ≡ version_by (Some (digits.now, rest.now)) }
{
    if !is_blank(rest) {
        return Err(LineFault::Syntax);
    }
    if digits == b"1".as_slice() {
        Ok(1)
    } else if digits == b"2".as_slice() {
        Ok(2)
    } else {
        Err(LineFault::Syntax)
    }
}

/// The version in the first line.
pub(crate) fn version_of(line: &[u8]) -> Result<u32, LineFault>
    ensures { result ≡ version_in line.now }
{
    let Some(rest) = after_word(line, b"gfcert") else {
        return Err(LineFault::Syntax);
    };
    match digits_at(rest) {
        Some((digits, rest)) => version_named(digits, rest),
        None => Err(LineFault::Syntax),
    }
}

/// The text of the claim in the second line.
pub(crate) fn claim_text<'a>(labels: &Labels, line: &'a [u8]) -> Result<&'a [u8], LineFault>
    ensures { text_left result ≡ text_of_claim labels.now line.now }
{
    let Some(rest) = after_word(line, b"claim") else {
        return Err(LineFault::Syntax);
    };
    match after_word(rest, labels.output().as_bytes()) {
        Some(rest) => or_syntax(after_sign(rest, b'=')),
        None => Err(LineFault::Syntax),
    }
}
