//! The reader of signatures.
ghost use Rattle.std.specs.Prelude.{◌≤◌, length};
ghost use Rattle.outcome.specs.Outcome.{Returns};
ghost use Rattle.net_signature.specs.Body.{begun, Reads, blocks_whole, whole as whole_parts};
ghost use Rattle.net_signature.specs.Signature.{SignatureOf, Sig, WholeSignature};
ghost use Rattle.net_signature.specs.Reading.{Fits, left, end_of};

use crate::blocks::Block;
use crate::body::Body;
use crate::fault::SigFault;
use crate::head::{read_field, read_tower, read_version};
use crate::lines::Lines;
use crate::signature::Signature;
use crate::version::Version;
use crate::words::has_output;
use net_core::{Name, Numbers, key_of};
use net_words::WordText;
use std::alloc::Global;

/// The signature of a text of at most 67,108,864 bytes, or its first fault: line by line Syntax, NameTwice, NoFedWord,
/// FeedTwice, TwoOutputs and TooManyWords, and after the last line NoOutput, of the top and then of the first block.
pub fn read_signature(alloc: Global, bytes: &[u8]) -> Result<Signature, SigFault>
    requires { length bytes.now ≤ 67108864 }
    ensures { Fits (λ signature. signature) result (Sig bytes.now) }
{
    let mut lines = Lines::new(alloc, bytes);
    read_lines(alloc, &mut lines, key_of(bytes))
}

// The signature of the lines that are left.
fn read_lines(alloc: Global, lines: &mut Lines, key: u64) -> Result<Signature, SigFault>
    ensures { Fits (λ signature. signature) result (SignatureOf (end_of lines.old) (left lines.old)) }
{
    let version = match read_version(lines) {
        Ok(version) => version,
        Err(fault) => return Err(fault),
    };
    let modulus = match read_field(lines) {
        Ok(modulus) => modulus,
        Err(fault) => return Err(fault),
    };
    let tower = match read_tower(alloc, lines, true) {
        Ok(tower) => tower,
        Err(fault) => return Err(fault),
    };
    let upper = match read_tower(alloc, lines, version.has_feeds()) {
        Ok(upper) => upper,
        Err(fault) => return Err(fault),
    };
    let body = match read_body(alloc, lines, version, key) {
        Ok(body) => body,
        Err(fault) => return Err(fault),
    };
    signature_of(
        alloc,
        modulus,
        Numbers::new(tower),
        Numbers::new(upper),
        body,
    )
}

// What the lines after the towers say.
fn read_body(alloc: Global, lines: &mut Lines, version: Version, key: u64) -> Result<Body, SigFault>
    ensures { Fits (λ body. body) result (Reads (begun version) (left lines.old)) }
{
    let mut body = Body::new(alloc, version, key);
    match read_on(alloc, lines, &mut body) {
        Ok(()) => Ok(body),
        Err(fault) => Err(fault),
    }
}

// Adds what the lines that are left say. A fault leaves some body.
fn read_on(alloc: Global, lines: &mut Lines, body: &mut Body) -> Result<(), SigFault>
    ensures { Fits (λ u. body.new) result (Reads body.old (left lines.old)) }
{
    while let Some(line) = lines.next()? {
        match body.read_line(alloc, &line) {
            Ok(()) => {}
            Err(fault) => return Err(fault),
        }
    }
    Ok(())
}

// The signature of these parts, if no output word is missing.
fn signature_of(
    alloc: Global,
    modulus: u128,
    tower: Numbers<u64>,
    upper: Numbers<u64>,
    body: Body,
) -> Result<Signature, SigFault>
    ensures { Fits (λ signature. signature) result (WholeSignature modulus tower upper body) }
{
    let (words, feeds, blocks) = body.finish(alloc)?;
    match check_outputs(alloc, &words, &blocks) {
        Ok(()) => Ok(Signature::of_parts(modulus, tower, upper, words, feeds, blocks)),
        Err(fault) => Err(fault),
    }
}

// Refuses a top or a block without an output word.
fn check_outputs(alloc: Global, words: &[WordText], blocks: &[Block]) -> Result<(), SigFault>
    ensures { Fits (λ u. tt) result (Returns (whole_parts words.now blocks.now)) }
{
    if has_output(words) {
        check_blocks(alloc, blocks)
    } else {
        Err(SigFault::NoOutput { block: None })
    }
}

// Refuses a block without an output word.
fn check_blocks(alloc: Global, blocks: &[Block]) -> Result<(), SigFault>
    ensures { Fits (λ u. tt) result (Returns (blocks_whole blocks.now)) }
{
    for block in blocks {
        if !has_output(block.words()) {
            let model = Name::new(alloc, block.model())?;
            return Err(SigFault::NoOutput { block: Some(model) });
        }
    }
    Ok(())
}
