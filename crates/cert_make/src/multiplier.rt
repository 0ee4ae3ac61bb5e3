//! How a multiplier is written by what it is known by.
ghost use Rattle.std.specs.Prelude.{◌≡◌, ◌<◌, ◌≤◌, ◌++◌, decimal, OnOk};
ghost use Rattle.poly_mixed.specs.Labels.{bit_count, bit_text, rank_text};
ghost use Rattle.cert_make.specs.private.Keys.{factor_text, short_text, key_text};

use crate::key::Key;
use itoa::Buffer;
use poly_mixed::Labels;
use std::alloc::AllocError;
use text_core::push_hex;

/// A word and a number.
pub(crate) fn add_numbered(out: &mut Vec<u8>, word: &[u8], n: u64) -> Result<(), AllocError>
    ensures { OnOk result (out.new.items ≡ out.old.items ++ (word.now ++ decimal n)) }
{
    let mut buffer = Buffer::new();
    out.extend_from_slice(word)?;
    out.extend_from_slice(buffer.format(n).as_bytes())?;
    Ok(())
}

/// `W[i]`
pub(crate) fn add_place(out: &mut Vec<u8>, name: &str, place: u64) -> Result<(), AllocError>
    ensures { OnOk result (out.new.items ≡ out.old.items ++ bit_text name.now place) }
{
    out.extend_from_slice(name.as_bytes())?;
    add_numbered(out, b"[", place)?;
    out.push(b']')?;
    Ok(())
}

// The bit of a word that has this rank.
fn add_rank(out: &mut Vec<u8>, rank: u64, labels: &Labels) -> Result<(), AllocError>
    requires { rank < bit_count labels.now.words }
    ensures { OnOk result (out.new.items ≡ out.old.items ++ rank_text labels.now.words labels.now.nets rank) }
{
    let mut left = rank;
    for word in 0..labels.words() {
        let bits = u64::from(labels.bits(word));
        if left < bits {
            return add_place(out, labels.name(word), left);
        }
        left -= bits;
    }
    Ok(())
}

// A coefficient before a bit: `c*`, or nothing for 1.
fn add_factor(out: &mut Vec<u8>, c: u64) -> Result<(), AllocError>
    ensures { OnOk result (out.new.items ≡ out.old.items ++ factor_text c) }
{
    if c == 1 {
        return Ok(());
    }
    push_hex(out, u128::from(c))?;
    out.push(b'*')?;
    Ok(())
}

// A coefficient with the bit at a place.
fn add_scaled(out: &mut Vec<u8>, c: u64, rank: u64, labels: &Labels) -> Result<(), AllocError>
    requires { rank < bit_count labels.now.words }
    ensures { OnOk result (out.new.items ≡ out.old.items ++ (factor_text c ++ rank_text labels.now.words labels.now.nets rank)) }
{
    add_factor(out, c)?;
    add_rank(out, rank, labels)?;
    Ok(())
}

// A coefficient with what stands at a place.
fn add_short(out: &mut Vec<u8>, c: u64, place: u64, labels: &Labels) -> Result<(), AllocError>
    requires { place ≤ bit_count labels.now.words }
    ensures { OnOk result (out.new.items ≡ out.old.items ++ short_text labels.now c place) }
{
    if place == 0 {
        push_hex(out, u128::from(c))
    } else {
        add_scaled(out, c, place - 1, labels)
    }
}

/// The text of a multiplier.
pub(crate) fn add_known(out: &mut Vec<u8>, key: &Key, labels: &Labels) -> Result<(), AllocError>
    requires { key.now.place ≤ bit_count labels.now.words }
    ensures { OnOk result (out.new.items ≡ out.old.items ++ key_text labels.now key.now) }
{
    if key.coefficient() == 0 {
        out.extend_from_slice(key.bytes())
    } else {
        add_short(out, key.coefficient(), key.place(), labels)
    }
}
