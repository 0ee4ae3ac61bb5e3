//! The lines of a certificate.
ghost use Rattle.std.specs.Prelude.{◌≡◌, ◌≤◌, ◌++◌, ◌∷◌, [], codes, OnOk};
ghost use Rattle.poly_mixed.specs.Labels.{bit_count, bit_text};
ghost use Rattle.poly_mixed.specs.Text.{HasNames, HasWordNames};
ghost use Rattle.cert_make.specs.CertText.{claim_line, let_of, text_of_lines, generator_text as text_of_generator};
ghost use Rattle.cert_make.specs.Writable.{HasName};
ghost use Rattle.cert_make.specs.private.Keys.{key_text};
ghost use Rattle.cert_make.specs.private.TextSharing.{known_line, named_by};

use crate::key::Key;
use crate::multiplier::{add_known, add_numbered, add_place};
use poly_mixed::{Generator, Labels, Poly, write_poly};
use std::alloc::{AllocError, Global};

// `claim Z = POLY`
pub(crate) fn add_claim(
    alloc: Global,
    out: &mut Vec<u8>,
    claim: &Poly,
    labels: &Labels,
) -> Result<(), AllocError>
    requires named { HasNames labels.now claim.now.terms }
    requires words_named { HasWordNames labels.now claim.now.terms }
    ensures { OnOk result (out.new.items ≡ out.old.items ++ text_of_lines (claim_line labels.now claim.now.terms ∷ [])) }
{
    out.extend_from_slice(b"claim ")?;
    out.extend_from_slice(labels.output().as_bytes())?;
    out.extend_from_slice(b" = ")?;
    let text = write_poly(alloc, claim, labels)?;
    out.extend_from_slice(text.as_slice())?;
    out.push(b'\n')?;
    Ok(())
}

// `bit W[i]`
fn add_bit(out: &mut Vec<u8>, name: &str, place: u32) -> Result<(), AllocError>
    ensures { OnOk result (out.new.items ≡ out.old.items ++ (codes "bit " ++ bit_text name.now place)) }
{
    out.extend_from_slice(b"bit ")?;
    add_place(out, name, u64::from(place))?;
    Ok(())
}

// `net n` or `bit W[i]`
fn add_generator(out: &mut Vec<u8>, generator: Generator, labels: &Labels) -> Result<(), AllocError>
    requires { HasName labels.now generator }
    ensures { OnOk result (out.new.items ≡ out.old.items ++ text_of_generator labels.now generator) }
{
    match generator {
        Generator::Net(n) => add_numbered(out, b"net ", u64::from(n)),
        Generator::Bit { word, place } => add_bit(out, labels.name(word), place),
    }
}

// A multiplier by its number, or by its text where it has none.
fn add_multiplier(
    out: &mut Vec<u8>,
    number: Option<u64>,
    key: &Key,
    labels: &Labels,
) -> Result<(), AllocError>
    requires { key.now.place ≤ bit_count labels.now.words }
    ensures { OnOk result (out.new.items ≡ out.old.items ++ named_by number (key_text labels.now key.now)) }
{
    match number {
        Some(n) => add_numbered(out, b"#", n),
        None => add_known(out, key, labels),
    }
}

// The line of a pair, with the number of its multiplier where it has one, and else with the text.
pub(crate) fn add_pair(
    out: &mut Vec<u8>,
    generator: Generator,
    labels: &Labels,
    number: Option<u64>,
    key: &Key,
) -> Result<(), AllocError>
    requires named { HasName labels.now generator }
    requires place { key.now.place ≤ bit_count labels.now.words }
    ensures { OnOk result (out.new.items ≡ out.old.items ++ text_of_lines (known_line labels.now generator number key.now ∷ [])) }
{
    add_generator(out, generator, labels)?;
    out.extend_from_slice(b" : ")?;
    add_multiplier(out, number, key, labels)?;
    out.push(b'\n')?;
    Ok(())
}

// `let n : POLY`
pub(crate) fn add_let(
    out: &mut Vec<u8>,
    number: u64,
    key: &Key,
    labels: &Labels,
) -> Result<(), AllocError>
    requires { key.now.place ≤ bit_count labels.now.words }
    ensures { OnOk result (out.new.items ≡ out.old.items ++ text_of_lines (let_of number (key_text labels.now key.now) ∷ [])) }
{
    add_numbered(out, b"let ", number)?;
    out.extend_from_slice(b" : ")?;
    add_known(out, key, labels)?;
    out.push(b'\n')?;
    Ok(())
}

// The last line.
pub(crate) fn add_end(out: &mut Vec<u8>) -> Result<(), AllocError>
    ensures { OnOk result (out.new.items ≡ out.old.items ++ text_of_lines (codes "end" ∷ [])) }
{
    out.extend_from_slice(b"end\n")?;
    Ok(())
}
