//! The basis of a word, as its token says it.
ghost use Rattle.std.specs.Prelude.{◌≡◌, ◌≢◌, ◌==◌, ◌++◌, ℕ, List, map, IfOk, IfErr, IfSome, IfNone};
ghost use Rattle.std.specs.List.{slice_split};
ghost use Rattle.net_signature.specs.Statement.{SaysBasis, IsNormalOf, IsListOf};
ghost use Rattle.net_signature.specs.Outcomes.{OrSyntax};
ghost use Rattle.net_signature.specs.Reading.{Fits};
ghost use Rattle.net_signature.specs.declared.fault.SigFault.TheVariants.{OutOfMemory};

use crate::element::{read_element, read_elements};
use crate::fault::SigFault;
use net_core::Numbers;
use net_words::BasisText;
use std::alloc::{AllocError, Global};

/// The basis that a token of a line says: `poly`, `normal:HEX` or `list:HEX,HEX,..`.
pub fn read_basis(alloc: Global, number: u32, token: &[u8]) -> Result<BasisText, SigFault>
    ensures { Fits (λ basis. basis) result (OrSyntax number (SaysBasis token.now)) }
{
    if token == b"poly".as_slice() {
        return Ok(BasisText::Poly);
    }
    if let Some(gamma) = after(token, b"normal:") {
        return normal(number, gamma);
    }
    if let Some(numbers) = after(token, b"list:") {
        return list(alloc, number, numbers);
    }
    Err(SigFault::Syntax { line: number })
}

// What stands behind a front.
fn after<'a>(token: &'a [u8], front: &[u8]) -> Option<&'a [u8]>
    ensures found { IfSome result (λ rest. token.now ≡ front.now ++ rest.now) }
    ensures none { IfNone result ((rest : List ℕ) → token.now ≡ front.now ++ rest → ⊥) }
{
    match token.strip_prefix(front) {
        Some(rest) => Some(rest),
        None => None,
    }
}

// The normal basis of an element.
fn normal(number: u32, token: &[u8]) -> Result<BasisText, SigFault>
    ensures fits { Fits (λ basis. basis) result (OrSyntax number (IsNormalOf token.now)) }
    ensures no_memory { IfErr result (λ fault. fault ≢ OutOfMemory) }
{
    match read_element(token) {
        Some(gamma) => Ok(BasisText::Normal { gamma }),
        None => Err(SigFault::Syntax { line: number }),
    }
}

// The basis of these elements.
fn list(alloc: Global, number: u32, token: &[u8]) -> Result<BasisText, SigFault>
    ensures { Fits (λ basis. basis) result (OrSyntax number (IsListOf token.now)) }
{
    let parts = split_at_commas(alloc, token)?;
    match read_elements(alloc, number, &parts) {
        Ok(list) => Ok(BasisText::Elements {
            list: Numbers::new(list),
        }),
        Err(fault) => Err(fault),
    }
}

// The parts between commas.
fn split_at_commas<'a>(alloc: Global, bytes: &'a [u8]) -> Result<Vec<&'a [u8]>, AllocError>
    ensures { IfOk result (λ v. map (λ part. part.now) v.items ≡ slice_split (λ b. b == 44) bytes.now) }
{
    bytes.split(|&b| b == b',').collect(alloc)
}
