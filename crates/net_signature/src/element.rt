//! Elements of a field, as numbers of 64 bits.
ghost use Rattle.std.specs.Prelude.{ℕ, map, IfSome, IfNone};
ghost use Rattle.std.specs.List.{AllZip};
ghost use Rattle.net_signature.specs.Statement.{SaysElement};
ghost use Rattle.net_signature.specs.Outcomes.{OrSyntax};
ghost use Rattle.net_signature.specs.Reading.{Fits};

use crate::fault::SigFault;
use std::alloc::Global;
use text_core::read_hex;

/// The number of a token `0x..` below 2^64.
pub fn read_element(token: &[u8]) -> Option<u64>
    ensures found { IfSome result (λ n. SaysElement token.now n) }
    ensures none { IfNone result ((n : ℕ) → SaysElement token.now n → ⊥) }
{
    match read_hex(token, u128::from(u64::MAX)) {
        Some(value) => Some(value as u64),
        None => None,
    }
}

/// The numbers of tokens of a line.
pub fn read_elements(alloc: Global, number: u32, tokens: &[&[u8]]) -> Result<Vec<u64>, SigFault>
    ensures { Fits (λ v. v.items) result (OrSyntax number (AllZip SaysElement (map (λ t. t.now) tokens.now))) }
{
    let mut elements = Vec::new(alloc);
    for token in tokens {
        let Some(element) = read_element(token) else {
            return Err(SigFault::Syntax { line: number });
        };
        elements.push(element)?;
    }
    Ok(elements)
}
