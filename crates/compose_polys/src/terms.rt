//! A block's polynomial in words as a sum of products.
ghost use Rattle.std.specs.Prelude.{◌≡◌, ◌<◌, length, slice_index, IfOk};
ghost use Rattle.poly_mixed.specs.Polynomial.{IsReduced};
ghost use Rattle.compose_polys.specs.Instance.{block_term, block_terms, powers_from};

use gf_field::Field;
use poly_mixed::{Poly, Term};
use std::alloc::{AllocError, Global};
use term_expand::SumTerm;

// The exponent of a word in a term.
fn exponent_of(term: &Term, word: u32) -> u64
    requires { word < 8 }
    ensures { result ≡ slice_index term.now.0.exponents word }
{
    term.mono().exponents()[word as usize]
}

// Each word with its exponent in a term.
fn powers_of(alloc: Global, term: &Term) -> Result<Vec<(u32, u64)>, AllocError>
    requires { length term.now.0.exponents ≡ 8 }
    ensures { IfOk result (λ powers. powers.items ≡ powers_from 0 term.now.0.exponents) }
{
    let mut powers = Vec::new(alloc);
    for word in 0..8 {
        let exponent = exponent_of(term, word);
        powers.push((word, exponent))?;
    }
    Ok(powers)
}

// A term of a block's polynomial as one of the sum.
fn sum_term(alloc: Global, term: &Term) -> Result<SumTerm, AllocError>
    requires { length term.now.0.exponents ≡ 8 }
    ensures { IfOk result (λ made. made ≡ block_term term.now) }
{
    let powers = powers_of(alloc, term)?;
    Ok(SumTerm::new(term.coefficient(), powers))
}

/// The terms of a block's polynomial as those of a sum.
pub(crate) fn sum_terms<F: Field>(
    alloc: Global,
    _field: &F,
    block: &Poly,
) -> Result<Vec<SumTerm>, AllocError>
    requires { IsReduced (F.degree _field.now) block.now.terms }
    ensures { IfOk result (λ made. made.items ≡ block_terms block.now.terms) }
{
    let terms = block.terms(alloc)?;
    let mut made = Vec::new(alloc);
    for s in 0..terms.len() {
        let term = sum_term(alloc, &terms[s])?;
        made.push(term)?;
    }
    Ok(made)
}
