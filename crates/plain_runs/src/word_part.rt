//! The bits of a word in a term, and the rest of the term.
ghost use Rattle.std.specs.Prelude.{◌≡◌, ◌≤◌, ◌<◌, ◌∷◌, ◌++◌, [], not, filter, IfOk, OnOk, if◌then◌else◌};
ghost use Rattle.gf_basis.specs.BasisParts.{elements_of};
ghost use Rattle.poly_mixed.specs.Polynomial.{IsTerm};
ghost use Rattle.stage_model.specs.WordStage.{is_of_word};
ghost use Rattle.stage_model.specs.PlainWord.{IsProductOf};

use gf_basis::Basis;
use gf_field::Field;
use poly_mixed::{Mono, Poly, Term};
use std::alloc::{AllocError, Global};

// Whether a rank is one of a word's.
fn is_own(k: u32, word: u32, rank: u32) -> bool
    requires k { k ≤ 64 }
    requires word { word < 8 }
    ensures { result ≡ is_of_word k word rank }
{
    k * word <= rank && rank < k * word + k
}

// Adds a rank that is to be kept.
fn add_rank(rank: u32, keep: bool, list: &mut Vec<u32>) -> Result<(), AllocError>
    ensures { OnOk result (list.new.items ≡ list.old.items ++ (if keep then rank ∷ [] else [])) }
{
    if keep {
        list.push(rank)?;
    }
    Ok(())
}

/// The ranks that are a word's, in their order, for words of k bits, at most 64; the word is 0 to 7.
pub fn own_ranks(alloc: Global, ranks: &[u32], k: u32, word: u32) -> Result<Vec<u32>, AllocError>
    requires k { k ≤ 64 }
    requires word { word < 8 }
    ensures { IfOk result (λ v. v.items ≡ filter (is_of_word k word) ranks.now) }
{
    let mut list = Vec::new(alloc);
    for rank in ranks {
        add_rank(*rank, is_own(k, word, *rank), &mut list)?;
    }
    Ok(list)
}

// The ranks that are not.
fn other_ranks(alloc: Global, ranks: &[u32], k: u32, word: u32) -> Result<Vec<u32>, AllocError>
    requires k { k ≤ 64 }
    requires word { word < 8 }
    ensures { IfOk result (λ v. v.items ≡ filter (λ r. not (is_of_word k word r)) ranks.now) }
{
    let mut list = Vec::new(alloc);
    for rank in ranks {
        add_rank(*rank, !is_own(k, word, *rank), &mut list)?;
    }
    Ok(list)
}

/// The term without its bits of a word, 0 to 7; the field has k bits, and so has each word.
pub fn other_part<F: Field>(
    alloc: Global,
    field: &F,
    basis: &Basis,
    word: u32,
    term: &Term,
) -> Result<Poly, AllocError>
    requires word { word < 8 }
    requires term { IsTerm (F.degree field.now) term.now }
    ensures { IfOk result (λ q. IsProductOf (F.degree field.now) (F.product field.now) (elements_of basis.now) word term.now 0 q.terms) }
{
    let rest = other_ranks(alloc, term.mono().bits(), field.k(), word)?;
    let mono = Mono::new(alloc, &rest, term.mono().exponents())?;
    let poly = Poly::term(alloc, field, term.coefficient(), mono)?;
    Ok(poly)
}
