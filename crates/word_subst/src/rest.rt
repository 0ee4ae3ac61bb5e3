//! The bits of a word in a term, and the rest of its monomial.
ghost use Rattle.std.specs.Prelude.{◌≡◌, ◌≤◌, ◌<◌, ◌∷◌, ◌++◌, [], not, filter, IfOk, OnOk, if◌then◌else◌};
ghost use Rattle.stage_model.specs.WordStage.{is_of_word};
ghost use Rattle.word_subst.specs.Rest.{rest_of};

use poly_mixed::Mono;
use std::alloc::{AllocError, Global};

// Whether a rank is one of a word's.
fn is_own(k: u32, word: u32, rank: u32) -> bool
    requires k { k ≤ 64 }
    requires word { word < 8 }
    ensures { result ≡ is_of_word k word rank }
{
    k * word <= rank && rank < k * word + k
}

// Adds a rank that is to be kept.
fn add_rank(rank: u32, keep: bool, list: &mut Vec<u32>) -> Result<(), AllocError>
    ensures { OnOk result (list.new.items ≡ list.old.items ++ (if keep then rank ∷ [] else [])) }
{
    if keep {
        list.push(rank)?;
    }
    Ok(())
}

/// The ranks that are a word's, 0 to 7, in their order; words have k bits, at most 64.
pub fn own_ranks(alloc: Global, ranks: &[u32], k: u32, word: u32) -> Result<Vec<u32>, AllocError>
    requires k { k ≤ 64 }
    requires word { word < 8 }
    ensures { IfOk result (λ v. v.items ≡ filter (is_of_word k word) ranks.now) }
{
    let mut list = Vec::new(alloc);
    for rank in ranks {
        add_rank(*rank, is_own(k, word, *rank), &mut list)?;
    }
    Ok(list)
}

// The ranks that are not.
fn other_ranks(alloc: Global, ranks: &[u32], k: u32, word: u32) -> Result<Vec<u32>, AllocError>
    requires k { k ≤ 64 }
    requires word { word < 8 }
    ensures { IfOk result (λ v. v.items ≡ filter (λ r. not (is_of_word k word r)) ranks.now) }
{
    let mut list = Vec::new(alloc);
    for rank in ranks {
        add_rank(*rank, !is_own(k, word, *rank), &mut list)?;
    }
    Ok(list)
}

/// The monomial without the word, 0 to 7, and without its bits.
pub fn rest(alloc: Global, mono: &Mono, k: u32, word: u32) -> Result<Mono, AllocError>
    requires k { k ≤ 64 }
    requires word { word < 8 }
    ensures { IfOk result (λ m. m ≡ rest_of k word mono.now) }
{
    let bits = other_ranks(alloc, mono.bits(), k, word)?;
    let mut exponents = *mono.exponents();
    exponents[word as usize] = 0;
    let others = Mono::new(alloc, &bits, &exponents)?;
    Ok(others)
}
