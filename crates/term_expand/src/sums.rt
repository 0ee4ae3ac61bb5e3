//! The polynomial of a sum of products.
ghost use Rattle.std.specs.Prelude.{◌<◌, ◌^◌, length, IfErr, IfOk, OnOk};
ghost use Rattle.term_expand.specs.Sums.{IsFedSum};
ghost use Rattle.term_expand.specs.Feeds.{borrowed_terms, AreReduced, IsSumPoly};
ghost use Rattle.term_expand.specs.SumListing.{IsSumRefusal, IsSumWithin};

use crate::factors::one_term;
use crate::stage::check_stage;
use crate::{SumFault, SumStage, SumTerm};
use gf_field::Field;
use poly_mixed::Poly;
use std::alloc::Global;

/// The polynomial of a sum of products where each word is fed by a polynomial, or the first stage over the bound.
///
/// There are fewer than 2^32 terms, and one feed for each word that has an exponent other than 0. The factors of a term are, for
/// each pair in order and each binary one j of its exponent from the lowest, what feeds the word to the power 2^j; a term has its
/// products with its first factors as stages, and then the sum of the terms up to it. `TooManyTerms` comes exactly at the first
/// stage of more than `bound` terms, with that number.
pub fn expand_sum<F: Field>(
    alloc: Global,
    field: &F,
    terms: &[SumTerm],
    feeds: &[&Poly],
    bound: u32,
) -> Result<Poly, SumFault>
    requires few { length terms.now < 2 ^ 32 }
    requires terms { IsFedSum (F.degree field.now) (length feeds.now) terms.now }
    requires feeds { AreReduced (F.degree field.now) (borrowed_terms feeds.now) }
    ensures polynomial { IfOk result (λ q. IsSumPoly (F.degree field.now) (F.product field.now) (borrowed_terms feeds.now) terms.now q.terms) }
    ensures within { OnOk result (IsSumWithin (F.degree field.now) (F.product field.now) (borrowed_terms feeds.now) terms.now bound) }
    ensures fault { IfErr result (IsSumRefusal (F.degree field.now) (F.product field.now) (borrowed_terms feeds.now) terms.now bound) }
{
    let mut sum = Poly::zero(alloc);
    for s in 0..terms.len() {
        let number = s as u32 + 1;
        let product = one_term(alloc, field, feeds, &terms[s], number, bound)?;
        sum.add_into(field, &product)?;
        check_stage(sum.len(), bound, SumStage::TermSum { term: number })?;
    }
    Ok(sum)
}
