//! The polynomial of an instance.
ghost use Rattle.std.specs.Prelude.{◌<◌, ◌^◌, length, IfErr, IfOk, OnOk};
ghost use Rattle.poly_mixed.specs.Polynomial.{IsReduced};
ghost use Rattle.poly_mixed.specs.laws.Uniqueness.{InFirstWords};
ghost use Rattle.stage_model.specs.First.{InFirstRanks};
ghost use Rattle.compose_polys.specs.Instance.{AreReduced, IsInstancePoly};
ghost use Rattle.compose_polys.specs.InstanceListing.{IsInstanceRefusal, IsInstanceWithin};
ghost use Rattle.compose_polys.specs.Words.{borrowed_terms};

use crate::names::fault_of;
use crate::terms::sum_terms;
use gf_field::Field;
use poly_mixed::{Poly, ReduceFault};
use std::alloc::Global;
use term_expand::expand_sum;

/// The polynomial of an instance, or the first stage over the bound.
///
/// The block's polynomial is in its input words alone, and there is one feed for each of these words, in their order: the
/// polynomial of what feeds it. The factors of a term are, for each word in order and each binary one j of its exponent from
/// the lowest, what feeds the word to the power 2^j; a term has its products with its first factors as stages, and then the
/// sum of the terms up to it, terms being taken in the order of a text. `TooManyTerms` comes exactly at the first stage of
/// more than `bound` terms, with that number.
pub fn instance_poly<F: Field>(
    alloc: Global,
    field: &F,
    instance: u32,
    block: &Poly,
    feeds: &[&Poly],
    bound: u32,
) -> Result<Poly, ReduceFault>
    requires block { IsReduced (F.degree field.now) block.now.terms }
    requires words { InFirstWords (length feeds.now) block.now.terms }
    requires no_bits { InFirstRanks 0 block.now.terms }
    requires few { length block.now.terms < 2 ^ 32 }
    requires feeds { AreReduced (F.degree field.now) (borrowed_terms feeds.now) }
    ensures polynomial { IfOk result (λ q. IsInstancePoly (F.degree field.now) (F.product field.now) (borrowed_terms feeds.now) block.now.terms q.terms) }
    ensures within { OnOk result (IsInstanceWithin (F.degree field.now) (F.product field.now) (borrowed_terms feeds.now) instance block.now.terms bound) }
    ensures fault { IfErr result (IsInstanceRefusal (F.degree field.now) (F.product field.now) (borrowed_terms feeds.now) instance block.now.terms bound) }
{
    let terms = sum_terms(alloc, field, block)?;
    match expand_sum(alloc, field, &terms, feeds, bound) {
        Ok(poly) => Ok(poly),
        Err(fault) => Err(fault_of(instance, fault)),
    }
}
