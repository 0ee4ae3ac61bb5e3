//! The polynomials of instances.
ghost use Rattle.std.specs.Prelude.{◌≡◌, ◌<◌, ◌+◌, ℕ, [], length, map, replicate, slice_get, Some, IfErr, IfOk, OnOk};
ghost use Rattle.compose_polys.specs.Instance.{AreReduced, IsInstancePoly};
ghost use Rattle.compose_model.specs.declared.feeder.Feeder.{Feeder as FeederValue};
ghost use Rattle.compose_model.specs.Wiring.{rows_in};
ghost use Rattle.compose_polys.specs.Words.{IsBlockFor, IsFeedAmong, borrowed_terms, feed_polys, terms_of};
ghost use Rattle.compose_polys.specs.Instances.{IsReady, IsRefused, AreAllDone};
ghost use Rattle.compose_polys.specs.InstanceListing.{IsInstanceRefusal, IsInstanceWithin};

use crate::feeds::polys_of;
use crate::instance::instance_poly;
use compose_model::Feeder;
use gf_field::Field;
use poly_mixed::{Poly, ReduceFault};
use std::alloc::{AllocError, Global};

// So many polynomials without terms.
fn zeros(alloc: Global, count: usize) -> Result<Vec<Poly>, AllocError>
    ensures { IfOk result (λ polys. map (λ q. q.terms) polys.items ≡ replicate count []) }
{
    let mut polys = Vec::new(alloc);
    for _ in 0..count {
        polys.push(Poly::zero(alloc))?;
    }
    Ok(polys)
}

// The polynomial of one instance, at those of the words and of other instances.
fn one_instance<F: Field>(
    alloc: Global,
    field: &F,
    words: &[Poly],
    polys: &[Poly],
    feeds: &[Feeder],
    block: &Poly,
    instance: u32,
    bound: u32,
) -> Result<Poly, ReduceFault>
    requires words { AreReduced (F.degree field.now) (terms_of words.now) }
    requires polys { AreReduced (F.degree field.now) (terms_of polys.now) }
    requires feeds { (j : ℕ) (feed : FeederValue) → slice_get feeds.now j ≡ Some feed → IsFeedAmong (length words.now) (length polys.now) feed }
    requires block { IsBlockFor (F.degree field.now) feeds.now block.now.terms }
    ensures polynomial { IfOk result (λ q. IsInstancePoly (F.degree field.now) (F.product field.now) (feed_polys words.now polys.now feeds.now) block.now.terms q.terms) }
    ensures within { OnOk result (IsInstanceWithin (F.degree field.now) (F.product field.now) (feed_polys words.now polys.now feeds.now) instance block.now.terms bound) }
    ensures fault { IfErr result (IsInstanceRefusal (F.degree field.now) (F.product field.now) (feed_polys words.now polys.now feeds.now) instance block.now.terms bound) }
{
    let list = polys_of(alloc, words, polys, feeds)?;
    instance_poly(alloc, field, instance, block, &list, bound)
}

/// The polynomials of the instances of a top by their numbers, or the first stage over the bound.
///
/// The top's input words have polynomials, and each instance the polynomial of its block in words and what feeds it, feed by
/// feed in the order of the block's words. The instances are taken in this order, in which each stands once, after those that
/// feed it; one that does not stand in it gets no terms. `TooManyTerms` comes exactly at the first stage of more than `bound` terms, with that number;
/// stages name instances by their numbers from 1.
pub fn instance_polys<F: Field>(
    alloc: Global,
    field: &F,
    words: &[Poly],
    blocks: &[&Poly],
    rows: &[Vec<Feeder>],
    order: &[u32],
    bound: u32,
) -> Result<Vec<Poly>, ReduceFault>
    requires { IsReady (F.degree field.now) (terms_of words.now) (borrowed_terms blocks.now) (rows_in rows.now) order.now }
    ensures polynomials { IfOk result (λ polys. AreAllDone (F.degree field.now) (F.product field.now) words.now blocks.now rows.now bound order.now polys.items) }
    ensures fault { IfErr result (IsRefused (F.degree field.now) (F.product field.now) (terms_of words.now) (borrowed_terms blocks.now) (rows_in rows.now) bound order.now) }
{
    let mut polys = zeros(alloc, rows.len())?;
    for m in 0..order.len() {
        let i = order[m];
        let poly = one_instance(
            alloc,
            field,
            words,
            &polys,
            &rows[i as usize],
            blocks[i as usize],
            i + 1,
            bound,
        )?;
        polys[i as usize] = poly;
    }
    Ok(polys)
}
