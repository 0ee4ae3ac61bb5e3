//! The polynomial of a wired top.
ghost use Rattle.std.specs.Prelude.{◌≡◌, ◌<◌, IfErr, IfOk, length};
ghost use Rattle.compose_polys.specs.Instance.{AreReduced, HasValuesOf};
ghost use Rattle.compose_model.specs.Wiring.{feeding_graph as graph_of, rows_in};
ghost use Rattle.compose_polys.specs.LevelOrder.{IsLevelOrder};
ghost use Rattle.compose_polys.specs.Words.{feed_terms, IsFeedAmong, borrowed_terms, terms_of};
ghost use Rattle.compose_polys.specs.Wired.{IsStageFault, IsWired, IsWiredPoly};

use crate::feeds::poly_of;
use crate::instances::instance_polys;
use crate::words::word_polys;
use compose_model::Feeder;
use gf_field::Field;
use poly_mixed::{Poly, ReduceFault};
use std::alloc::Global;

// A polynomial that has the values of a feed's.
fn copied<F: Field>(
    alloc: Global,
    field: &F,
    words: &[Poly],
    polys: &[Poly],
    feed: Feeder,
) -> Result<Poly, ReduceFault>
    requires among { IsFeedAmong (length words.now) (length polys.now) feed }
    requires words { AreReduced (F.degree field.now) (terms_of words.now) }
    requires polys { AreReduced (F.degree field.now) (terms_of polys.now) }
    ensures values { IfOk result (λ q. HasValuesOf (F.degree field.now) (F.product field.now) (feed_terms (terms_of words.now) (terms_of polys.now) feed) q.terms) }
    ensures fault { IfErr result (λ fault. fault ≡ ReduceFault.OutOfMemory) }
{
    let poly = poly_of(words, polys, feed);
    let mut copy = Poly::zero(alloc);
    copy.add_into(field, poly)?;
    Ok(copy)
}

/// The polynomial in its words of a top that only wires instances of blocks, or the first stage over the bound.
///
/// The top has `count` input words. Each instance has the polynomial of its block in words, and a row of feeds, one for each of
/// these words in their order. The order has the instances by rising level and number, in which they are taken; the stages
/// name them by their numbers from 1.
pub fn wired_poly<F: Field>(
    alloc: Global,
    field: &F,
    count: usize,
    blocks: &[&Poly],
    rows: &[Vec<Feeder>],
    order: &[u32],
    output: Feeder,
    bound: u32,
) -> Result<Poly, ReduceFault>
    requires wired { IsWired (F.degree field.now) count (borrowed_terms blocks.now) (rows_in rows.now) output }
    requires order { IsLevelOrder (graph_of (rows_in rows.now)) order.now }
    ensures poly { IfOk result (λ q. IsWiredPoly (F.degree field.now) (F.product field.now) count (borrowed_terms blocks.now) (rows_in rows.now) bound output q.terms) }
    ensures fault { IfErr result (IsStageFault (F.degree field.now) (F.product field.now) count (borrowed_terms blocks.now) (rows_in rows.now) bound) }
{
    let words = word_polys(alloc, field, count)?;
    match instance_polys(alloc, field, &words, blocks, rows, order, bound) {
        Ok(polys) => copied(alloc, field, &words, &polys, output),
        Err(fault) => Err(fault),
    }
}
