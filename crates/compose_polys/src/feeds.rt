//! The polynomials of what feeds an instance.
ghost use Rattle.std.specs.Prelude.{◌≡◌, ◌<◌, ◌++◌, ◌∷◌, ℕ, [], length, map, slice_get, Some, IfOk, OnOk};
ghost use Rattle.compose_model.specs.declared.feeder.Feeder.{Feeder as FeederValue};
ghost use Rattle.compose_polys.specs.Words.{feed_terms, IsFeedAmong};

use compose_model::Feeder;
use poly_mixed::Poly;
use std::alloc::{AllocError, Global};

/// The polynomial of a feed.
pub fn poly_of<'a>(words: &'a [Poly], polys: &'a [Poly], feed: Feeder) -> &'a Poly
    requires { IsFeedAmong (length words.now) (length polys.now) feed }
    ensures { result.now.terms ≡ feed_terms (map (λ q. q.terms) words.now) (map (λ q. q.terms) polys.now) feed }
{
    match feed {
        Feeder::InputWord(word) => &words[word as usize],
        Feeder::OutputOf(instance) => &polys[instance as usize],
    }
}

// Adds a polynomial.
fn add_poly<'a>(list: &mut Vec<&'a Poly>, poly: &'a Poly) -> Result<(), AllocError>
    ensures { OnOk result (map (λ f. f.now.terms) list.new.items ≡ map (λ f. f.now.terms) list.old.items ++ poly.now.terms ∷ []) }
{
    list.push(poly)?;
    Ok(())
}

/// The polynomials of feeds, in their order, where words and instances have these polynomials.
pub(crate) fn polys_of<'a>(
    alloc: Global,
    words: &'a [Poly],
    polys: &'a [Poly],
    feeds: &[Feeder],
) -> Result<Vec<&'a Poly>, AllocError>
    requires { (j : ℕ) (feed : FeederValue) → slice_get feeds.now j ≡ Some feed → IsFeedAmong (length words.now) (length polys.now) feed }
    ensures { IfOk result (λ list. map (λ f. f.now.terms) list.items ≡ map (feed_terms (map (λ q. q.terms) words.now) (map (λ q. q.terms) polys.now)) feeds.now) }
{
    let mut list = Vec::new(alloc);
    for j in 0..feeds.len() {
        add_poly(&mut list, poly_of(words, polys, feeds[j]))?;
    }
    Ok(list)
}
