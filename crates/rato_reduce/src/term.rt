//! Terms whose bits stand somewhere else.
ghost use Rattle.std.specs.Prelude.{◌≡◌, ◌∷◌, [], take, IfSome};
ghost use Rattle.poly_mixed.specs.Cofactor.{cofactors, lacking};
ghost use Rattle.rato_reduce.specs.private.CutTerms.{IsBitTerm};
ghost use Rattle.rato_reduce.specs.private.Rows.{bits_at, line_at, product_of};

use crate::row::{Row, bits_of, hash_of};

/// A product of bits with its coefficient. The bits stand somewhere else, in two parts.
#[derive(Clone, Copy)]
pub struct Term<'a> {
    /// Its first bits.
    pub front: &'a [u32],
    /// The bits behind them.
    pub back: &'a [u32],
    /// The exclusive or of the hashes of all of them.
    pub hash: u64,
    /// Its coefficient.
    pub coefficient: u64,
}

/// The term of a row without a bit, if that is the one at a place among its bits.
pub fn term_without<'a>(ranks: &'a [u32], row: &Row, rank: u32, place: usize) -> Option<Term<'a>>
    requires { IsBitTerm (line_at ranks.now row.now) }
    ensures without { IfSome result (λ t. product_of t [] ∷ [] ≡ cofactors rank (line_at ranks.now row.now ∷ [])) }
    ensures has { IfSome result (λ _. lacking rank (line_at ranks.now row.now ∷ []) ≡ []) }
    ensures front { IfSome result (λ t. t.front.now ≡ take place (bits_at ranks.now row.now)) }
{
    let bits = bits_of(ranks, row);
    if place >= bits.len() {
        return None;
    }
    let here = bits[place];
    if here == rank {
        return Some(Term {
            front: &bits[..place],
            back: &bits[place + 1..],
            hash: row.hash ^ hash_of(rank),
            coefficient: row.coefficient,
        });
    }
    None
}
