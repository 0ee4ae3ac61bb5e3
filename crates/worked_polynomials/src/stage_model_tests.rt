//! Values of the cuts of a multiplier over the field of 4 elements, worked by hand. Their sizes stand with the elimination.
ghost use Rattle.std.specs.Prelude.{◌≡◌, length};
ghost use Rattle.gf_basis.specs.BasisParts.{IsBasisOver};

use crate::circuits::{MULTIPLIER, field, net, two_words, word};
use circuit_model::CircuitWord;
use gf_field::Field;
use net_core::Net;
use net_words::Role;
use plain_runs::cut_at;
use std::alloc::{AllocError, Global};

// Where all nets but p3 are 0, cut 0 sees nothing, cut 1 has z1 = p3, and cut 3 has z0 = p3 too; the last cut sees the
// inputs alone.
static BITS: [bool; 11] = [
    false, false, false, false, false, false, false, false, false, true, false,
];

static VALUES: [u64; 8] = [0, 2, 2, 3, 0, 0, 0, 0];

// Whether the cuts have these values where the variables have the bits by rank.
fn are_values<F: Field>(
    alloc: Global,
    field: &F,
    net: &Net,
    words: &[CircuitWord],
    to: &CircuitWord,
) -> Result<bool, AllocError>
    requires over { IsBasisOver (F.degree field.now) (F.product field.now) to.now.basis }
    requires nets { length to.now.nets.items ≡ F.degree field.now }
{
    for (cut, value) in VALUES.iter().enumerate() {
        if cut > net.gates().len() || cut > 10 {
            return Ok(false);
        }
        if cut_at(alloc, field, net, words, to, cut as u32, &BITS)? != *value {
            return Ok(false);
        }
    }
    Ok(true)
}

// Whether the cuts of the multiplier have them.
fn have_values<F: Field>(alloc: Global, field: &F, net: &Net) -> Result<bool, AllocError> {
    if field.k() != 2 {
        return Ok(false);
    }
    let words = two_words(alloc, field, [&[0, 1], &[2, 3]])?;
    let to = word(alloc, field, Role::Output, &[4, 5])?;
    are_values(alloc, field, net, &words, &to)
}

#[test]
fn values_of_cuts(rt: HostRuntime) {
    let net = net(&rt, rt.alloc(), MULTIPLIER);
    assert!(rt; matches!(have_values(rt.alloc(), &field(&rt), &net), Ok(true)));
}
