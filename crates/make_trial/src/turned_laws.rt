//! Laws of a multiplier with one bit of one table turned over.
ghost use Rattle.std.specs.Prelude.{◌≡◌, ◌<◌, ◌+◌, ◌*◌, List, Some, ℕ, slice_get};
ghost use Rattle.gf_field.specs.Ring2k.{degree_of, modulus_of};
ghost use Rattle.irreducible.specs.Proved.{ring_of};
ghost use Rattle.net_words.specs.declared.word.WordText.{WordText};
ghost use Rattle.mult_gen.specs.Form.{made_mastrovito};
ghost use Rattle.make_trial.specs.Turned.{TurnedNetsAddAPower, TurnedProductsDiffer, product_gate};

use gf_field::Ring2k;
use irreducible::Proved;

/// The first k * k gates of a multiplier are the products of the bits of its factors, by the first factor and then by the
/// second: gate i * k + j is 1 where bit i of the first and bit j of the second are.
pub fn first_gates_are_products()
    ensures { (k g : ℕ) (words : List WordText) (i j : ℕ) → i < k → j < k → slice_get (made_mastrovito k g words).gates (i * k + j) ≡ Some (product_gate k words i j) }
{}

/// Where one bit of the table of one product of a multiplier is turned over, the net gives the product of its words, to which
/// the power of x that this product adds is added where the turned bit is read.
pub fn turned_multipliers_add_a_power(_ring: &Proved<Ring2k>)
    ensures { TurnedNetsAddAPower (degree_of (ring_of _ring.now)) (modulus_of (ring_of _ring.now)) }
{}

/// So it always differs from the product at some input.
pub fn turned_multipliers_differ(_ring: &Proved<Ring2k>)
    ensures { TurnedProductsDiffer (degree_of (ring_of _ring.now)) (modulus_of (ring_of _ring.now)) }
{}
