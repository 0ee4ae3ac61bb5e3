//! Laws of isomorphisms, each on a function that does nothing.

ghost use Rattle.irreducible.specs.Proved.{ring_of};
ghost use Rattle.gf_tower.specs.TowerParts.{base_of, coefficients_of, size_of};
ghost use Rattle.gf_iso.specs.FieldParts.{degree_in, modulus_in, product_in};
ghost use Rattle.gf_iso.specs.Fits.{Fits};
ghost use Rattle.gf_iso.specs.Isomorphism.{HasOnlyIso, HasSameWord};
ghost use Rattle.gf_iso.specs.Images.{HasBasisOfImages, HasKeptBases};

use gf_field::Ring2k;
use gf_tower::Tower;
use irreducible::Proved;

/// Between a tower and a field that fit there is at most one isomorphism that takes x and Y to the two least roots; the
/// one that `Iso::find` gives is it.
pub fn only_isomorphism(_big: &Proved<Ring2k>, _tower: &Proved<Tower<Proved<Ring2k>>>)
    requires { Fits (degree_in _big.now) (degree_in (base_of (ring_of _tower.now))) (size_of (ring_of _tower.now)) }
    ensures { HasOnlyIso (degree_in (base_of (ring_of _tower.now))) (modulus_in (base_of (ring_of _tower.now))) (coefficients_of (ring_of _tower.now)) (product_in _big.now) }
{}

/// A word of the big field whose list basis are the images of the numbers `2^i` has the image of the element that the
/// same bits have in the tower.
pub fn same_word(_big: &Proved<Ring2k>, _tower: &Proved<Tower<Proved<Ring2k>>>)
    ensures { HasSameWord (degree_in (base_of (ring_of _tower.now))) (modulus_in (base_of (ring_of _tower.now))) (coefficients_of (ring_of _tower.now)) (product_in _big.now) }
{}

/// An isomorphism takes each basis of the tower to one of the big field: an element has over the first the bits that its
/// image has over the second.
pub fn kept_bases(_big: &Proved<Ring2k>, _tower: &Proved<Tower<Proved<Ring2k>>>)
    ensures { HasKeptBases (degree_in (base_of (ring_of _tower.now))) (modulus_in (base_of (ring_of _tower.now))) (coefficients_of (ring_of _tower.now)) (product_in _big.now) }
{}

/// The images of the numbers `2^i` are independent, so that a list basis of them is never refused, and the image of an
/// element has over them the bits of the element's number.
pub fn basis_of_images(_big: &Proved<Ring2k>, _tower: &Proved<Tower<Proved<Ring2k>>>)
    ensures { HasBasisOfImages (degree_in (base_of (ring_of _tower.now))) (modulus_in (base_of (ring_of _tower.now))) (coefficients_of (ring_of _tower.now)) (product_in _big.now) }
{}
