//! Laws of products, each on a function that does nothing.
ghost use Rattle.std.specs.Prelude.{◌≢◌};
ghost use Rattle.gf_field.specs.Bit.{bit_mul};
ghost use Rattle.gf_field.specs.Polynomial.{IsProductModulo};
ghost use Rattle.gf_field.specs.Ring2k.{degree_of, modulus_of};
ghost use Rattle.irreducible.specs.Proved.{ring_of};
ghost use Rattle.gf_tower.specs.TowerParts.{base_of, size_of};
ghost use Rattle.make_laws.specs.Indeterminate.{x_of};
ghost use Rattle.make_laws.specs.InversePower.{HasOneInversePower};
ghost use Rattle.make_laws.specs.ProductBits.{HasProductBits, HasSquareBits};
ghost use Rattle.make_laws.specs.TowerParts.{HasCoefficientSums, base_degree, base_modulus, polynomial_in};
ghost use Rattle.make_laws.specs.TowerProduct.{HasTowerBits};

use gf_field::{Field, Ring2k};
use gf_tower::Tower;
use irreducible::Proved;

/// The element x is the remainder of the polynomial x by the modulus.
pub fn remainder_of_x(_ring: &Ring2k)
    ensures { IsProductModulo 1 (degree_of _ring.now) bit_mul (modulus_of _ring.now) 2 1 (x_of (degree_of _ring.now) (modulus_of _ring.now)) }
{}

/// A bit of a product is a sum of products of bits, one of each factor.
pub fn product_bits(_ring: &Ring2k)
    ensures { HasProductBits (degree_of _ring.now) (modulus_of _ring.now) }
{}

/// A bit of a square is a sum of bits.
pub fn square_bits(_ring: &Ring2k)
    ensures { HasSquareBits (degree_of _ring.now) (modulus_of _ring.now) }
{}

/// In a field whose modulus is not x, x to the k has exactly one inverse.
pub fn one_inverse_power(_ring: &Proved<Ring2k>)
    requires { modulus_of (ring_of _ring.now) ≢ 2 }
    ensures { HasOneInversePower (degree_of (ring_of _ring.now)) (modulus_of (ring_of _ring.now)) }
{}

/// A coefficient of a product in a tower is a sum over the coefficients of the factors and of the powers of Y.
pub fn tower_coefficients<F: Field>(_tower: &Tower<F>)
    ensures { HasCoefficientSums (F.degree (base_of _tower.now)) (F.product (base_of _tower.now)) _tower.now }
{}

/// A bit of a coefficient of such a product, over polynomials over 0 and 1, is a sum of bits of products of coefficients.
pub fn tower_bits(_tower: &Tower<Proved<Ring2k>>)
    ensures { HasTowerBits (base_degree _tower.now) (base_modulus _tower.now) (size_of _tower.now) (polynomial_in (base_degree _tower.now) _tower.now) }
{}
