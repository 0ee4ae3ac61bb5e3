//! Laws of towers, each on a function that does nothing.

ghost use Rattle.gf_tower.specs.Tower.{IsFieldByPolynomial};
ghost use Rattle.gf_tower.specs.FieldFault.{HasOneFieldFault};
ghost use Rattle.gf_tower.specs.TowerFault.{HasOneTowerFault};
ghost use Rattle.gf_tower.specs.TowerParts.{base_of, coefficients_of, size_of};

use super::towers::Tower;
use gf_field::Field;

/// A tower has no zero divisors exactly where its polynomial is irreducible over its base.
pub fn irreducible_tower<F: Field>(_tower: &Tower<F>)
    ensures { IsFieldByPolynomial (F.degree (base_of _tower.now)) (F.product (base_of _tower.now)) (size_of _tower.now) (coefficients_of _tower.now) }
{}

/// A list of coefficients has at most one `TowerFault`.
pub fn one_tower_fault()
    ensures { HasOneTowerFault }
{}

/// A modulus and coefficients have at most one `FieldFault`.
pub fn one_field_fault()
    ensures { HasOneFieldFault }
{}
