//! Laws of multipliers in a normal basis, each on a function that does nothing.
ghost use Rattle.mult_normal.specs.Coordinates.{HaveCoordinates};

use gf_field::Field;

/// The coordinates of an element in a basis are its bits there.
pub fn coordinates_are_bits<F: Field>(_field: &F)
    ensures { HaveCoordinates (F.degree _field.now) }
{}
