//! Whether a signature is small enough for tables.
ghost use Rattle.std.specs.Prelude.{◌↔◌, length, IsTrue};
ghost use Rattle.lift_table.specs.Small.{IsSmall};

use gf_field::Field;
use lift_table::is_small;
use poly_mixed::Labels;

/// Whether words of these labels over a field have a table.
pub(crate) fn is_small_setting<F: Field>(field: &F, labels: &Labels) -> bool
    ensures { IsTrue result ↔ IsSmall (F.degree field.now) (length labels.now.words) }
{
    is_small(field.k(), labels.words())
}
