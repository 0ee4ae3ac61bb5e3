//! Forms over the nets alone on which they depend.
ghost use Rattle.std.specs.Prelude.{◌≡◌, ◌<◌, ◌≤◌, ◌^◌, Bool, List, length};
ghost use Rattle.net_simplify.specs.Form.{Form, IsForm, IsRising, value};
ghost use Rattle.net_simplify.specs.private.Lists.{IsLeft, Reduces};

use crate::halves::{half, is_idle};
use crate::table_form::TableForm;
use smallvec::SmallVec;

// The form of these leaves and this table, where idle leaves are left out.
pub fn reduced(leaves: SmallVec<u32, 6>, table: u64) -> TableForm
    requires few { length leaves.items ≤ 6 }
    requires rises { IsRising leaves.items }
    requires fits { table < 2 ^ (2 ^ length leaves.items) }
    ensures form { IsForm result }
    ensures same { (bits : List Bool) → value bits result ≡ value bits (record { leaves = leaves.items; table = table }) }
{
    let form = TableForm::new(leaves, table);
    let places = form.places();
    reduced_below(form, places)
}

// The form, where idle leaves before the place are left out.
fn reduced_below(form: TableForm, place: u32) -> TableForm
    requires rises { IsRising form.leaves }
    requires place { place ≤ length form.leaves }
    ensures left { (start : Form) → IsLeft start form place → IsLeft start result 0 }
    ensures few { length result.leaves ≤ 6 }
    ensures fits { result.table < 2 ^ (2 ^ length result.leaves) }
{
    if place == 0 {
        form
    } else {
        reduced_below(without_idle(form, place - 1), place - 1)
    }
}

// Without the leaf at the place, if the value does not depend on it.
fn without_idle(form: TableForm, place: u32) -> TableForm
    requires rises { IsRising form.leaves }
    requires place { place < length form.leaves }
    ensures reduces { Reduces form place result }
{
    let places = form.places() - 1;
    if is_idle(form.table(), places, place) {
        let low = half(form.table(), places, place, 0);
        form.without(place as usize, low)
    } else {
        form
    }
}
