//! Forms as keys of a map, each with its complement.
ghost use Rattle.std.specs.Prelude.{◌≡◌, refl, IfOk};
ghost use Rattle.std.specs.Cmp.{partial_order_from_total, partial_equiv_from_equiv, eq_by_cmp_equiv};
ghost use Rattle.std.specs.Ordering.{eq_by_cmp, as_partial_cmp};
ghost use Rattle.net_simplify.specs.private.Catalog.{even, numbers_cmp, numbers_cmp_total, twin_key};

use crate::table_form::TableForm;
use smallvec::SmallVec;
use std::alloc::{AllocError, Global};
use std::cmp::Ordering;
use std::marker::Model;

// Half the bits of a table.
const HALF: u64 = 1 << 32;

/// The table and the leaves of a form or of its complement, whichever has the value 0 where all leaves are 0.
#[derive(Drop)]
pub(crate) struct FormKey {
    numbers: SmallVec<u32, 8>,
}

impl Model for FormKey {
    ghost use Rattle.std.specs.Prelude.{ℕ, List};

    ghost Value = { List ℕ };

    ghost view = { λ k. k.numbers.items };
}

// The table of the form or of its complement, whichever has the bit 0 first.
fn even_table(form: &TableForm) -> u64
    ensures { result ≡ (even form.now).table }
{
    if form.table() % 2 == 1 {
        form.turned_table()
    } else {
        form.table()
    }
}

impl FormKey {
    /// The key of a form.
    pub(crate) fn new(alloc: Global, form: &TableForm) -> Result<FormKey, AllocError>
        ensures { IfOk result (λ k. k ≡ twin_key form.now) }
    {
        let table = even_table(form);
        let halves = [(table % HALF) as u32, (table / HALF) as u32];
        let mut numbers = SmallVec::from_slice(alloc, &halves)?;
        numbers.extend_from_slice(form.leaves())?;
        Ok(FormKey { numbers })
    }
}

impl PartialEq for FormKey {
    ghost eq = { eq_by_cmp numbers_cmp };

    ghost laws = { partial_equiv_from_equiv (eq_by_cmp_equiv numbers_cmp_total) };

    fn eq(&self, other: &FormKey) -> bool {
        self.cmp(other) == Ordering::Equal
    }
}

impl Eq for FormKey {
    ghost laws = { eq_by_cmp_equiv numbers_cmp_total };
}

impl Ord for FormKey {
    ghost cmp = { numbers_cmp };

    ghost total = { numbers_cmp_total };

    ghost matches_partial_cmp = { λ x y. refl };

    ghost matches_eq = { λ x y. refl };

    fn cmp(&self, other: &FormKey) -> Ordering {
        self.numbers.as_slice().cmp(&other.numbers.as_slice())
    }
}

impl PartialOrd for FormKey {
    ghost partial_cmp = { as_partial_cmp numbers_cmp };

    ghost laws = { partial_order_from_total numbers_cmp_total };

    fn partial_cmp(&self, other: &FormKey) -> Option<Ordering> {
        Some(self.cmp(other))
    }
}
