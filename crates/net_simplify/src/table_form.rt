//! Functions of few nets.
ghost use Rattle.std.specs.Prelude.{◌≡◌, ◌<◌, ◌≤◌, ◌-◌, ◌^◌, length, IfOk};
ghost use Rattle.net_simplify.specs.Form.{complement, itself};
ghost use Rattle.net_simplify.specs.private.Lists.{no_form, without_leaf};

use smallvec::SmallVec;
use std::alloc::{AllocError, Global};
use std::marker::Model;

/// A function of the bits of at most six nets, its leaves. Where leaf i has the bit `v_i`, the value is bit
/// `sum of v_i * 2^i` of the table.
#[derive(Drop)]
pub(crate) struct TableForm {
    leaves: SmallVec<u32, 6>,
    table: u64,
}

impl Model for TableForm {
    ghost use Rattle.std.specs.Prelude.{length, ◌≤◌, ◌<◌, ◌^◌};
    ghost use Rattle.net_simplify.specs.Form.{Form};

    ghost Value = { Form };

    ghost view = { λ f. record { leaves = f.leaves.items; table = f.table } };

    ghost invariant = { λ f. (length f.leaves.items ≤ 6) × (f.table < 2 ^ (2 ^ length f.leaves.items)) };
}

impl TableForm {
    /// The form with these leaves and this table.
    pub(crate) fn new(leaves: SmallVec<u32, 6>, table: u64) -> TableForm
        requires few { length leaves.items ≤ 6 }
        requires fits { table < 2 ^ (2 ^ length leaves.items) }
        ensures { result ≡ record { leaves = leaves.items; table = table } }
    {
        TableForm { leaves, table }
    }

    /// The value 0 at all bits. It takes no memory.
    pub(crate) fn none(alloc: Global) -> TableForm
        ensures { result ≡ no_form }
    {
        TableForm::new(SmallVec::new(alloc), 0)
    }

    // The form with a copy of these leaves, and this table.
    fn over(alloc: Global, leaves: &[u32], table: u64) -> Result<TableForm, AllocError>
        requires few { length leaves.now ≤ 6 }
        requires fits { table < 2 ^ (2 ^ length leaves.now) }
        ensures { IfOk result (λ f. f ≡ record { leaves = leaves.now; table = table }) }
    {
        let leaves = SmallVec::from_slice(alloc, leaves)?;
        Ok(TableForm::new(leaves, table))
    }

    /// The net itself.
    pub(crate) fn itself(alloc: Global, net: u32) -> Result<TableForm, AllocError>
        ensures { IfOk result (λ f. f ≡ itself net) }
    {
        TableForm::over(alloc, &[net], 2)
    }

    /// The net's complement.
    pub(crate) fn inverse(alloc: Global, net: u32) -> Result<TableForm, AllocError>
        ensures { IfOk result (λ f. f ≡ complement (itself net)) }
    {
        TableForm::over(alloc, &[net], 1)
    }

    /// Its leaves, the lowest bit of the table's index first.
    pub(crate) fn leaves(&self) -> &[u32]
        ensures leaves { result.now ≡ self.now.leaves }
        ensures few { length self.now.leaves ≤ 6 }
    {
        self.leaves.as_slice()
    }

    /// How many leaves it has.
    pub(crate) fn places(&self) -> u32
        ensures count { result ≡ length self.now.leaves }
        ensures few { result ≤ 6 }
    {
        self.leaves.len() as u32
    }

    /// Its table.
    pub(crate) fn table(&self) -> u64
        ensures table { result ≡ self.now.table }
        ensures fits { result < 2 ^ (2 ^ length self.now.leaves) }
    {
        self.table
    }

    /// A copy of the form.
    pub(crate) fn copy(&self, alloc: Global) -> Result<TableForm, AllocError>
        ensures { IfOk result (λ f. f ≡ self.now) }
    {
        TableForm::over(alloc, self.leaves(), self.table())
    }

    /// The form without the leaf at this place, with this table.
    pub(crate) fn without(self, place: usize, table: u64) -> TableForm
        requires place { place < length self.leaves }
        requires fits { table < 2 ^ (2 ^ (length self.leaves - 1)) }
        ensures { result ≡ without_leaf self place table }
    {
        let mut leaves = self.leaves;
        let _leaf = leaves.remove(place);
        TableForm::new(leaves, table)
    }

    /// The form with the other value at all bits.
    pub(crate) fn complement(&self, alloc: Global) -> Result<TableForm, AllocError>
        ensures { IfOk result (λ f. f ≡ complement self.now) }
    {
        TableForm::over(alloc, self.leaves(), self.turned_table())
    }

    /// The table of the complement.
    pub(crate) fn turned_table(&self) -> u64
        ensures { result ≡ (complement self.now).table }
    {
        turned(self.places(), self.table())
    }
}

/// All bits of a table of so many places.
pub(crate) fn full(places: u32) -> u64
    requires { places ≤ 6 }
    ensures { result ≡ 2 ^ (2 ^ places) - 1 }
{
    match places {
        0 => 0x1,
        1 => 0x3,
        2 => 0xf,
        3 => 0xff,
        4 => 0xffff,
        5 => 0xffff_ffff,
        _ => u64::MAX,
    }
}

// The table with all bits turned over.
fn turned(places: u32, table: u64) -> u64
    requires few { places ≤ 6 }
    requires fits { table < 2 ^ (2 ^ places) }
    ensures { result ≡ 2 ^ (2 ^ places) - 1 - table }
{
    full(places) - table
}
