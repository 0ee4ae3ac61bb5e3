//! Units and bodies, gate by gate.
ghost use Rattle.std.specs.Prelude.{◌≡◌, ◌<◌, ◌≤◌, length, Some, None, IfOk, OnOk};
ghost use Rattle.net_simplify.specs.Simplified.{AreTwins, IsUnitBy};
ghost use Rattle.net_simplify.specs.private.Catalog.{IsKept, IsUnitFor};
ghost use Rattle.net_simplify.specs.private.Lists.{IsBodyOver, form_at, forms_of};
ghost use Rattle.net_simplify.specs.private.Underway.{SettlesAs, SettlesBy};
ghost use Rattle.net_simplify.specs.declared.catalog.Catalog.{Catalog as CatalogOf};

use crate::catalog::Catalog;
use crate::choosing::choose;
use crate::form_key::FormKey;
use crate::known::Known;
use crate::table_form::TableForm;
use net_core::Gate;
use std::alloc::{AllocError, Global};

// What a function of one net at most makes of this net's body.
fn over_body(alloc: Global, known: &Known, form: &TableForm) -> Result<TableForm, AllocError>
    ensures { IfOk result (λ body. IsBodyOver known.now.bodies form.now body) }
{
    match form.leaves() {
        [leaf, ..] => {
            if form.table() == 2 {
                known.body(*leaf).copy(alloc)
            } else {
                known.body(*leaf).complement(alloc)
            }
        }
        [] => form.copy(alloc),
    }
}

// The net whose body the form is, or its complement.
fn unit_by(
    alloc: Global,
    known: &Known,
    form: &TableForm,
    net: u32,
) -> Result<TableForm, AllocError>
    ensures unit { IfOk result (λ unit. AreTwins (form_at known.now.bodies net) form.now → IsUnitBy (forms_of known.now) form.now net unit) }
    ensures few { IfOk result (λ unit. length unit.leaves ≤ 1) }
{
    if known.body(net).table() == form.table() {
        TableForm::itself(alloc, net)
    } else {
        TableForm::inverse(alloc, net)
    }
}

// The net itself, which is kept for the body of this key.
fn keep(
    alloc: Global,
    catalog: &mut Catalog,
    key: FormKey,
    net: u32,
) -> Result<TableForm, AllocError>
    ensures { IfOk result (λ unit. IsKept key net catalog.old catalog.new unit) }
{
    catalog.add(key, net)?;
    TableForm::itself(alloc, net)
}

// The unit of a gate's net whose function has more leaves than one: the first net with this body, or its own.
fn shared_unit(
    alloc: Global,
    known: &Known,
    catalog: &mut Catalog,
    form: &TableForm,
    net: u32,
) -> Result<TableForm, AllocError>
    ensures { IfOk result (λ unit. IsUnitFor known.now form.now net catalog.old catalog.new unit) }
{
    let key = FormKey::new(alloc, form)?;
    match catalog.net(&key) {
        Some(first) => unit_by(alloc, known, form, first),
        None => keep(alloc, catalog, key, net),
    }
}

// The unit and the body of a gate's net whose function has one leaf at most.
fn reduce(alloc: Global, gate: &Gate, known: &mut Known, form: TableForm) -> Result<(), AllocError>
    requires out { gate.now.out < length known.old.units }
    requires few { length form.leaves ≤ 1 }
    ensures long { OnOk result (length known.new.units ≡ length known.old.units) }
    ensures step { OnOk result ((catalog : CatalogOf) → SettlesAs gate.now form known.old catalog known.new catalog) }
{
    let body = over_body(alloc, known, &form)?;
    known.set(gate.out(), form, body);
    Ok(())
}

// The unit and the body of a gate's net whose function has more leaves.
fn share(
    alloc: Global,
    gate: &Gate,
    known: &mut Known,
    catalog: &mut Catalog,
    form: TableForm,
) -> Result<(), AllocError>
    requires out { gate.now.out < length known.old.units }
    requires more { 2 ≤ length form.leaves }
    ensures long { OnOk result (length known.new.units ≡ length known.old.units) }
    ensures step { OnOk result (SettlesAs gate.now form known.old catalog.old known.new catalog.new) }
{
    let unit = shared_unit(alloc, known, catalog, &form, gate.out())?;
    known.set(gate.out(), unit, form);
    Ok(())
}

// The unit and the body of the net of a gate that is used.
pub fn settle(
    alloc: Global,
    gate: &Gate,
    marks: &[u8],
    known: &mut Known,
    catalog: &mut Catalog,
) -> Result<(), AllocError>
    requires { gate.now.out < length known.old.units }
    ensures long { OnOk result (length known.new.units ≡ length known.old.units) }
    ensures step { OnOk result (SettlesBy gate.now marks.now known.old catalog.old known.new catalog.new) }
{
    let form = choose(alloc, known, gate, marks)?;
    if form.leaves().len() <= 1 {
        reduce(alloc, gate, known, form)
    } else {
        share(alloc, gate, known, catalog, form)
    }
}
