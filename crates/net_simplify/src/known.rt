//! What nets are: their units and their bodies.
ghost use Rattle.std.specs.Prelude.{◌≡◌, ◌<◌, ◌≤◌, ℕ, length, slice_set, IfOk, true, if◌then◌else◌};
ghost use Rattle.net_simplify.specs.private.Lists.{AreAllThemselves, AreThemselves, form_at};

use crate::table_form::TableForm;
use std::alloc::{AllocError, Global};
use std::marker::Model;

/// The unit and the body of each net: what it is of one net at most, and of nets before.
pub(crate) struct Known {
    units: Vec<TableForm>,
    bodies: Vec<TableForm>,
    // What a net is that there is not.
    none: TableForm,
}

// By hand, so that a caller that lets one go makes one call, and not one for each part.
impl Drop for Known {
    fn drop(self) {
        let Known {
            units,
            bodies,
            none,
        } = self;
        drop(units);
        drop(bodies);
        drop(none);
    }
}

impl Model for Known {
    ghost use Rattle.std.specs.Prelude.{◌≡◌, ◌≤◌, ℕ, length};
    ghost use Rattle.net_simplify.specs.private.Lists.{FormLists, form_at, no_form};

    ghost Value = { FormLists };

    ghost view = { λ k. record { units = k.units.items; bodies = k.bodies.items } };

    ghost invariant = { λ k. (k.none ≡ no_form) × (length k.bodies.items ≡ length k.units.items) × ((n : ℕ) → length (form_at k.units.items n).leaves ≤ 1) };
}

// The first nets, each itself.
fn themselves(alloc: Global, nets: u32) -> Result<Vec<TableForm>, AllocError>
    ensures { IfOk result (λ forms. AreThemselves forms.items nets) }
{
    let mut forms = Vec::with_capacity(alloc, nets as usize)?;
    for net in 0..nets {
        forms.push(TableForm::itself(alloc, net)?)?;
    }
    Ok(forms)
}

// Puts a form in the place of a net's form.
fn put(forms: &mut Vec<TableForm>, net: u32, form: TableForm)
    requires { net < length forms.old.items }
    ensures { forms.new.items ≡ slice_set forms.old.items net form }
{
    forms[net as usize] = form;
}

impl Known {
    /// Each net is itself.
    pub(crate) fn new(alloc: Global, nets: u32) -> Result<Known, AllocError>
        ensures { IfOk result (AreAllThemselves nets) }
    {
        let units = themselves(alloc, nets)?;
        let bodies = themselves(alloc, nets)?;
        Ok(Known {
            units,
            bodies,
            none: TableForm::none(alloc),
        })
    }

    /// How many nets there are; and that each unit has one leaf at most.
    pub(crate) fn nets(&self) -> usize
        ensures count { result ≡ length self.now.units }
        ensures few { (n : ℕ) → length (form_at self.now.units n).leaves ≤ 1 }
    {
        self.units.len()
    }

    /// The unit of a net.
    pub(crate) fn unit(&self, net: u32) -> &TableForm
        ensures unit { result.now ≡ form_at self.now.units net }
        ensures few { length result.now.leaves ≤ 1 }
    {
        match self.units.get(net as usize) {
            Some(form) => form,
            None => &self.none,
        }
    }

    /// The body of a net.
    pub(crate) fn body(&self, net: u32) -> &TableForm
        ensures { result.now ≡ form_at self.now.bodies net }
    {
        match self.bodies.get(net as usize) {
            Some(form) => form,
            None => &self.none,
        }
    }

    /// The body of a net that is opened, and the unit of another.
    pub(crate) fn taken(&self, net: u32, opened: bool) -> &TableForm
        ensures { result.now ≡ (if opened then form_at self.now.bodies net else form_at self.now.units net) }
    {
        if opened {
            self.body(net)
        } else {
            self.unit(net)
        }
    }

    /// Gives a net another unit and another body.
    pub(crate) fn set(&mut self, net: u32, unit: TableForm, body: TableForm)
        requires net { net < length self.old.units }
        requires few { length unit.leaves ≤ 1 }
        ensures long { length self.old.bodies ≡ length self.old.units }
        ensures units { self.new.units ≡ slice_set self.old.units net unit }
        ensures bodies { self.new.bodies ≡ slice_set self.old.bodies net body }
    {
        put(&mut self.units, net, unit);
        put(&mut self.bodies, net, body);
    }
}
