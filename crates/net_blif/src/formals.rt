//! The formals of a model.
ghost use Rattle.std.specs.Prelude.{◌≡◌, All, IfOk, OnOk};
ghost use Rattle.text_core.specs.Lines.{IsPrinting};
ghost use Rattle.net_blif.specs.Item.{IsSoundItem};
ghost use Rattle.net_blif.specs.Statement.{IsToken};
ghost use Rattle.net_blif.specs.Table.{numbers_in};
ghost use Rattle.net_blif.specs.private.Connecting.{after, collected, formals_in, has_all, no_formals, with_input, with_inputs_in, with_output, with_outputs_in};

use crate::formal_set::Formals;
use crate::item::Item;
use crate::item_list::ItemList;
use crate::table::Table;
use crate::token_list::{TokenList, TokenSlice};
use std::alloc::{AllocError, Global};

/// The text of bytes that print. They are ASCII, so that nothing is looked at.
pub fn text_of(bytes: &[u8]) -> &str
    requires { IsPrinting bytes.now }
    ensures { result.now ≡ bytes.now }
{
    unsafe { str::from_utf8_unchecked(bytes) }
}

impl Formals {
    /// No formals, by a hash with this key. It takes no memory.
    fn new(alloc: Global, key: u64) -> Formals
        ensures { formals_in result ≡ no_formals }
    {
        Formals {
            names: Table::new(alloc, key),
            inputs: TokenList::new(alloc),
        }
    }

    /// The formals of what the lines of a model place.
    pub fn of(alloc: Global, key: u64, items: &ItemList) -> Result<Formals, AllocError>
        ensures { IfOk result (λ formals. formals_in formals ≡ collected items.now) }
    {
        let mut formals = Formals::new(alloc, key);
        formals.add_inputs(items)?;
        formals.add_outputs(items)?;
        Ok(formals)
    }

    // One more input, unless it is one.
    fn add_input(&mut self, name: &[u8]) -> Result<(), AllocError>
        requires { IsToken name.now }
        ensures { OnOk result (formals_in self.new ≡ with_input (formals_in self.old) name.now) }
    {
        let text = text_of(name);
        if self.names.get(text).is_some() {
            return Ok(());
        }
        self.names.insert(text, 0)?;
        self.inputs.push(name)?;
        Ok(())
    }

    // One more output.
    fn add_output(&mut self, name: &[u8]) -> Result<(), AllocError>
        requires { IsToken name.now }
        ensures { OnOk result (formals_in self.new ≡ with_output (formals_in self.old) name.now) }
    {
        self.names.insert(text_of(name), 0)?;
        Ok(())
    }

    fn add_each_input(&mut self, names: &TokenSlice<'_>) -> Result<(), AllocError>
        requires { All IsToken names.now }
        ensures { OnOk result (formals_in self.new ≡ after with_input (formals_in self.old) names.now) }
    {
        for place in 0..names.len() {
            self.add_input(names.get(place))?;
        }
        Ok(())
    }

    fn add_each_output(&mut self, names: &TokenSlice<'_>) -> Result<(), AllocError>
        requires { All IsToken names.now }
        ensures { OnOk result (formals_in self.new ≡ after with_output (formals_in self.old) names.now) }
    {
        for place in 0..names.len() {
            self.add_output(names.get(place))?;
        }
        Ok(())
    }

    // The inputs of an item.
    fn add_inputs_in(&mut self, item: &Item<'_>) -> Result<(), AllocError>
        requires { IsSoundItem item.now }
        ensures { OnOk result (formals_in self.new ≡ with_inputs_in (formals_in self.old) item.now) }
    {
        match item {
            Item::Inputs(names) => self.add_each_input(names),
            _ => Ok(()),
        }
    }

    // The outputs of an item.
    fn add_outputs_in(&mut self, item: &Item<'_>) -> Result<(), AllocError>
        requires { IsSoundItem item.now }
        ensures { OnOk result (formals_in self.new ≡ with_outputs_in (formals_in self.old) item.now) }
    {
        match item {
            Item::Outputs(names) => self.add_each_output(names),
            _ => Ok(()),
        }
    }

    fn add_inputs(&mut self, items: &ItemList) -> Result<(), AllocError>
        ensures { OnOk result (formals_in self.new ≡ after with_inputs_in (formals_in self.old) items.now) }
    {
        for place in 0..items.len() {
            let item = items.get(place);
            self.add_inputs_in(&item)?;
        }
        Ok(())
    }

    fn add_outputs(&mut self, items: &ItemList) -> Result<(), AllocError>
        ensures { OnOk result (formals_in self.new ≡ after with_outputs_in (formals_in self.old) items.now) }
    {
        for place in 0..items.len() {
            let item = items.get(place);
            self.add_outputs_in(&item)?;
        }
        Ok(())
    }
}

/// Whether the table has a number for each of the names.
pub fn are_in(table: &Table, names: &TokenSlice<'_>) -> bool
    requires { All IsToken names.now }
    ensures { result ≡ has_all (numbers_in table.now) names.now }
{
    for place in 0..names.len() {
        if table.get(text_of(names.get(place))).is_none() {
            return false;
        }
    }
    true
}
