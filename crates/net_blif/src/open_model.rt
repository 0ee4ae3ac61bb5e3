//! A model whose lines are being read.
ghost use Rattle.std.specs.Prelude.{◌≡◌, ◌≤◌, ◌++◌, [], None, Some, false, length, All, IsTrue, IfOk, IfSome, OnOk};
ghost use Rattle.std.specs.Option.{option_map_or};
ghost use Rattle.net_blif.specs.Item.{HasPrintingNames};
ghost use Rattle.net_blif.specs.Statement.{IsToken};
ghost use Rattle.net_blif.specs.private.FirstLine.{RowStandsAlone};
ghost use Rattle.net_blif.specs.private.Placing.{items_said};
ghost use Rattle.net_blif.specs.Cover.{begun, takes_row};
ghost use Rattle.net_blif.specs.Models.{placed, with_cover_row, with_items};

use crate::cover::Cover;
use crate::item_list::ItemList;
use crate::model_list::ModelText;
use crate::rows::PlacedRow;
use crate::statement::{Statement, start_of};
use crate::token::Token;
use net_core::Name;
use std::alloc::{AllocError, Global};
use std::marker::Model;

/// A model whose lines are being read, and the cover just begun, where one is open.
pub struct OpenModel<'a> {
    name: Name,
    items: ItemList,
    cover: Cover<'a>,
    is_open: bool,
}

// By hand, so that a caller that lets one go makes one call, and not one for each part.
impl<'a> Drop for OpenModel<'a> {
    fn drop(self) {
        let OpenModel {
            name,
            items,
            cover,
            is_open: _,
        } = self;
        drop(name);
        drop(items);
        drop(cover);
    }
}

impl<'a> Model for OpenModel<'a> {
    ghost use Rattle.std.specs.Prelude.{IsTrue, None, Some, if◌then◌else◌};
    ghost use Rattle.net_blif.specs.Item.{IsSoundCover};
    ghost use Rattle.net_blif.specs.Models.{OpenValue};

    ghost Value = { OpenValue };

    ghost view = { λ m. record { name = m.name; items = m.items; cover = if m.is_open then Some m.cover else None } };

    ghost invariant = { λ m. IsTrue m.is_open → IsSoundCover m.cover };
}

impl<'a> OpenModel<'a> {
    /// A model of this name before its lines. It takes no memory.
    pub fn new(alloc: Global, name: Name) -> OpenModel<'a>
        ensures { result ≡ record { name = name; items = []; cover = None } }
    {
        OpenModel {
            name,
            items: ItemList::new(alloc),
            cover: Cover::new(alloc),
            is_open: false,
        }
    }

    /// Whether this may be the next row.
    pub fn takes(&self, pattern: &[u8], output: bool) -> bool
        ensures { result ≡ option_map_or (takes_row pattern.now output) self.now.cover false }
    {
        self.is_open && self.cover.takes(pattern, output)
    }

    /// The row with which a text begins, where it may be the next row and its line stands alone. None says nothing.
    pub fn row_at<'t>(&self, text: &'t [u8]) -> Option<PlacedRow<'t>>
        ensures row { IfSome result (λ r. RowStandsAlone text.now r.pattern.now r.output r.after.now) }
        ensures takes { IfSome result (λ r. IsTrue (option_map_or (takes_row r.pattern.now r.output) self.now.cover false)) }
    {
        if !self.is_open {
            return None;
        }
        self.cover.row_at(text)
    }

    // Ends the cover just begun, if one is open, which is then a gate.
    fn close(&mut self) -> Result<(), AllocError>
        ensures { OnOk result (self.new ≡ with_items [] None self.old) }
    {
        if self.is_open {
            self.is_open = false;
            self.cover.place(&mut self.items)?;
        }
        Ok(())
    }

    /// Begins a cover.
    pub fn begin_cover(
        &mut self,
        line: u32,
        inputs: &[Token<'a>],
        out: &'a [u8],
    ) -> Result<(), AllocError>
        requires few { length inputs.now ≤ 6 }
        requires inputs { All IsToken inputs.now }
        requires out { IsToken out.now }
        ensures { OnOk result (self.new ≡ with_items [] (Some (begun line inputs.now out.now)) self.old) }
    {
        self.close()?;
        self.cover.begin(line, inputs, out)?;
        self.is_open = true;
        Ok(())
    }

    /// Ends the cover just begun, if one is open, and places what a statement says.
    pub fn place(&mut self, line: u32, statement: &Statement<'_, '_>) -> Result<(), AllocError>
        requires { HasPrintingNames statement.now }
        ensures { OnOk result (self.new ≡ with_items (items_said line statement.now) None self.old) }
    {
        self.close()?;
        place_items(&mut self.items, line, statement)?;
        Ok(())
    }

    /// One more row of the cover just begun.
    pub fn add_row(&mut self, pattern: &'a [u8], output: bool) -> Result<(), AllocError>
        ensures { OnOk result (self.new ≡ with_cover_row pattern.now output self.old) }
    {
        if self.is_open {
            self.cover.add_row(pattern, output)?;
        }
        Ok(())
    }

    /// The model, of which this was the last line.
    pub fn finish(mut self) -> Result<ModelText, AllocError>
        ensures { IfOk result (λ model. model ≡ record { name = self.entry.name; items = placed self.entry }) }
    {
        self.close()?;
        let OpenModel {
            name,
            items,
            cover,
            is_open: _,
        } = self;
        drop(cover);
        Ok(ModelText::new(name, items))
    }
}

// Places what a statement says behind these items.
fn place_items(
    items: &mut ItemList,
    line: u32,
    statement: &Statement<'_, '_>,
) -> Result<(), AllocError>
    requires { HasPrintingNames statement.now }
    ensures { OnOk result (items.new ≡ items.old ++ items_said line statement.now) }
{
    match statement {
        Statement::Inputs(nets) => items.push_inputs(nets.as_slice()),
        Statement::Outputs(nets) => items.push_outputs(nets.as_slice()),
        Statement::Latch { next, out, rest } => {
            items.push_latch(line, next.bytes(), out.bytes(), start_of(rest.as_slice()))
        }
        Statement::Instance { model, connections } => {
            items.push_instance(line, model.bytes(), connections.as_slice())
        }
        _ => Ok(()),
    }
}
