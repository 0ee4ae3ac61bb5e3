//! What was read of a text, line by line.
ghost use Rattle.std.specs.Prelude.{◌≡◌, ◌⊎◌, ◌∷◌, ℕ, None, Some, Ok, Err, codes, is_some, IfOk, IfErr, IfSome, OnOk, All, IsTrue};
ghost use Rattle.std.specs.List.{list_all};
ghost use Rattle.text_core.specs.Lines.{IsPrinting};
ghost use Rattle.net_blif.specs.Statement.{IsToken, is_cell, row_tokens};
ghost use Rattle.net_blif.specs.private.FirstLine.{with_names, RowStandsAlone};
ghost use Rattle.net_blif.specs.private.Placing.{is_placed};
ghost use Rattle.net_blif.specs.Item.{HasPrintingNames};
ghost use Rattle.net_blif.specs.Models.{in_model, with_cover_row, models_of, may_stand as may_stand_here, next as next_reading, start, ReadsLine};

use crate::BlifFault;
use crate::formals::text_of;
use crate::model_list::ModelList;
use crate::open_model::OpenModel;
use crate::rows::PlacedRow;
use crate::spelling::{nets_of, read_statement};
use crate::statement::Statement;
use crate::token::Token;
use net_core::Name;
use std::alloc::{AllocError, Global};
use std::marker::Model;

/// The models that have ended, and the one whose lines are being read.
#[derive(Drop)]
pub struct Reader<'a> {
    design: ModelList,
    model: Option<OpenModel<'a>>,
}

impl<'a> Model for Reader<'a> {
    ghost use Rattle.net_blif.specs.Models.{Reading};

    ghost Value = { Reading };

    ghost view = { λ r. record { models = r.design; model = r.model } };
}

impl<'a> Reader<'a> {
    /// Nothing was read of a text with this key. It takes no memory.
    pub fn new(alloc: Global, key: u64) -> Reader<'a>
        ensures { result ≡ start }
    {
        Reader {
            design: ModelList::new(alloc, key),
            model: None,
        }
    }

    // Ends the model that is being read, if there is one. An error leaves some reader, here and below.
    fn end(&mut self, alloc: Global) -> Result<(), AllocError>
        ensures { OnOk result (self.new ≡ record { models = models_of self.old; model = None }) }
    {
        if let Some(model) = self.model.take() {
            let last = model.finish()?;
            self.design.add(alloc, last)?;
        }
        Ok(())
    }

    /// The models, of which all lines were read.
    pub fn finish(self, alloc: Global) -> Result<ModelList, AllocError>
        ensures { IfOk result (λ design. design ≡ models_of self.entry) }
    {
        let mut reader = self;
        reader.end(alloc)?;
        let Reader { design, .. } = reader;
        Ok(design)
    }

    // Whether the statement may stand here.
    fn may_stand(&self, statement: &Statement<'_, '_>) -> bool
        ensures { result ≡ may_stand_here self.now statement.now }
    {
        match statement {
            Statement::Model(_) => true,
            Statement::Row { pattern, output } => match &self.model {
                None => false,
                Some(model) => model.takes(pattern.bytes(), *output),
            },
            _ => self.model.is_some(),
        }
    }

    // Begins a model.
    fn begin(&mut self, alloc: Global, line: u32, name: &[u8]) -> Result<(), BlifFault>
        requires { IsPrinting name.now }
        ensures read { OnOk result (next_reading self.old line (Statement.Model name.now) ≡ Ok self.new) }
        ensures fault { IfErr result (λ e. (e ≡ BlifFault.OutOfMemory) ⊎ (next_reading self.old line (Statement.Model name.now) ≡ Err e)) }
    {
        let Ok(()) = self.end(alloc) else {
            return Err(BlifFault::OutOfMemory);
        };
        let text = text_of(name);
        if self.design.model(text).is_some() {
            return Err(BlifFault::ModelTwice { line });
        }
        let Ok(name) = Name::new(alloc, text) else {
            return Err(BlifFault::OutOfMemory);
        };
        self.model = Some(OpenModel::new(alloc, name));
        Ok(())
    }

    // Ends the cover just begun, and places what a statement says that belongs to a model and begins no cover.
    fn place(&mut self, line: u32, statement: &Statement<'_, 'a>) -> Result<(), BlifFault>
        requires names { HasPrintingNames statement.now }
        requires kind { IsTrue (is_placed statement.now) }
        ensures read { OnOk result (next_reading self.old line statement.now ≡ Ok self.new) }
        ensures fault { IfErr result (λ e. (e ≡ BlifFault.OutOfMemory) ⊎ (next_reading self.old line statement.now ≡ Err e)) }
    {
        if let Some(model) = &mut self.model {
            let Ok(()) = model.place(line, statement) else {
                return Err(BlifFault::OutOfMemory);
            };
        }
        Ok(())
    }

    // Adds a row.
    fn add_row(&mut self, pattern: &'a [u8], output: bool) -> Result<(), AllocError>
        ensures { OnOk result (self.new ≡ in_model (with_cover_row pattern.now output) self.old) }
    {
        if let Some(model) = &mut self.model {
            model.add_row(pattern, output)?;
        }
        Ok(())
    }

    // Begins a cover of these nets, if they are few.
    fn cover(&mut self, line: u32, inputs: &[Token<'a>], out: &'a [u8]) -> Result<(), BlifFault>
        requires inputs { All IsToken inputs.now }
        requires out { IsToken out.now }
        ensures read { OnOk result (next_reading self.old line (Statement.Cover inputs.now out.now) ≡ Ok self.new) }
        ensures fault { IfErr result (λ e. (e ≡ BlifFault.OutOfMemory) ⊎ (next_reading self.old line (Statement.Cover inputs.now out.now) ≡ Err e)) }
    {
        let count = inputs.len();
        if count > 6 {
            return Err(too_wide(line, count));
        }
        match &mut self.model {
            Some(model) => match model.begin_cover(line, inputs, out) {
                Ok(()) => Ok(()),
                Err(AllocError) => Err(BlifFault::OutOfMemory),
            },
            None => Ok(()),
        }
    }

    // Adds what one more statement says.
    fn next(
        &mut self,
        alloc: Global,
        line: u32,
        statement: &Statement<'_, 'a>,
    ) -> Result<(), BlifFault>
        requires { HasPrintingNames statement.now }
        ensures read { OnOk result (next_reading self.old line statement.now ≡ Ok self.new) }
        ensures fault { IfErr result (λ e. (e ≡ BlifFault.OutOfMemory) ⊎ (next_reading self.old line statement.now ≡ Err e)) }
    {
        match statement {
            Statement::Model(name) => self.begin(alloc, line, name.bytes()),
            Statement::Cover { inputs, out } => self.cover(line, inputs.as_slice(), out.bytes()),
            Statement::Row { pattern, output } => match self.add_row(pattern.bytes(), *output) {
                Ok(()) => Ok(()),
                Err(AllocError) => Err(BlifFault::OutOfMemory),
            },
            Statement::End => match self.end(alloc) {
                Ok(()) => Ok(()),
                Err(AllocError) => Err(BlifFault::OutOfMemory),
            },
            Statement::Other { word, .. } => match Name::new(alloc, text_of(word.bytes())) {
                Ok(word) => Err(BlifFault::LeftOut { line, word }),
                Err(AllocError) => Err(BlifFault::OutOfMemory),
            },
            _ => self.place(line, statement),
        }
    }

    /// The row with which a text begins, where it may stand here and its line stands alone. None says nothing.
    pub fn row_at(&self, text: &'a [u8]) -> Option<PlacedRow<'a>>
        ensures row { IfSome result (λ r. RowStandsAlone text.now r.pattern.now r.output r.after.now) }
        ensures stands { IfSome result (λ r. IsTrue (may_stand_here self.now (Statement.Row r.pattern.now r.output))) }
    {
        match &self.model {
            None => None,
            Some(model) => model.row_at(text),
        }
    }

    /// Adds what the line of a row says that may stand here. After an error the reader is not used again.
    pub fn read_row(&mut self, pattern: &'a [u8], output: bool) -> Result<(), AllocError>
        requires tokens { All IsToken (row_tokens pattern.now output) }
        requires cells { IsTrue (list_all is_cell pattern.now) }
        requires stands { IsTrue (may_stand_here self.old (Statement.Row pattern.now output)) }
        ensures { OnOk result ((line : ℕ) → ReadsLine self.old line (row_tokens pattern.now output) (Ok self.new)) }
    {
        self.add_row(pattern, output)
    }

    // Whether a model is being read.
    fn is_open(&self) -> bool
        ensures { result ≡ is_some self.now.model }
    {
        self.model.is_some()
    }

    // Adds what a line of `.names` and these tokens says.
    fn read_cover(&mut self, line: u32, nets: &[Token<'a>]) -> Result<(), BlifFault>
        requires { All IsToken nets.now }
        ensures read { OnOk result (ReadsLine self.old line (codes ".names" ∷ nets.now) (Ok self.new)) }
        ensures fault { IfErr result (λ e. (e ≡ BlifFault.OutOfMemory) ⊎ ReadsLine self.old line (codes ".names" ∷ nets.now) (Err e)) }
    {
        let Some(parts) = nets_of(nets) else {
            return Err(BlifFault::Syntax { line });
        };
        if !self.is_open() {
            return Err(BlifFault::Syntax { line });
        }
        self.cover(line, parts.inputs, parts.out)
    }

    /// Adds what a line of these tokens says. After an error the reader is not used again.
    pub fn read_words(
        &mut self,
        alloc: Global,
        line: u32,
        words: &[Token<'a>],
    ) -> Result<(), BlifFault>
        requires { All IsToken words.now }
        ensures read { OnOk result (ReadsLine self.old line words.now (Ok self.new)) }
        ensures fault { IfErr result (λ e. (e ≡ BlifFault.OutOfMemory) ⊎ ReadsLine self.old line words.now (Err e)) }
    {
        if words.is_empty() {
            return Ok(());
        }
        let Some(statement) = read_statement(words) else {
            return Err(BlifFault::Syntax { line });
        };
        if !self.may_stand(&statement) {
            return Err(BlifFault::Syntax { line });
        }
        self.next(alloc, line, &statement)
    }

    /// Adds what a line of these tokens says, or one of `.names` and these. After an error the reader is not used again.
    pub fn read_alone(
        &mut self,
        alloc: Global,
        line: u32,
        is_cover: bool,
        words: &[Token<'a>],
    ) -> Result<(), BlifFault>
        requires { All IsToken words.now }
        ensures read { OnOk result (ReadsLine self.old line (with_names is_cover words.now) (Ok self.new)) }
        ensures fault { IfErr result (λ e. (e ≡ BlifFault.OutOfMemory) ⊎ ReadsLine self.old line (with_names is_cover words.now) (Err e)) }
    {
        if is_cover {
            return self.read_cover(line, words);
        }
        self.read_words(alloc, line, words)
    }
}

// A `.names` of so many inputs. The count of names in memory is below 2^32.
fn too_wide(line: u32, count: usize) -> BlifFault
    ensures { (result ≡ BlifFault.OutOfMemory) ⊎ (result ≡ BlifFault.TooWide line count) }
{
    match u32::try_from(count) {
        Ok(inputs) => BlifFault::TooWide { line, inputs },
        Err(_) => BlifFault::OutOfMemory,
    }
}
