//! The lines of a model with each port once.
ghost use Rattle.std.specs.Prelude.{◌≡◌, ◌<◌, ◌≤◌, ◌^◌, ◌++◌, ◌∷◌, [], All, IsTrue, IfOk, OnOk, length};
ghost use Rattle.std.specs.List.{list_all};
ghost use Rattle.net_blif.specs.Connection.{is_connection};
ghost use Rattle.net_blif.specs.Item.{IsSoundItem};
ghost use Rattle.net_blif.specs.Ports.{ports_once};
ghost use Rattle.net_blif.specs.Statement.{IsToken};
ghost use Rattle.net_blif.specs.private.Connecting.{after};
ghost use Rattle.net_blif.specs.private.Once.{no_lines, once_in, with_line, with_one_port};

use crate::formals::text_of;
use crate::item::Item;
use crate::item_list::ItemList;
use crate::table::Table;
use crate::token::Token;
use crate::token_list::TokenSlice;
use net_core::Start;
use std::alloc::{AllocError, Global};

/// Lines in which each port stands once, and a table of the names of these ports.
#[derive(Drop)]
pub struct Once {
    stood: Table,
    lines: ItemList,
}

// The tokens of a slice.
fn copied<'a>(alloc: Global, tokens: &TokenSlice<'a>) -> Result<Vec<Token<'a>>, AllocError>
    ensures { IfOk result (λ list. list.items ≡ tokens.now) }
{
    let mut list = Vec::new(alloc);
    for place in 0..tokens.len() {
        let Ok(()) = list.push(Token::new(tokens.get(place))) else {
            return Err(AllocError);
        };
    }
    Ok(list)
}

// A line of one port, at the end.
fn push_port(lines: &mut ItemList, name: &[u8]) -> Result<(), AllocError>
    requires { IsToken name.now }
    ensures { OnOk result (lines.new ≡ lines.old ++ Item.Outputs (name.now ∷ []) ∷ []) }
{
    lines.push_outputs(&[Token::new(name)])
}

impl Once {
    // No lines. It takes no memory.
    fn new(alloc: Global, key: u64) -> Once
        ensures { once_in result ≡ no_lines }
    {
        Once {
            stood: Table::new(alloc, key),
            lines: ItemList::new(alloc),
        }
    }

    // One more port, unless it stood before.
    fn add_port(&mut self, name: &[u8]) -> Result<(), AllocError>
        requires { IsToken name.now }
        ensures { OnOk result (once_in self.new ≡ with_one_port (once_in self.old) name.now) }
    {
        let text = text_of(name);
        if self.stood.get(text).is_none() {
            self.stood.insert(text, 0)?;
            push_port(&mut self.lines, name)?;
        }
        Ok(())
    }

    fn add_ports(&mut self, names: &TokenSlice<'_>) -> Result<(), AllocError>
        requires { All IsToken names.now }
        ensures { OnOk result (once_in self.new ≡ after with_one_port (once_in self.old) names.now) }
    {
        for place in 0..names.len() {
            self.add_port(names.get(place))?;
        }
        Ok(())
    }

    fn add_gate(
        &mut self,
        alloc: Global,
        line: u32,
        inputs: &TokenSlice<'_>,
        out: &[u8],
        table: u64,
    ) -> Result<(), AllocError>
        requires inputs { All IsToken inputs.now }
        requires few { length inputs.now ≤ 6 }
        requires out { IsToken out.now }
        requires table { table < 2 ^ (2 ^ length inputs.now) }
        ensures { OnOk result (once_in self.new ≡ with_line (once_in self.old) (Item.Gate line inputs.now out.now table)) }
    {
        let nets = copied(alloc, inputs)?;
        self.lines.push_gate(line, &nets, out, table)
    }

    fn add_latch(
        &mut self,
        line: u32,
        next: &[u8],
        out: &[u8],
        start: Start,
    ) -> Result<(), AllocError>
        requires next { IsToken next.now }
        requires out { IsToken out.now }
        ensures { OnOk result (once_in self.new ≡ with_line (once_in self.old) (Item.Latch line next.now out.now start)) }
    {
        self.lines.push_latch(line, next, out, start)?;
        Ok(())
    }

    fn add_instance(
        &mut self,
        alloc: Global,
        line: u32,
        model: &[u8],
        connections: &TokenSlice<'_>,
    ) -> Result<(), AllocError>
        requires model { IsToken model.now }
        requires tokens { All IsToken connections.now }
        requires connections { IsTrue (list_all is_connection connections.now) }
        ensures { OnOk result (once_in self.new ≡ with_line (once_in self.old) (Item.Instance line model.now connections.now)) }
    {
        let tokens = copied(alloc, connections)?;
        self.lines.push_instance(line, model, &tokens)
    }

    // One more line.
    fn add_line(&mut self, alloc: Global, item: &Item<'_>) -> Result<(), AllocError>
        requires { IsSoundItem item.now }
        ensures { OnOk result (once_in self.new ≡ with_line (once_in self.old) item.now) }
    {
        match item {
            Item::Inputs(names) => self.add_ports(names),
            Item::Outputs(names) => self.add_ports(names),
            Item::Gate {
                line,
                inputs,
                out,
                table,
            } => self.add_gate(alloc, *line, inputs, out.bytes(), *table),
            Item::Latch {
                line,
                next,
                out,
                start,
            } => self.add_latch(*line, next.bytes(), out.bytes(), *start),
            Item::Instance {
                line,
                model,
                connections,
            } => self.add_instance(alloc, *line, model.bytes(), connections),
        }
    }

    fn add_lines(&mut self, alloc: Global, items: &ItemList) -> Result<(), AllocError>
        ensures { OnOk result (once_in self.new ≡ after with_line (once_in self.old) items.now) }
    {
        for place in 0..items.len() {
            let item = items.get(place);
            self.add_line(alloc, &item)?;
        }
        Ok(())
    }
}

/// The lines of a model with each port once, where it stands first. Names are hashed with this key.
pub fn with_ports_once(alloc: Global, key: u64, items: &ItemList) -> Result<ItemList, AllocError>
    ensures { IfOk result (λ lines. lines ≡ ports_once items.now) }
{
    let mut once = Once::new(alloc, key);
    once.add_lines(alloc, items)?;
    Ok(once.lines)
}
