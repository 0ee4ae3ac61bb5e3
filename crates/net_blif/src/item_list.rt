//! What the lines of a model place, with their tokens in one text.
ghost use Rattle.std.specs.Prelude.{◌≡◌, ◌≤◌, ◌<◌, ◌+◌, ◌^◌, ℕ, List, [], ◌∷◌, ◌++◌, Some, length, slice_get, slice_index_or, slice_range, All, IsTrue, IfOk, OnOk};
ghost use Rattle.std.specs.List.{list_all, list_any};
ghost use Rattle.net_blif.specs.Connection.{is_connection};
ghost use Rattle.net_blif.specs.Item.{IsSoundItem};
ghost use Rattle.net_blif.specs.Places.{item_at, IsPlace};
ghost use Rattle.net_blif.specs.Statement.{IsToken};
ghost use Rattle.net_blif.specs.Top.{is_instance};
ghost use Rattle.net_blif.specs.private.Bare.{is_instance_place};

use crate::item::Item;
use crate::pushes::push_one;
use crate::token::Token;
use crate::token_list::TokenList;
use net_core::Start;
use std::alloc::{AllocError, Global};
use std::marker::Model;

/// An item, whose tokens stand from `first` on and before `end`; the output of a gate stands at `end`,
/// the nets of a latch at `first` and behind it, and the model of an instance at `end`, behind its connections.
#[derive(Clone, Copy)]
pub enum Place {
    Inputs {
        first: u32,
        end: u32,
    },
    Outputs {
        first: u32,
        end: u32,
    },
    Gate {
        line: u32,
        first: u32,
        end: u32,
        table: u64,
    },
    Latch {
        line: u32,
        first: u32,
        start: Start,
    },
    Instance {
        line: u32,
        first: u32,
        end: u32,
    },
}

/// What the lines of a model place, in order. Contracts see the list of the items.
pub struct ItemList {
    tokens: TokenList,
    places: Vec<Place>,
}

// By hand, so that a caller that lets one go makes one call, and not one for each part.
impl Drop for ItemList {
    fn drop(self) {
        let ItemList { tokens, places } = self;
        drop(tokens);
        drop(places);
    }
}

impl Model for ItemList {
    ghost use Rattle.std.specs.Prelude.{List, length, All};
    ghost use Rattle.net_blif.specs.declared.item.Item.{Item};
    ghost use Rattle.net_blif.specs.Item.{IsSoundItem};
    ghost use Rattle.net_blif.specs.Places.{ArePlaces, items_at};

    ghost Value = { List Item };

    ghost view = { λ l. items_at l.tokens l.places.items };

    ghost invariant = { λ l. ArePlaces (length l.tokens) l.places.items × All IsSoundItem (items_at l.tokens l.places.items) };
}

impl ItemList {
    /// Nothing is placed. It takes no memory.
    pub fn new(alloc: Global) -> ItemList
        ensures { result ≡ [] }
    {
        ItemList {
            tokens: TokenList::new(alloc),
            places: Vec::new(alloc),
        }
    }

    /// How many items there are.
    pub fn len(&self) -> usize
        ensures { result ≡ length self.now }
    {
        self.places.len()
    }

    /// Whether an item is an instance.
    pub fn has_instance(&self) -> bool
        ensures { result ≡ list_any is_instance self.now }
    {
        any_instance(&self.places)
    }

    /// The item of a place below the count.
    pub fn get(&self, place: usize) -> Item<'_>
        requires { place < length self.now }
        ensures item { Some result ≡ slice_get self.now place }
        ensures sound { IsSoundItem result }
    {
        item_of(&self.tokens, place_at(&self.places, place))
    }

    /// Primary inputs at the end.
    pub fn push_inputs(&mut self, nets: &[Token<'_>]) -> Result<(), AllocError>
        requires { All IsToken nets.now }
        ensures { OnOk result (self.new ≡ self.old ++ Item.Inputs nets.now ∷ []) }
    {
        let (first, end) = append_nets(&mut self.tokens, nets)?;
        self.places.push(Place::Inputs { first, end })?;
        Ok(())
    }

    /// Outputs at the end.
    pub fn push_outputs(&mut self, nets: &[Token<'_>]) -> Result<(), AllocError>
        requires { All IsToken nets.now }
        ensures { OnOk result (self.new ≡ self.old ++ Item.Outputs nets.now ∷ []) }
    {
        let (first, end) = append_nets(&mut self.tokens, nets)?;
        self.places.push(Place::Outputs { first, end })?;
        Ok(())
    }

    /// A gate at the end. Always inlined, since most items are gates and each of them would make the call.
    #[inline(always)]
    pub fn push_gate(
        &mut self,
        line: u32,
        inputs: &[Token<'_>],
        out: &[u8],
        table: u64,
    ) -> Result<(), AllocError>
        requires inputs { All IsToken inputs.now }
        requires few { length inputs.now ≤ 6 }
        requires out { IsToken out.now }
        requires table { table < 2 ^ (2 ^ length inputs.now) }
        ensures { OnOk result (self.new ≡ self.old ++ Item.Gate line inputs.now out.now table ∷ []) }
    {
        let (first, end) = append_nets(&mut self.tokens, inputs)?;
        self.tokens.push(out)?;
        push_one(
            &mut self.places,
            Place::Gate {
                line,
                first,
                end,
                table,
            },
        )?;
        Ok(())
    }

    /// A latch at the end.
    pub fn push_latch(
        &mut self,
        line: u32,
        next: &[u8],
        out: &[u8],
        start: Start,
    ) -> Result<(), AllocError>
        requires next { IsToken next.now }
        requires out { IsToken out.now }
        ensures { OnOk result (self.new ≡ self.old ++ Item.Latch line next.now out.now start ∷ []) }
    {
        let first = number(self.tokens.len())?;
        self.tokens.push(next)?;
        self.tokens.push(out)?;
        self.places.push(Place::Latch { line, first, start })?;
        Ok(())
    }

    /// An instance at the end.
    pub fn push_instance(
        &mut self,
        line: u32,
        model: &[u8],
        connections: &[Token<'_>],
    ) -> Result<(), AllocError>
        requires model { IsToken model.now }
        requires tokens { All IsToken connections.now }
        requires connections { IsTrue (list_all is_connection connections.now) }
        ensures { OnOk result (self.new ≡ self.old ++ Item.Instance line model.now connections.now ∷ []) }
    {
        let (first, end) = append_nets(&mut self.tokens, connections)?;
        self.tokens.push(model)?;
        self.places.push(Place::Instance { line, first, end })?;
        Ok(())
    }
}

// Whether a place is that of an instance.
fn of_instance(place: &Place) -> bool
    ensures { result ≡ is_instance_place place.now }
{
    matches!(place, Place::Instance { .. })
}

// Whether one of the places is that of an instance.
fn any_instance(places: &[Place]) -> bool
    ensures { result ≡ list_any is_instance_place places.now }
{
    places.iter().any(of_instance)
}

// The place of an item.
fn place_at(places: &[Place], place: usize) -> Place
    requires { place < length places.now }
    ensures { Some result ≡ slice_get places.now place }
{
    places[place]
}

// The item of a place.
fn item_of(tokens: &TokenList, place: Place) -> Item<'_>
    requires { IsPlace (length tokens.now) place }
    ensures { result ≡ item_at tokens.now place }
{
    match place {
        Place::Inputs { first, end } => Item::Inputs(tokens.range(first as usize, end as usize)),
        Place::Outputs { first, end } => Item::Outputs(tokens.range(first as usize, end as usize)),
        Place::Gate {
            line,
            first,
            end,
            table,
        } => Item::Gate {
            line,
            inputs: tokens.range(first as usize, end as usize),
            out: Token::new(tokens.get(end as usize)),
            table,
        },
        Place::Latch { line, first, start } => latch_at(tokens, line, first, start),
        Place::Instance { line, first, end } => instance_at(tokens, line, first, end),
    }
}

// The latch whose nets stand at `first` and behind it.
fn latch_at(tokens: &TokenList, line: u32, first: u32, start: Start) -> Item<'_>
    requires { first + 1 < length tokens.now }
    ensures { result ≡ Item.Latch line (slice_index_or tokens.now first []) (slice_index_or tokens.now (first + 1) []) start }
{
    Item::Latch {
        line,
        next: Token::new(tokens.get(first as usize)),
        out: Token::new(tokens.get(first as usize + 1)),
        start,
    }
}

// The instance whose connections stand from `first` on and before `end`, and whose model stands at `end`.
fn instance_at(tokens: &TokenList, line: u32, first: u32, end: u32) -> Item<'_>
    requires order { first ≤ end }
    requires end { end < length tokens.now }
    ensures { result ≡ Item.Instance line (slice_index_or tokens.now end []) (slice_range tokens.now first end) }
{
    Item::Instance {
        line,
        model: Token::new(tokens.get(end as usize)),
        connections: tokens.range(first as usize, end as usize),
    }
}

// Puts the tokens of a line at the end, and gives where they begin and end. Always inlined, as `push_gate` is.
#[inline(always)]
fn append_nets(tokens: &mut TokenList, nets: &[Token<'_>]) -> Result<(u32, u32), AllocError>
    ensures made { IfOk result (λ r. (tokens.new ≡ tokens.old ++ nets.now) × (r.0 ≡ length tokens.old) × (r.1 ≡ length tokens.new)) }
    ensures grows { (more : List (List ℕ)) × (tokens.new ≡ tokens.old ++ more) }
{
    let first = number(tokens.len())?;
    tokens.push_all(nets)?;
    let end = number(tokens.len())?;
    Ok((first, end))
}

// A count of tokens in memory, which is below 2^32.
fn number(count: usize) -> Result<u32, AllocError>
    ensures { IfOk result (λ n. n ≡ count) }
{
    match u32::try_from(count) {
        Ok(number) => Ok(number),
        Err(_) => Err(AllocError),
    }
}
