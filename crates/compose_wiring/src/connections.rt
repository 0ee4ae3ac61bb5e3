//! What instances connect to formals.
ghost use Rattle.std.specs.Prelude.{◌≡◌, ◌<◌, All, IfNone, IfOk, IfSome, None, Some, length, slice_get};
ghost use Rattle.net_blif.specs.Connection.{actual_of};
ghost use Rattle.net_blif.specs.Statement.{IsToken, Token};
ghost use Rattle.net_blif.specs.Table.{numbers_in};
ghost use Rattle.compose_wiring.specs.private.Names.{actual_by, actuals_by, place_from};

use crate::nets::Nets;
use net_blif::{Table, TokenSlice, sides, text_of};
use net_core::Name;
use std::alloc::{AllocError, Global};
use std::marker::Model;

/// The connections of an instance, each `formal=actual`. Contracts see the list of them.
#[derive(Drop)]
pub(crate) struct Connections<'a> {
    list: TokenSlice<'a>,
}

impl<'a> Model for Connections<'a> {
    ghost use Rattle.std.specs.Prelude.{All, List};
    ghost use Rattle.net_blif.specs.Statement.{IsToken, Token};

    ghost Value = { List Token };

    ghost view = { λ connections. connections.list };

    ghost invariant = { λ connections. All IsToken connections.list };
}

impl<'a> Connections<'a> {
    /// These connections.
    pub fn new(list: TokenSlice<'a>) -> Connections<'a>
        requires { All IsToken list }
        ensures { result ≡ list.entry }
    {
        Connections { list }
    }

    /// The place of each formal.
    pub fn table(&self, alloc: Global, key: u64) -> Result<Table, AllocError>
        ensures { IfOk result (λ table. numbers_in table ≡ place_from 0 self.now) }
    {
        let table = places(alloc, key, &self.list)?;
        Ok(table)
    }

    /// What is connected to formals, by their places, one by one; none where one is not connected.
    pub fn actuals(
        &self,
        alloc: Global,
        table: &Table,
        formals: &[Name],
    ) -> Result<Option<Nets<'a>>, AllocError>
        requires { numbers_in table.now ≡ place_from 0 self.now }
        ensures { IfOk result (λ nets. nets ≡ actuals_by self.now formals.now) }
    {
        let nets = actuals(alloc, &self.list, table, formals)?;
        Ok(nets)
    }
}

// The place of each formal; an earlier one before a later one.
fn places(alloc: Global, key: u64, connections: &TokenSlice<'_>) -> Result<Table, AllocError>
    requires { All IsToken connections.now }
    ensures { IfOk result (λ table. numbers_in table ≡ place_from 0 connections.now) }
{
    // the connections are in memory, so their count is below 2^32
    let Ok(count) = u32::try_from(connections.len()) else {
        return Err(AllocError);
    };
    let mut table = Table::new(alloc, key);
    for place in (0..count).rev() {
        let (formal, _) = sides(connections.get(place as usize));
        table.insert(text_of(formal), place)?;
    }
    Ok(table)
}

// What stands behind the first `=` of the connection of a place.
fn actual_at<'a>(connections: &TokenSlice<'a>, place: usize) -> &'a str
    requires place { place < length connections.now }
    requires tokens { All IsToken connections.now }
    ensures { (connection : Token) → slice_get connections.now place ≡ Some connection → result.now ≡ actual_of connection }
{
    let (_, actual) = sides(connections.get(place));
    text_of(actual)
}

// What is connected to a formal, by the places of formals.
fn actual<'a>(connections: &TokenSlice<'a>, table: &Table, formal: &str) -> Option<&'a str>
    requires tokens { All IsToken connections.now }
    requires table { numbers_in table.now ≡ place_from 0 connections.now }
    ensures some { IfSome result (λ actual. actual_by connections.now formal.now ≡ Some actual.now) }
    ensures none { IfNone result (actual_by connections.now formal.now ≡ None) }
{
    match table.get(formal) {
        Some(place) => Some(actual_at(connections, place as usize)),
        None => None,
    }
}

// What is connected to formals, one by one; none where one is not connected.
fn actuals<'a>(
    alloc: Global,
    connections: &TokenSlice<'a>,
    table: &Table,
    formals: &[Name],
) -> Result<Option<Nets<'a>>, AllocError>
    requires tokens { All IsToken connections.now }
    requires table { numbers_in table.now ≡ place_from 0 connections.now }
    ensures { IfOk result (λ nets. nets ≡ actuals_by connections.now formals.now) }
{
    let mut nets = Nets::new(alloc);
    for place in 0..formals.len() {
        match actual(connections, table, formals[place].as_str()) {
            Some(actual) => nets.push(actual)?,
            None => return Ok(None),
        }
    }
    Ok(Some(nets))
}
