//! Whether ports stand twice. It tells alone which lines are kept for walks, and no contract rests on it.
ghost use Rattle.std.specs.Prelude.{All};
ghost use Rattle.net_blif.specs.Item.{IsSoundItem};
ghost use Rattle.net_blif.specs.Statement.{IsToken};

use crate::formals::text_of;
use crate::item::Item;
use crate::item_list::ItemList;
use crate::model_list::ModelList;
use crate::table::Table;
use crate::token_list::TokenSlice;
use std::alloc::{AllocError, Global};

// Whether a line of ports has none, or one that stood before.
fn names_repeat(stood: &mut Table, names: &TokenSlice<'_>) -> Result<bool, AllocError>
    requires { All IsToken names.now }
{
    if names.len() == 0 {
        return Ok(true);
    }
    for place in 0..names.len() {
        let name = text_of(names.get(place));
        if stood.get(name).is_some() {
            return Ok(true);
        }
        stood.insert(name, 0)?;
    }
    Ok(false)
}

// The same of any line.
fn line_repeats(stood: &mut Table, item: &Item<'_>) -> Result<bool, AllocError>
    requires { IsSoundItem item.now }
{
    match item {
        Item::Inputs(names) => names_repeat(stood, names),
        Item::Outputs(names) => names_repeat(stood, names),
        _ => Ok(false),
    }
}

// Whether a line of a model is such a one.
fn lines_repeat(alloc: Global, key: u64, items: &ItemList) -> Result<bool, AllocError> {
    let mut stood = Table::new(alloc, key);
    for place in 0..items.len() {
        let item = items.get(place);
        if line_repeats(&mut stood, &item)? {
            return Ok(true);
        }
    }
    Ok(false)
}

/// Whether a model has a line of ports without a name, or with one that stood before in it. A single model is in no instance.
pub fn ports_repeat(alloc: Global, models: &ModelList) -> Result<bool, AllocError> {
    if models.models() == 1 {
        return Ok(false);
    }
    for model in 0..models.models() {
        if lines_repeat(alloc, models.key(), models.items(model))? {
            return Ok(true);
        }
    }
    Ok(false)
}
