//! What walks in instances go through.
ghost use Rattle.std.specs.Prelude.{◌≡◌, IfOk, map, slice_get, unwrap_or};
ghost use Rattle.net_blif.specs.private.Bodies.{AreBodies, body_of};

use crate::item_list::ItemList;
use crate::model_list::ModelList;
use crate::once::with_ports_once;
use crate::repeats::ports_repeat;
use std::alloc::{AllocError, Global};

// The lines of each model with each port once.
fn all_bodies(alloc: Global, models: &ModelList) -> Result<Vec<ItemList>, AllocError>
    ensures { IfOk result (λ bodies. bodies.items ≡ map body_of models.now) }
{
    let mut all = Vec::new(alloc);
    for model in 0..models.models() {
        let body = with_ports_once(alloc, models.key(), models.items(model))?;
        all.push(body)?;
    }
    Ok(all)
}

/// The lines of each model with each port once, where a port of some model stands twice. Else none, and nothing is copied.
pub fn kept_bodies(alloc: Global, models: &ModelList) -> Result<Vec<ItemList>, AllocError>
    ensures { IfOk result (λ bodies. AreBodies models.now bodies.items) }
{
    if !ports_repeat(alloc, models)? {
        return Ok(Vec::new(alloc));
    }
    all_bodies(alloc, models)
}

/// The body of a model, or what its lines place where none is kept.
pub fn body_or<'a>(bodies: &'a [ItemList], model: u32, items: &'a ItemList) -> &'a ItemList
    ensures { result.now ≡ unwrap_or (slice_get bodies.now model) items.now }
{
    match bodies.get(model as usize) {
        Some(body) => body,
        None => items,
    }
}
