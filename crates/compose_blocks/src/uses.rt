//! The blocks and the models of instances.
ghost use Rattle.std.specs.Prelude.{◌≡◌, ◌<◌, ◌^◌, ℕ, List, true, length, Ok, Some, IfErr, IfOk, OnOk};
ghost use Rattle.outcome.specs.ForEach.{ForEach};
ghost use Rattle.indexmap.specs.IndexMap.{get_by_text};
ghost use Rattle.net_blif.specs.Design.{model_named};
ghost use Rattle.net_blif.specs.Item.{IsSoundItem};
ghost use Rattle.net_blif.specs.Models.{AreRight};
ghost use Rattle.net_blif.specs.Top.{instances_of, is_instance as instance_is, model_in as model_of_item};
ghost use Rattle.compose_model.specs.Hierarchy.{block_from};
ghost use Rattle.compose_blocks.specs.Planned.{MayFault};
ghost use Rattle.compose_blocks.specs.Structure.{NumberOf};
ghost use Rattle.compose_blocks.specs.private.Found.{AreFound, IsAdded, IsFound};

use crate::PlanFault;
use crate::table::{Numbers, number_of, numbers_of};
use net_blif::{Design, Item, is_instance, model_in};
use net_core::Name;
use net_signature::Block;
use std::alloc::Global;

/// The block of an instance, by its number among the blocks, and its model, by its number in the design.
#[derive(Clone, Copy)]
pub(crate) struct Found {
    pub(crate) block: u32,
    pub(crate) model: u32,
}

// What is found of an instance.
fn one_found(
    alloc: Global,
    design: &Design,
    numbers: &Numbers,
    _blocks: &[Block],
    item: &Item<'_>,
) -> Result<Found, PlanFault>
    requires sound { IsSoundItem item.now }
    requires numbers { (name : List ℕ) → get_by_text numbers.now name ≡ block_from 0 _blocks.now name }
    requires model { (model : ℕ) × (model_named design.now (model_of_item item.now) ≡ Some model) }
    ensures found { IfOk result (λ found. IsFound design.now _blocks.now item.now found) }
    ensures fault { IfErr result (MayFault (NumberOf _blocks.now item.now)) }
{
    let name = model_in(item);
    let Some(block) = number_of(numbers, name) else {
        let Ok(model) = Name::new(alloc, name) else {
            return Err(PlanFault::OutOfMemory);
        };
        return Err(PlanFault::NoBlock { model });
    };
    match design.model(name) {
        Some(model) => Ok(Found { block, model }),
        None => unreachable!(),
    }
}

// Adds what is found of an instance.
fn add_found(
    alloc: Global,
    design: &Design,
    numbers: &Numbers,
    blocks: &[Block],
    item: &Item<'_>,
    list: &mut Vec<Found>,
) -> Result<(), PlanFault>
    requires sound { IsSoundItem item.now }
    requires numbers { (name : List ℕ) → get_by_text numbers.now name ≡ block_from 0 blocks.now name }
    requires model { instance_is item.now ≡ true → (model : ℕ) × (model_named design.now (model_of_item item.now) ≡ Some model) }
    ensures added { OnOk result (IsAdded design.now blocks.now item.now list.old.items list.new.items) }
    ensures fault { IfErr result (λ fault. (instance_is item.now ≡ true) × MayFault (NumberOf blocks.now item.now) fault) }
{
    if is_instance(item) {
        let found = match one_found(alloc, design, numbers, blocks, item) {
            Ok(found) => found,
            Err(fault) => return Err(fault),
        };
        let Ok(()) = list.push(found) else {
            return Err(PlanFault::OutOfMemory);
        };
    }
    Ok(())
}

// What is found of the instances of a top by the numbers of the blocks.
fn found_by(
    alloc: Global,
    design: &Design,
    numbers: &Numbers,
    blocks: &[Block],
) -> Result<Vec<Found>, PlanFault>
    requires { (name : List ℕ) → get_by_text numbers.now name ≡ block_from 0 blocks.now name }
    ensures found { IfOk result (λ list. AreFound design.now blocks.now (instances_of design.now) list.items) }
    ensures right { OnOk result (AreRight design.now (Ok tt)) }
    ensures few { OnOk result (length (instances_of design.now) < 2 ^ 32) }
    ensures fault { IfErr result (MayFault (ForEach (NumberOf blocks.now) (instances_of design.now))) }
{
    let items = design.top_items();
    let mut list = Vec::new(alloc);
    for place in 0..items.len() {
        let item = items.get(place);
        match add_found(alloc, design, numbers, blocks, &item, &mut list) {
            Ok(()) => {}
            Err(fault) => return Err(fault),
        }
    }
    Ok(list)
}

/// The blocks and the models of the instances of a top, or the first model that has no block. What the design keeps comes
/// with them.
pub(crate) fn found_in(
    alloc: Global,
    design: &Design,
    blocks: &[Block],
) -> Result<Vec<Found>, PlanFault>
    requires { length blocks.now < 2 ^ 32 }
    ensures found { IfOk result (λ list. AreFound design.now blocks.now (instances_of design.now) list.items) }
    ensures right { OnOk result (AreRight design.now (Ok tt)) }
    ensures few { OnOk result (length (instances_of design.now) < 2 ^ 32) }
    ensures fault { IfErr result (MayFault (ForEach (NumberOf blocks.now) (instances_of design.now))) }
{
    let Ok(numbers) = numbers_of(alloc, design.key(), blocks) else {
        return Err(PlanFault::OutOfMemory);
    };
    found_by(alloc, design, &numbers, blocks)
}
