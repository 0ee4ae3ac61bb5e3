//! What is wrong with instances.
ghost use Rattle.std.specs.Prelude.{◌≡◌, ◌<◌, ◌∷◌, [], None, Some, All, IfOk, IfErr, OnOk, length, map};
ghost use Rattle.net_blif.specs.Item.{IsSoundItem};
ghost use Rattle.net_blif.specs.Statement.{IsToken};
ghost use Rattle.net_blif.specs.Design.{ModelValue, items_of};
ghost use Rattle.net_blif.specs.Instances.{first_found, instance_fault, instances_fault};
ghost use Rattle.net_blif.specs.Table.{numbers_in};
ghost use Rattle.net_blif.specs.private.Connecting.{after, collected, connect, fault_by, formals_in, table_fault, IsFault};

use crate::BlifFault;
use crate::connection::sides;
use crate::formal_set::Formals;
use crate::formals::{are_in, text_of};
use crate::item::Item;
use crate::item_list::ItemList;
use crate::model_list::ModelList;
use crate::table::Table;
use crate::token_list::TokenSlice;
use std::alloc::{AllocError, Global};

// One more connection, if it is right.
fn check_connection(
    line: u32,
    formals: &Table,
    connected: &mut Table,
    connection: &[u8],
) -> Result<(), BlifFault>
    requires { IsToken connection.now }
    ensures right { OnOk result (table_fault line (numbers_in formals.now) (numbers_in connected.old) (connection.now ∷ []) ≡ None) }
    ensures connected { OnOk result (numbers_in connected.new ≡ connect (numbers_in connected.old) connection.now) }
    ensures fault { IfErr result (IsFault (table_fault line (numbers_in formals.now) (numbers_in connected.old) (connection.now ∷ []))) }
{
    let (formal, _) = sides(connection);
    let name = text_of(formal);
    if formals.get(name).is_none() {
        return Err(BlifFault::NoSuchFormal { line });
    }
    if connected.put(name, 0)? {
        return Err(BlifFault::FormalTwice { line });
    }
    Ok(())
}

// The connections of an instance, from left to right.
fn check_connections(
    line: u32,
    formals: &Table,
    connected: &mut Table,
    connections: &TokenSlice<'_>,
) -> Result<(), BlifFault>
    requires { All IsToken connections.now }
    ensures right { OnOk result (table_fault line (numbers_in formals.now) (numbers_in connected.old) connections.now ≡ None) }
    ensures connected { OnOk result (numbers_in connected.new ≡ after connect (numbers_in connected.old) connections.now) }
    ensures fault { IfErr result (IsFault (table_fault line (numbers_in formals.now) (numbers_in connected.old) connections.now)) }
{
    for place in 0..connections.len() {
        check_connection(line, formals, connected, connections.get(place))?;
    }
    Ok(())
}

// The connections of an instance of a model with these formals.
fn check_formals(
    alloc: Global,
    key: u64,
    line: u32,
    formals: &Formals,
    connections: &TokenSlice<'_>,
) -> Result<(), BlifFault>
    requires { All IsToken connections.now }
    ensures right { OnOk result (fault_by line (formals_in formals.now) connections.now ≡ None) }
    ensures fault { IfErr result (IsFault (fault_by line (formals_in formals.now) connections.now)) }
{
    let mut connected = Table::new(alloc, key);
    check_connections(line, &formals.names, &mut connected, connections)?;
    if !are_in(&connected, &formals.inputs.all()) {
        return Err(BlifFault::FormalMissing { line });
    }
    Ok(())
}

// The formals of a model.
fn formals_at<'a>(models: &ModelList, formals: &'a [Formals], model: u32) -> &'a Formals
    requires formals { map formals_in formals.now ≡ map (λ (m : ModelValue). collected m.items) models.now }
    requires model { model < length models.now }
    ensures { formals_in result.now ≡ collected (items_of models.now model) }
{
    &formals[model as usize]
}

// An instance of the model of this name.
fn check_instance(
    alloc: Global,
    models: &ModelList,
    formals: &[Formals],
    line: u32,
    name: &[u8],
    connections: &TokenSlice<'_>,
) -> Result<(), BlifFault>
    requires formals { map formals_in formals.now ≡ map (λ (m : ModelValue). collected m.items) models.now }
    requires name { IsToken name.now }
    requires tokens { All IsToken connections.now }
    ensures right { OnOk result (instance_fault models.now (Item.Instance line name.now connections.now) ≡ None) }
    ensures fault { IfErr result (IsFault (instance_fault models.now (Item.Instance line name.now connections.now))) }
{
    match models.model(text_of(name)) {
        None => Err(BlifFault::NoSuchModel { line }),
        Some(model) => check_formals(
            alloc,
            models.key(),
            line,
            formals_at(models, formals, model),
            connections,
        ),
    }
}

// What a line places.
fn check_item(
    alloc: Global,
    models: &ModelList,
    formals: &[Formals],
    item: &Item<'_>,
) -> Result<(), BlifFault>
    requires formals { map formals_in formals.now ≡ map (λ (m : ModelValue). collected m.items) models.now }
    requires sound { IsSoundItem item.now }
    ensures right { OnOk result (instance_fault models.now item.now ≡ None) }
    ensures fault { IfErr result (IsFault (instance_fault models.now item.now)) }
{
    match item {
        Item::Instance {
            line,
            model,
            connections,
        } => check_instance(alloc, models, formals, *line, model.bytes(), connections),
        _ => Ok(()),
    }
}

// What the lines of a model place.
fn check_items(
    alloc: Global,
    models: &ModelList,
    formals: &[Formals],
    items: &ItemList,
) -> Result<(), BlifFault>
    requires formals { map formals_in formals.now ≡ map (λ (m : ModelValue). collected m.items) models.now }
    ensures right { OnOk result (first_found (instance_fault models.now) items.now ≡ None) }
    ensures fault { IfErr result (IsFault (first_found (instance_fault models.now) items.now)) }
{
    for place in 0..items.len() {
        let item = items.get(place);
        check_item(alloc, models, formals, &item)?;
    }
    Ok(())
}

// The formals of each model.
fn all_formals(alloc: Global, models: &ModelList) -> Result<Vec<Formals>, AllocError>
    ensures { IfOk result (λ formals. map formals_in formals.items ≡ map (λ (m : ModelValue). collected m.items) models.now) }
{
    let mut all = Vec::new(alloc);
    for model in 0..models.models() {
        let formals = Formals::of(alloc, models.key(), models.items(model))?;
        all.push(formals)?;
    }
    Ok(all)
}

/// Whether instances are of models that there are, with the formals that these have; else the first fault.
pub fn check_instances(alloc: Global, models: &ModelList) -> Result<(), BlifFault>
    ensures right { OnOk result (instances_fault models.now ≡ None) }
    ensures fault { IfErr result (IsFault (instances_fault models.now)) }
{
    let Ok(formals) = all_formals(alloc, models) else {
        return Err(BlifFault::OutOfMemory);
    };
    for model in 0..models.models() {
        check_items(alloc, models, &formals, models.items(model))?;
    }
    Ok(())
}
