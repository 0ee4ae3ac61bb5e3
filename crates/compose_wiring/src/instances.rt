//! The instances among what a model places.
ghost use Rattle.std.specs.Prelude.{◌≡◌, ◌++◌, IfOk, OnOk, filter, map};
ghost use Rattle.net_blif.specs.Item.{IsSoundItem};
ghost use Rattle.net_blif.specs.Top.{connections_in, is_instance};
ghost use Rattle.compose_wiring.specs.private.Names.{connections_of};

use crate::connections::Connections;
use net_blif::{Item, ItemList};
use std::alloc::{AllocError, Global};

// Adds the connections of an instance.
fn add_instance<'a>(list: &mut Vec<Connections<'a>>, item: Item<'a>) -> Result<(), AllocError>
    requires { IsSoundItem item }
    ensures { OnOk result (list.new.items ≡ list.old.items ++ connections_of item.entry) }
{
    if let Item::Instance { connections, .. } = item {
        list.push(Connections::new(connections))?;
    }
    Ok(())
}

/// The connections of each instance, in order.
pub(crate) fn all_instances(
    alloc: Global,
    items: &ItemList,
) -> Result<Vec<Connections<'_>>, AllocError>
    ensures { IfOk result (λ list. list.items ≡ map connections_in (filter is_instance items.now)) }
{
    let mut list = Vec::new(alloc);
    for place in 0..items.len() {
        add_instance(&mut list, items.get(place))?;
    }
    Ok(list)
}
