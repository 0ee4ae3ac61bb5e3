//! What stands in the top of a design.
ghost use Rattle.std.specs.Prelude.{◌≡◌, ◌<◌, ◌-◌, true, if◌then◌else◌, None, Some, All, IfSome, IfNone, filter, length, slice_get};
ghost use Rattle.net_blif.specs.Item.{IsSoundItem};
ghost use Rattle.net_blif.specs.Statement.{IsToken};
ghost use Rattle.net_blif.specs.Design.{model_named};
ghost use Rattle.net_blif.specs.Instances.{first_found};
ghost use Rattle.net_blif.specs.Top.{actual_at as actual_of_connection, actual_in as actual_of_item, gate_line as first_line, instances_of, is_instance as instance_is, line_in as line_of_item, model_in as model_of_item};
ghost use Rattle.net_blif.specs.declared.item.Item.{Item as ItemValue};

use crate::Design;
use crate::connection::sides;
use crate::formals::text_of;
use crate::item::Item;
use crate::item_list::ItemList;
use crate::token_list::TokenSlice;

// The line of a gate or latch.
fn line_in(item: &Item<'_>) -> Option<u32>
    ensures { result ≡ line_of_item item.now }
{
    match item {
        Item::Gate { line, .. } => Some(*line),
        Item::Latch { line, .. } => Some(*line),
        _ => None,
    }
}

// The line of the first gate or latch.
fn first_line_in(items: &ItemList) -> Option<u32>
    ensures { result ≡ first_found line_of_item items.now }
{
    for place in 0..items.len() {
        let item = items.get(place);
        if let Some(line) = line_in(&item) {
            return Some(line);
        }
    }
    None
}

/// Whether an item is an instance.
pub fn is_instance(item: &Item<'_>) -> bool
    ensures { result ≡ instance_is item.now }
{
    matches!(item, Item::Instance { .. })
}

// How many instances an item is.
fn counted(item: &Item<'_>) -> usize
    ensures { result ≡ (if instance_is item.now then 1 else 0) }
{
    if is_instance(item) { 1 } else { 0 }
}

// How many instances there are.
fn count(items: &ItemList) -> usize
    ensures { result ≡ length (filter instance_is items.now) }
{
    let mut count = 0;
    for place in 0..items.len() {
        let item = items.get(place);
        count += counted(&item);
    }
    count
}

// How many instances are to be passed after an item.
fn left_after(left: u32, item: &Item<'_>) -> u32
    requires { instance_is item.now ≡ true → 0 < left }
    ensures { result ≡ (if instance_is item.now then left - 1 else left) }
{
    if is_instance(item) { left - 1 } else { left }
}

// The instance of a number below the count.
fn instance_at(items: &ItemList, number: u32) -> Item<'_>
    requires { number < length (filter instance_is items.now) }
    ensures item { slice_get (filter instance_is items.now) number ≡ Some result }
    ensures sound { IsSoundItem result }
{
    let mut left = number;
    for place in 0..items.len() {
        let item = items.get(place);
        if left == 0 && is_instance(&item) {
            return item;
        }
        left = left_after(left, &item);
    }
    unreachable!()
}

// What a connection connects to a formal, if it connects it.
fn actual_at<'a>(formal: &str, connection: &'a [u8]) -> Option<&'a str>
    requires { IsToken connection.now }
    ensures some { IfSome result (λ actual. actual_of_connection formal.now connection.now ≡ Some actual.now) }
    ensures none { IfNone result (actual_of_connection formal.now connection.now ≡ None) }
{
    let (name, actual) = sides(connection);
    if name == formal.as_bytes() {
        Some(text_of(actual))
    } else {
        None
    }
}

// What connections connect to a formal.
fn actual_among<'a>(formal: &str, connections: &TokenSlice<'a>) -> Option<&'a str>
    requires { All IsToken connections.now }
    ensures some { IfSome result (λ actual. first_found (actual_of_connection formal.now) connections.now ≡ Some actual.now) }
    ensures none { IfNone result (first_found (actual_of_connection formal.now) connections.now ≡ None) }
{
    for place in 0..connections.len() {
        if let Some(actual) = actual_at(formal, connections.get(place)) {
            return Some(actual);
        }
    }
    None
}

// What an instance connects to a formal.
fn actual_in<'a>(formal: &str, item: &Item<'a>) -> Option<&'a str>
    requires { IsSoundItem item.now }
    ensures some { IfSome result (λ actual. actual_of_item item.now formal.now ≡ Some actual.now) }
    ensures none { IfNone result (actual_of_item item.now formal.now ≡ None) }
{
    match item {
        Item::Instance { connections, .. } => actual_among(formal, connections),
        _ => None,
    }
}

/// The name of the model of an instance; another item has the empty one.
pub fn model_in<'a>(item: &Item<'a>) -> &'a str
    requires sound { IsSoundItem item.now }
    ensures { result.now ≡ model_of_item item.now }
{
    match item {
        Item::Instance { model, .. } => text_of(model.bytes()),
        _ => "",
    }
}

// The top, which model 0 is.
impl Design {
    /// The line of its first `.names` or `.latch`; none exactly where it has neither. It takes no memory.
    pub fn gate_line(&self) -> Option<u32>
        ensures { result ≡ first_line self.now }
    {
        first_line_in(self.top_items())
    }

    /// How many instances it has. It takes no memory.
    pub fn instances(&self) -> u32
        ensures { result ≡ length (instances_of self.now) }
    {
        count(self.top_items()) as u32
    }

    /// The model of an instance; they are numbered from 0 in the order of the lines. It takes no memory.
    pub fn instance_model(&self, instance: u32) -> u32
        requires { instance < length (instances_of self.now) }
        ensures { (item : ItemValue) → slice_get (instances_of self.now) instance ≡ Some item → model_named self.now (model_of_item item) ≡ Some result }
    {
        let item = instance_at(self.top_items(), instance);
        match self.model(model_in(&item)) {
            Some(model) => model,
            None => unreachable!(),
        }
    }

    /// What an instance connects to a formal; none exactly where it does not connect it. It takes no memory.
    pub fn actual(&self, instance: u32, formal: &str) -> Option<&str>
        requires { instance < length (instances_of self.now) }
        ensures some { (item : ItemValue) → slice_get (instances_of self.now) instance ≡ Some item → IfSome result (λ actual. actual_of_item item formal.now ≡ Some actual.now) }
        ensures none { (item : ItemValue) → slice_get (instances_of self.now) instance ≡ Some item → IfNone result (actual_of_item item formal.now ≡ None) }
    {
        let item = instance_at(self.top_items(), instance);
        actual_in(formal, &item)
    }
}
