//! The models of a text.
ghost use Rattle.std.specs.Prelude.{◌≡◌, ℕ, List, is_some, if◌then◌else◌, ◌<◌, ◌++◌, ◌∷◌, [], Some, length, slice_get, IfOk, OnErr, OnOk};
ghost use Rattle.std.specs.Str.{bytes_eq};
ghost use Rattle.indexmap.specs.IndexMap.{get_by_text};
ghost use Rattle.net_blif.specs.Design.{ModelValue, items_of, model_from, model_named};
ghost use Rattle.net_blif.specs.private.Naming.{HasNumber};

use crate::item_list::ItemList;
use indexmap::IndexMap;
use net_core::{KeyedHash, Name};
use std::alloc::{AllocError, Global};
use std::marker::Model;

// The number of each name, by a hash whose key is made of the text, so that names that collide cannot be looked for.
type Numbers = IndexMap<String, u32, KeyedHash>;

/// A model: its name, and what its lines place.
pub struct ModelText {
    name: Name,
    items: ItemList,
}

// By hand, so that a caller that lets one go makes one call, and not one for each part.
impl Drop for ModelText {
    fn drop(self) {
        let ModelText { name, items } = self;
        drop(name);
        drop(items);
    }
}

impl Model for ModelText {
    ghost use Rattle.net_blif.specs.Design.{ModelValue};

    ghost Value = { ModelValue };

    ghost view = { λ m. record { name = m.name; items = m.items } };
}

impl ModelText {
    /// A model of this name that places these.
    pub fn new(name: Name, items: ItemList) -> ModelText
        ensures { result ≡ record { name = name; items = items } }
    {
        ModelText { name, items }
    }

    /// Its name, which may be empty.
    pub fn name(&self) -> &str
        ensures { result.now ≡ self.now.name }
    {
        self.name.as_str()
    }

    /// What its lines place, in order.
    pub fn items(&self) -> &ItemList
        ensures { result.now ≡ self.now.items }
    {
        &self.items
    }
}

/// The models of a text in BLIF, in order. Contracts see the list of models; model 0 is the top.
pub struct ModelList {
    key: u64,
    models: Vec<ModelText>,
    numbers: Numbers,
}

// By hand, so that a caller that lets one go makes one call, and not one for each part.
impl Drop for ModelList {
    fn drop(self) {
        let ModelList {
            key: _,
            models,
            numbers,
        } = self;
        drop(models);
        drop(numbers);
    }
}

impl Model for ModelList {
    ghost use Rattle.std.specs.Prelude.{◌≡◌, ◌<◌, ◌^◌, List, ℕ, length};
    ghost use Rattle.indexmap.specs.IndexMap.{get_by_text};
    ghost use Rattle.net_blif.specs.Design.{ModelValue, model_from};

    ghost Value = { List ModelValue };

    ghost view = { λ l. l.models.items };

    ghost invariant = { λ l. ((name : List ℕ) → get_by_text l.numbers name ≡ model_from 0 l.models.items name)
        × (length l.models.items < 2 ^ 32) };
}

impl ModelList {
    /// No models, whose names are hashed with this key. It takes no memory.
    pub fn new(alloc: Global, key: u64) -> ModelList
        ensures { result ≡ [] }
    {
        ModelList {
            key,
            models: Vec::new(alloc),
            numbers: IndexMap::with_hasher(alloc, KeyedHash::new(key)),
        }
    }

    /// One more model. An error leaves some models.
    pub fn add(&mut self, alloc: Global, model: ModelText) -> Result<(), AllocError>
        ensures { OnOk result (self.new ≡ self.old ++ model ∷ []) }
    {
        let Ok(number) = u32::try_from(self.models.len() + 1) else {
            return Err(AllocError);
        };
        self.models.reserve(1)?;
        add_number(alloc, &mut self.numbers, model.name(), number - 1)?;
        self.models.push_reserved(model);
        Ok(())
    }

    /// How many models there are.
    pub fn models(&self) -> u32
        ensures { result ≡ length self.now }
    {
        self.models.len() as u32
    }

    /// The model of this name; none where no model has it.
    pub fn model(&self, name: &str) -> Option<u32>
        ensures { result ≡ model_named self.now name.now }
    {
        self.numbers.get(name).copied()
    }

    /// The name of a model, which may be empty; models are numbered from 0.
    pub fn name(&self, model: u32) -> &str
        requires { model < length self.now }
        ensures { (m : ModelValue) → slice_get self.now model ≡ Some m → result.now ≡ m.name }
    {
        self.models[model as usize].name()
    }

    /// The key of its names.
    pub fn key(&self) -> u64 {
        self.key
    }

    /// What the lines of a model place, in order; models are numbered from 0.
    pub fn items(&self, model: u32) -> &ItemList
        requires { model < length self.now }
        ensures { result.now ≡ items_of self.now model }
    {
        self.models[model as usize].items()
    }
}

/// Numbers of names with this number for the name, unless it has one.
pub fn with_number(
    alloc: Global,
    numbers: IndexMap<String, u32, KeyedHash>,
    name: &str,
    number: u32,
) -> Result<IndexMap<String, u32, KeyedHash>, AllocError>
    ensures { IfOk result (λ after. (q : List ℕ) → get_by_text after q
        ≡ (if is_some (get_by_text numbers name.now) then get_by_text numbers q
        else (if bytes_eq name.now q then Some number else get_by_text numbers q))) }
{
    let mut after = numbers;
    add_number(alloc, &mut after, name, number)?;
    Ok(after)
}

// Gives a name this number, unless it has one. On an error each name has the number that it had.
fn add_number(
    alloc: Global,
    numbers: &mut Numbers,
    name: &str,
    number: u32,
) -> Result<(), AllocError>
    ensures made { OnOk result (HasNumber (get_by_text numbers.old) name.now number (get_by_text numbers.new)) }
    ensures unchanged { OnErr result ((q : List ℕ) → get_by_text numbers.new q ≡ get_by_text numbers.old q) }
{
    if numbers.get(name).is_some() {
        return Ok(());
    }
    let key = String::from_str(alloc, name)?;
    numbers.insert(key, number)?;
    Ok(())
}
