//! Designs.
ghost use Rattle.std.specs.Prelude.{◌≡◌, ◌⊎◌, ◌<◌, ◌^◌, Ok, Err, Some, IfOk, IfErr, OnOk, length, slice_get};
ghost use Rattle.std.specs.List.{list_any};
ghost use Rattle.net_blif.specs.Design.{ModelValue, items_of, model_named};
ghost use Rattle.net_blif.specs.Models.{AreRight};
ghost use Rattle.net_blif.specs.Ports.{IsBody};
ghost use Rattle.net_blif.specs.Top.{instances_of};
ghost use Rattle.net_blif.specs.private.Bare.{has_instances};

use crate::BlifFault;
use crate::bodies::{body_or, kept_bodies};
use crate::chains::{check_depth, check_walk, graph};
use crate::instances::check_instances;
use crate::item_list::ItemList;
use crate::model_list::ModelList;
use std::alloc::Global;
use std::marker::Model;

/// The models of a text in BLIF, in order. Contracts see the list of models; model 0 is the top.
/// The type keeps that there is a top, that instances are of models that there are, with the formals that these have,
/// that from the top no model contains itself, and that no chain of instances from the top has more than 64 models.
/// Where a port of some model stands twice, the lines of each model are kept with each port once, too: so a walk that goes
/// through a model in each of its instances does not meet it in each line again.
#[derive(Drop)]
pub struct Design {
    models: ModelList,
    bodies: Vec<ItemList>,
}

impl Model for Design {
    ghost use Rattle.std.specs.Prelude.{◌<◌, ◌^◌, List, Ok, length};
    ghost use Rattle.net_blif.specs.Design.{ModelValue};
    ghost use Rattle.net_blif.specs.Models.{AreRight};
    ghost use Rattle.net_blif.specs.Top.{instances_of};
    ghost use Rattle.net_blif.specs.private.Bodies.{AreBodies};

    ghost Value = { List ModelValue };

    ghost view = { λ d. d.models };

    ghost invariant = { λ d. (0 < length d.models) × AreRight d.models (Ok tt) × (length (instances_of d.models) < 2 ^ 32)
        × AreBodies d.models d.bodies.items };
}

// Whether some model has instances.
fn have_instances(models: &ModelList) -> bool
    ensures { result ≡ list_any has_instances models.now }
{
    for model in 0..models.models() {
        if models.items(model).has_instance() {
            return true;
        }
    }
    false
}

// Whether models are right, as those without instances are; else the first fault.
fn check(alloc: Global, models: &ModelList) -> Result<(), BlifFault>
    requires { 0 < length models.now }
    ensures right { OnOk result (AreRight models.now (Ok tt)) }
    ensures fault { IfErr result (λ e. (e ≡ BlifFault.OutOfMemory) ⊎ AreRight models.now (Err e)) }
{
    if !have_instances(models) {
        return Ok(());
    }
    check_instances(alloc, models)?;
    let Ok(graph) = graph(alloc, models) else {
        return Err(BlifFault::OutOfMemory);
    };
    check_walk(alloc, models, &graph)?;
    check_depth(alloc, models, &graph)
}

impl Design {
    // The design of these models, if they are right; else the first fault.
    #[tactic(auto, using(crate::proofs::StepLemmas::filter_few))]
    pub(crate) fn new(alloc: Global, models: ModelList) -> Result<Design, BlifFault>
        requires { 0 < length models }
        ensures design { IfOk result (λ design. design ≡ models) }
        ensures right { OnOk result (AreRight models (Ok tt)) }
        ensures fault { IfErr result (λ e. (e ≡ BlifFault.OutOfMemory) ⊎ AreRight models (Err e)) }
    {
        check(alloc, &models)?;
        // the items are in memory, so there are fewer than 2^32, and so are the instances among them
        let Ok(_) = u32::try_from(models.items(0).len()) else {
            return Err(BlifFault::OutOfMemory);
        };
        let Ok(bodies) = kept_bodies(alloc, &models) else {
            return Err(BlifFault::OutOfMemory);
        };
        Ok(Design { models, bodies })
    }

    /// How many models there are.
    pub fn models(&self) -> u32
        ensures count { result ≡ length self.now }
        ensures some { 0 < result }
        ensures right { AreRight self.now (Ok tt) }
        ensures few { length (instances_of self.now) < 2 ^ 32 }
    {
        self.models.models()
    }

    /// The model of this name; none where no model has it.
    pub fn model(&self, name: &str) -> Option<u32>
        ensures { result ≡ model_named self.now name.now }
    {
        self.models.model(name)
    }

    /// The name of a model, which may be empty; models are numbered from 0.
    pub fn name(&self, model: u32) -> &str
        requires { model < length self.now }
        ensures { (m : ModelValue) → slice_get self.now model ≡ Some m → result.now ≡ m.name }
    {
        self.models.name(model)
    }

    /// What the lines of a model place, in order; models are numbered from 0.
    pub fn items(&self, model: u32) -> &ItemList
        requires { model < length self.now }
        ensures { result.now ≡ items_of self.now model }
    {
        self.models.items(model)
    }

    /// What a walk in an instance of a model goes through: what its lines place, or that with each port once, where it stands
    /// first, since in an instance a port is only mentioned. Which of the two it is makes no difference but of time.
    pub fn body(&self, model: u32) -> &ItemList
        requires { model < length self.now }
        ensures { IsBody (items_of self.now model) result.now }
    {
        body_or(&self.bodies, model, self.models.items(model))
    }

    /// What the lines of the top, which model 0 is, place, in order.
    pub fn top_items(&self) -> &ItemList
        ensures items { result.now ≡ items_of self.now 0 }
        ensures right { AreRight self.now (Ok tt) }
        ensures few { length (instances_of self.now) < 2 ^ 32 }
    {
        self.models.items(0)
    }

    /// A key for tables of names, made of the text, so that names that collide in one cannot be looked for.
    pub fn key(&self) -> u64 {
        self.models.key()
    }
}
