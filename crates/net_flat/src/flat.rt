//! The net of a model.
ghost use Rattle.std.specs.Prelude.{◌≡◌, ◌⊎◌, ℕ, List, Ok, Err, IfOk, IfErr};
ghost use Rattle.net_blif.specs.Design.{ModelValue};
ghost use Rattle.net_flat.specs.Flat.{Flattens};
ghost use Rattle.net_flat.specs.private.LocalWalk.{IsFaultOf, IsWalked};
ghost use Rattle.net_flat.specs.private.WholeWalk.{local_walk};
ghost use Rattle.net_flat.specs.private.Stopping.{IsFaultBy};

use crate::FlatFault;
use crate::walker::Walker;
use net_blif::Design;
use net_core::{Net, NetFault, NetMaker};
use std::alloc::Global;

// The most models of a chain, which no chain of a design passes.
const MAX_CHAIN: u32 = 64;

// The net list of a model's walk.
fn walk(alloc: Global, design: &Design, model: u32) -> Result<NetMaker, FlatFault>
    ensures made { IfOk result (λ maker. IsWalked (local_walk design.now model) maker) }
    ensures fault { IfErr result (IsFaultOf (local_walk design.now model)) }
{
    let mut walker = Walker::new(alloc, design.key());
    match walker.walk(design, model, MAX_CHAIN) {
        Ok(()) => Ok(walker.into_maker()),
        Err(stop) => Err(stop.into_fault()),
    }
}

// A fault of nets, or out of memory.
fn fault_of(fault: NetFault) -> FlatFault
    ensures { IsFaultBy fault result }
{
    match fault {
        NetFault::OutOfMemory => FlatFault::OutOfMemory,
        fault => FlatFault::Net(fault),
    }
}

// The net of the net list of a model's walk, if it is sound.
fn finished(maker: NetMaker) -> Result<Net, FlatFault>
    ensures net { (d : List ModelValue) (m : ℕ) → IsWalked (local_walk d m) maker → IfOk result (λ net. Flattens d m (Ok net)) }
    ensures fault { (d : List ModelValue) (m : ℕ) → IsWalked (local_walk d m) maker → IfErr result (λ e. (e ≡ FlatFault.OutOfMemory) ⊎ Flattens d m (Err e)) }
{
    match maker.finish() {
        Ok(net) => Ok(net),
        Err(fault) => Err(fault_of(fault)),
    }
}

/// The net of a model: its lines are walked in order, each name that is mentioned first makes a net, and gates, latches,
/// inputs and outputs are appended as they are met. At an instance the actuals are mentioned, and then the lines of its
/// model are walked in place: a connected formal is its actual, and every other name is a new net, which is called by the
/// numbers of the instances, each with a `/`, and the name. The walk goes through 64 models one
/// inside another: no chain from the top has more, and of a model that no such chain reaches what is deeper is left out.
/// A net, a gate or latch, or an instance that would be the 1,048,577th is refused where it is met. Then a net with two
/// drivers or none, or gates that drive each other in a cycle, refuse the net. It may run out of memory at any place.
pub fn flatten(alloc: Global, design: &Design, model: u32) -> Result<Net, FlatFault>
    ensures net { IfOk result (λ net. Flattens design.now model (Ok net)) }
    ensures fault { IfErr result (λ e. (e ≡ FlatFault.OutOfMemory) ⊎ Flattens design.now model (Err e)) }
{
    match walk(alloc, design, model) {
        Ok(maker) => finished(maker),
        Err(fault) => Err(fault),
    }
}

/// The same net of a design that is let go as soon as its lines were walked: its text is out of memory before the drivers and
/// levels of the nets are found. A caller that has no other use of the design needs less memory by it.
pub fn flatten_design(alloc: Global, design: Design, model: u32) -> Result<Net, FlatFault>
    ensures net { IfOk result (λ net. Flattens design model (Ok net)) }
    ensures fault { IfErr result (λ e. (e ≡ FlatFault.OutOfMemory) ⊎ Flattens design model (Err e)) }
{
    let made = walk(alloc, &design, model);
    drop(design);
    match made {
        Ok(maker) => finished(maker),
        Err(fault) => Err(fault),
    }
}
