//! Sound nets.
ghost use Rattle.std.specs.Prelude.{◌≡◌, ◌<◌, ◌≤◌, ◌^◌, length, slice_get, IfOk, IfErr, IfSome, OnOk, Err, Some};
ghost use Rattle.net_core.specs.NetList.{nets, number_of, text_of};
ghost use Rattle.net_core.specs.Inside.{IsInside};
ghost use Rattle.net_core.specs.Sound.{IsSound, HasOneDriverEach};
ghost use Rattle.net_core.specs.Turned.{turned};
ghost use Rattle.net_core.specs.Levelled.{AllHaveLevels};
ghost use Rattle.net_core.specs.Loop.{IsLoop};
ghost use Rattle.net_core.specs.Finish.{Finishes};
ghost use Rattle.net_core.specs.Driving.{roots_of};
ghost use Rattle.net_core.specs.private.Counts.{AreCounts};

use crate::drivers::{counts, least, roots};
use crate::driving::nets_in_order;
use crate::levels::levels_by;
use crate::{Gate, Latch, Name, NetFault, NetMaker, Numbers};
use graph_core::CycleFault;
use std::alloc::{AllocError, Global};
use std::marker::Model;

/// A sound net. Contracts see it as its net list.
/// The type keeps that each net has exactly one driver, that no gates drive each other in a cycle,
/// and that nets, gates and latches are within their limits of 1,048,576.
pub struct Net {
    made: NetMaker,
    levels: Vec<Option<u32>>,
}

// By hand, so that a caller that lets one go makes one call, and not one for each part.
impl Drop for Net {
    fn drop(self) {
        let Net { made, levels } = self;
        drop(made);
        drop(levels);
    }
}

impl Model for Net {
    ghost use Rattle.net_core.specs.NetList.{NetList};
    ghost use Rattle.net_core.specs.Sound.{IsSound};
    ghost use Rattle.net_core.specs.Levelled.{AllHaveLevels};

    ghost Value = { NetList };

    ghost view = { λ net. net.made };

    ghost invariant = { λ net. IsSound net.made × AllHaveLevels net.made net.levels.items };
}

impl Net {
    /// How many nets there are.
    pub fn nets(&self) -> u32
        ensures count { result ≡ nets self.now }
        ensures sound { IsSound self.now }
    {
        self.made.nets() as u32
    }

    /// What a net, below the number of nets, is called in messages.
    pub fn label(&self, net: u32) -> &str
        requires { net < nets self.now }
        ensures { result.now ≡ text_of self.now net }
    {
        self.made.label(net)
    }

    /// The net of this name; none where no net is named so.
    pub fn find(&self, name: &str) -> Option<u32>
        ensures number { result ≡ number_of self.now name.now }
        ensures within { IfSome result (λ n. n < nets self.now) }
    {
        self.made.find(name)
    }

    /// The primary inputs, in order.
    pub fn inputs(&self) -> &[u32]
        ensures inputs { result.now ≡ self.now.inputs }
        ensures sound { IsSound self.now }
    {
        self.made.inputs()
    }

    /// The outputs, in order.
    pub fn outputs(&self) -> &[u32]
        ensures outputs { result.now ≡ self.now.outputs }
        ensures sound { IsSound self.now }
    {
        self.made.outputs()
    }

    /// The gates by position.
    pub fn gates(&self) -> &[Gate]
        ensures gates { result.now ≡ self.now.gates }
        ensures sound { IsSound self.now }
    {
        self.made.gates()
    }

    /// The latches, in order.
    pub fn latches(&self) -> &[Latch]
        ensures latches { result.now ≡ self.now.latches }
        ensures sound { IsSound self.now }
    {
        self.made.latches()
    }

    /// Turns over bit `index` of the table of the gate at `position`, and changes nothing else.
    /// The gate exists, and the bit is one of its table's. It takes no memory.
    pub fn turn(&mut self, position: u32, index: u32)
        requires { (g : _) × (slice_get self.old.gates position ≡ Some g) × (index < 2 ^ length g.inputs) }
        ensures { self.new ≡ turned self.old position index }
    {
        self.made.turn(position, index);
    }

    // The net list.
    pub(crate) fn made(&self) -> &NetMaker
        ensures made { result.now ≡ self.now }
        ensures sound { IsSound self.now }
    {
        &self.made
    }

    // The level of each net.
    pub(crate) fn levels(&self) -> &[Option<u32>]
        ensures { AllHaveLevels self.now result.now }
    {
        &self.levels
    }
}

// Whether each net has one driver.
fn check_drivers(alloc: Global, net: &NetMaker) -> Result<(), NetFault>
    ensures one { OnOk result (HasOneDriverEach net.now) }
    ensures fault { IfErr result (λ e. Finishes net.now (Err e)) }
{
    let driven = roots(alloc, net)?;
    let counts = counts(alloc, net.nets(), &driven)?;
    check_counts(alloc, net, &counts)
}

// Whether each net is driven once, by how often each is, where 2 stands for more too.
fn check_counts(alloc: Global, net: &NetMaker, counts: &[u8]) -> Result<(), NetFault>
    requires few { length counts.now ≤ 2 ^ 20 }
    requires counted { AreCounts (roots_of net.now) (nets net.now) counts.now }
    ensures one { OnOk result (HasOneDriverEach net.now) }
    ensures fault { IfErr result (λ e. Finishes net.now (Err e)) }
{
    if let Some(twice) = least(counts, 2) {
        let label = Name::new(alloc, net.label(twice))?;
        return Err(NetFault::DrivenTwice { net: twice, label });
    }
    if let Some(undriven) = least(counts, 0) {
        let label = Name::new(alloc, net.label(undriven))?;
        return Err(NetFault::Undriven {
            net: undriven,
            label,
        });
    }
    Ok(())
}

// The level of each net, if no gates drive each other in a cycle.
fn find_levels(alloc: Global, net: &NetMaker) -> Result<Vec<Option<u32>>, NetFault>
    requires { HasOneDriverEach net.now }
    ensures levels { IfOk result (λ v. AllHaveLevels net.now v.items) }
    ensures sound { OnOk result (IsSound net.now) }
    ensures fault { IfErr result (λ e. Finishes net.now (Err e)) }
{
    match nets_in_order(alloc, net) {
        Ok(order) => {
            let levels = levels_by(alloc, net, &order)?;
            Ok(levels)
        }
        Err(CycleFault::Cycle { points }) => Err(loop_fault(alloc, net, points)),
        Err(CycleFault::OutOfMemory) => Err(NetFault::OutOfMemory),
    }
}

// The fault that names this loop, or out of memory.
fn loop_fault(alloc: Global, net: &NetMaker, nets: Vec<u32>) -> NetFault
    requires inside { IsInside net.now }
    requires one { HasOneDriverEach net.now }
    requires found { IsLoop net.now nets.items }
    ensures { Finishes net.now (Err result) }
{
    match Name::new(alloc, net.label(nets[0])) {
        Ok(label) => NetFault::Loop {
            nets: Numbers::new(nets),
            label,
        },
        Err(AllocError) => NetFault::OutOfMemory,
    }
}

impl NetMaker {
    /// The net, if it is sound. A driver of a net is an input, a gate or a latch.
    /// `DrivenTwice` names the least net with two drivers; else `Undriven` the least with none;
    /// else `Loop` a cycle of gates: where gates all of whose inputs have a level are removed as often as possible,
    /// a walk begins at the remaining gate of least position and goes on to the driver of its first input that a
    /// remaining gate drives, until it meets a gate again; the list holds the outputs from this gate on.
    pub fn finish(self) -> Result<Net, NetFault>
        ensures { Finishes self result }
    {
        let alloc = self.alloc();
        check_drivers(alloc, &self)?;
        let levels = find_levels(alloc, &self)?;
        Ok(Net { made: self, levels })
    }
}
