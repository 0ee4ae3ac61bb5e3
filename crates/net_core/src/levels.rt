//! Levels of nets.
ghost use Rattle.std.specs.Prelude.{◌≡◌, ◌<◌, ◌+◌, ◌^◌, ℕ, length, All, IfOk, None, Some, slice_get, slice_set};
ghost use Rattle.lists.specs.Lists.{Has};
ghost use Rattle.net_core.specs.NetList.{nets};
ghost use Rattle.net_core.specs.Inside.{IsInside};
ghost use Rattle.net_core.specs.Sound.{HasOneDriverEach};
ghost use Rattle.net_core.specs.Level.{level_at, level_over as level_of};
ghost use Rattle.net_core.specs.Levelled.{AllHaveLevels};
ghost use Rattle.net_core.specs.Driving.{IsGraphOf, roots_of};
ghost use Rattle.graph_core.specs.Arranged.{IsArranged};
ghost use Rattle.net_core.specs.Partial.{ArePartial, ArePositions, AreKnown, AreZeros, KeepsLevels};

use crate::NetMaker;
use crate::drivers::add_sources;
use std::alloc::{AllocError, Global};

// The level of a net, where it has one.
pub fn known(levels: &[Option<u32>], net: u32) -> Option<u32>
    ensures { result ≡ level_at levels.now net }
{
    match levels.get(net as usize) {
        Some(level) => *level,
        None => None,
    }
}

// The level of a gate over these nets.
fn level_over(levels: &[Option<u32>], inputs: &[u32]) -> Option<u32>
    requires { (n l : ℕ) → level_at levels.now n ≡ Some l → l < 2 ^ 31 }
    ensures { result ≡ level_of levels.now inputs.now }
{
    let mut level = 1;
    for input in inputs {
        match known(levels, *input) {
            None => return None,
            Some(below) => level = level.max(below + 1),
        }
    }
    Some(level)
}

// Gives a level to a gate that has none, if its inputs have them, and counts it.
fn raise(net: &NetMaker, position: usize, levels: &mut Vec<Option<u32>>, done: u32) -> u32
    requires one { HasOneDriverEach net.now }
    requires gate { position < length net.now.gates }
    requires partial { ArePartial net.now levels.old.items done }
    requires none { (g : _) → slice_get net.now.gates position ≡ Some g → level_at levels.old.items g.out ≡ None }
    ensures partial { ArePartial net.now levels.new.items result }
    ensures raised { (g : _) (l : ℕ) → slice_get net.now.gates position ≡ Some g → level_of levels.old.items g.inputs ≡ Some l → levels.new.items ≡ slice_set levels.old.items g.out (Some l) }
{
    let gate = &net.gates()[position];
    match level_over(levels, gate.inputs()) {
        None => done,
        Some(level) => {
            levels[gate.out() as usize] = Some(level);
            done + 1
        }
    }
}

// Gives a level to a net that has none and whose gate's inputs have them, and counts it.
fn give_level(
    net: &NetMaker,
    positions: &[u32],
    point: u32,
    levels: &mut Vec<Option<u32>>,
    done: u32,
) -> u32
    requires one { HasOneDriverEach net.now }
    requires positions { ArePositions net.now positions.now }
    requires point { point < nets net.now }
    requires partial { ArePartial net.now levels.old.items done }
    requires inputs { (g : _) → Has net.now.gates g → g.out ≡ point → AreKnown levels.old.items g.inputs }
    ensures partial { ArePartial net.now levels.new.items result }
    ensures keeps { KeepsLevels levels.old.items levels.new.items }
    ensures known { level_at levels.new.items point ≡ None → ⊥ }
{
    match known(levels, point) {
        Some(_) => done,
        None => raise(net, positions[point as usize] as usize, levels, done),
    }
}

// The positions of the gates, by their nets.
fn positions_by_net(alloc: Global, net: &NetMaker) -> Result<Vec<u32>, AllocError>
    requires { HasOneDriverEach net.now }
    ensures positions { IfOk result (λ v. ArePositions net.now v.items) }
    ensures inside { IsInside net.now }
{
    let mut positions = vec![in alloc; 0u32; net.nets()]?;
    for (position, gate) in net.gates().iter().enumerate() {
        positions[gate.out() as usize] = position as u32;
    }
    Ok(positions)
}

// Level 0 for the sources, and none for other nets.
fn zeros(alloc: Global, nets: usize, sources: &[u32]) -> Result<Vec<Option<u32>>, AllocError>
    requires { All (λ n. n < nets) sources.now }
    ensures { IfOk result (λ v. AreZeros nets sources.now (length sources.now) v.items) }
{
    let mut levels = vec![in alloc; None; nets]?;
    for source in sources {
        levels[*source as usize] = Some(0);
    }
    Ok(levels)
}

// The levels of the sources.
fn first_levels(alloc: Global, net: &NetMaker) -> Result<Vec<Option<u32>>, AllocError>
    requires { HasOneDriverEach net.now }
    ensures { IfOk result (λ v. ArePartial net.now v.items 0) }
{
    let mut sources = Vec::new(alloc);
    add_sources(&mut sources, net)?;
    zeros(alloc, net.nets(), &sources)
}

/// The level of each net, where the nets stand each after the inputs of its gate.
pub fn levels_by(
    alloc: Global,
    net: &NetMaker,
    order: &[u32],
) -> Result<Vec<Option<u32>>, AllocError>
    requires one { HasOneDriverEach net.now }
    requires order { (graph : _) × IsGraphOf net.now graph × IsArranged graph (roots_of net.now) order.now }
    ensures { IfOk result (λ v. AllHaveLevels net.now v.items) }
{
    let positions = positions_by_net(alloc, net)?;
    let mut levels = first_levels(alloc, net)?;
    let mut done = 0;
    for point in order {
        done = give_level(net, &positions, *point, &mut levels, done);
    }
    Ok(levels)
}
