//! The circuits of the blocks that instances use.
ghost use Rattle.std.specs.Prelude.{◌≡◌, ◌⊎◌, ◌<◌, ℕ, None, Some, length, replicate, slice_get, slice_set, IfErr, IfOk, OnOk};
ghost use Rattle.outcome.specs.ForEach.{ForEach};
ghost use Rattle.net_signature.specs.Body.{BlockValue};
ghost use Rattle.net_blif.specs.Design.{model_named};
ghost use Rattle.net_blif.specs.Top.{instances_of};
ghost use Rattle.compose_blocks.specs.Block.{IsBlockCircuit};
ghost use Rattle.compose_blocks.specs.Planned.{CanAllBind, CanBind, MayFault};
ghost use Rattle.compose_blocks.specs.Uses.{UseOf};
ghost use Rattle.compose_blocks.specs.declared.uses.Found.{Found as FoundValue};
ghost use Rattle.compose_blocks.specs.private.Found.{refused_as, AreCircuits, AreFound, HasCircuit, IsRefusedBlock, KeepsCircuits};

use crate::PlanFault;
use crate::block_fault::BlockFault;
use crate::circuit::block_circuit;
use crate::uses::Found;
use net_blif::Design;
use net_core::Name;
use net_signature::Block;
use net_words::Combinational;
use std::alloc::{AllocError, Global};

// No circuits of so many blocks.
fn no_circuits(alloc: Global, count: usize) -> Result<Vec<Option<Combinational>>, AllocError>
    ensures { IfOk result (λ circuits. circuits.items ≡ replicate count None) }
{
    let mut circuits = Vec::new(alloc);
    for _ in 0..count {
        circuits.push(None)?;
    }
    Ok(circuits)
}

// The fault of a block with this name.
fn block_fault(alloc: Global, fault: BlockFault, name: &str) -> PlanFault
    ensures { (result ≡ PlanFault.OutOfMemory) ⊎ (result ≡ refused_as fault name.now) }
{
    let Ok(model) = Name::new(alloc, name) else {
        return PlanFault::OutOfMemory;
    };
    match fault {
        BlockFault::NoNet => PlanFault::BlockNet { model },
        BlockFault::HasLatch => PlanFault::BlockLatch { model },
        BlockFault::NotBound => PlanFault::BlockBind { model },
        BlockFault::OutOfMemory => PlanFault::OutOfMemory,
    }
}

// The circuit of a block, of whose name this model is.
fn circuit_of(
    alloc: Global,
    design: &Design,
    block: &Block,
    model: u32,
) -> Result<Combinational, PlanFault>
    requires words { (k : ℕ) × CanBind k block.now.words }
    ensures circuit { IfOk result (λ circuit. IsBlockCircuit design.now model block.now.words circuit) }
    ensures fault { IfErr result (IsRefusedBlock design.now block.now model) }
{
    match block_circuit(alloc, design, model, block.words()) {
        Ok(circuit) => Ok(circuit),
        Err(fault) => Err(block_fault(alloc, fault, block.model())),
    }
}

// Puts the circuit of a block.
fn put_circuit(circuits: &mut Vec<Option<Combinational>>, number: usize, circuit: Combinational)
    requires { number < length circuits.old.items }
    ensures { circuits.new.items ≡ slice_set circuits.old.items number (Some circuit) }
{
    circuits[number] = Some(circuit);
}

// Adds the circuit of a block, unless it has one.
fn add_circuit(
    alloc: Global,
    design: &Design,
    blocks: &[Block],
    found: Found,
    circuits: &mut Vec<Option<Combinational>>,
) -> Result<(), PlanFault>
    requires words { (k : ℕ) × CanAllBind k blocks.now }
    requires block { found.block < length blocks.now }
    requires model { (block : BlockValue) → slice_get blocks.now found.block ≡ Some block → model_named design.now block.model ≡ Some found.model }
    requires kept { AreCircuits design.now blocks.now circuits.old.items }
    ensures kept { OnOk result (AreCircuits design.now blocks.now circuits.new.items) }
    ensures keeps { OnOk result (KeepsCircuits circuits.old.items circuits.new.items) }
    ensures has { OnOk result (HasCircuit circuits.new.items found.block) }
    ensures fault { IfErr result (λ fault. (block : BlockValue) × (slice_get blocks.now found.block ≡ Some block) × IsRefusedBlock design.now block found.model fault) }
{
    let number = found.block as usize;
    if circuits[number].is_some() {
        return Ok(());
    }
    let circuit = match circuit_of(alloc, design, &blocks[number], found.model) {
        Ok(circuit) => circuit,
        Err(fault) => return Err(fault),
    };
    put_circuit(circuits, number, circuit);
    Ok(())
}

/// The circuits of the blocks that the instances of a top use, by the numbers of the blocks, or the first refusal.
pub(crate) fn circuits_of(
    alloc: Global,
    design: &Design,
    blocks: &[Block],
    list: &[Found],
) -> Result<Vec<Option<Combinational>>, PlanFault>
    requires words { (k : ℕ) × CanAllBind k blocks.now }
    requires found { AreFound design.now blocks.now (instances_of design.now) list.now }
    ensures circuits { IfOk result (λ circuits. AreCircuits design.now blocks.now circuits.items) }
    ensures all { IfOk result (λ circuits. (i : ℕ) (found : FoundValue) → slice_get list.now i ≡ Some found → HasCircuit circuits.items found.block) }
    ensures fault { IfErr result (MayFault (ForEach (UseOf design.now blocks.now) (instances_of design.now))) }
{
    let Ok(none) = no_circuits(alloc, blocks.len()) else {
        return Err(PlanFault::OutOfMemory);
    };
    let mut circuits = none;
    for i in 0..list.len() {
        match add_circuit(alloc, design, blocks, list[i], &mut circuits) {
            Ok(()) => {}
            Err(fault) => return Err(fault),
        }
    }
    Ok(circuits)
}
