//! The polynomials of the blocks that instances use.
ghost use Rattle.std.specs.Prelude.{◌≡◌, ◌⊎◌, ◌<◌, ◌++◌, ◌∷◌, [], ℕ, None, Some, length, map, replicate, slice_get, slice_set, IfErr, IfOk, OnOk};
ghost use Rattle.compose_blocks.specs.private.Found.{HasCircuit};
ghost use Rattle.block_compose.specs.private.Blocks.{block_fault_of, AreKeptBlocks, ArePolys, AreTaken, HasPoly, IsBlockPoly, IsRefusedBlock, KeepsPolys, IsKept, IsFirstRefused};
ghost use Rattle.block_compose.specs.Composed.{bases_in};

use crate::ComposeFault;
use abstraction::circuit_poly;
use gf_basis::Basis;
use gf_field::Field;
use net_core::Name;
use net_signature::Block;
use net_words::Combinational;
use poly_mixed::{Poly, ReduceFault};
use std::alloc::{AllocError, Global};

// No polynomials of so many blocks.
fn no_polys(alloc: Global, count: usize) -> Result<Vec<Option<Poly>>, AllocError>
    ensures { IfOk result (λ polys. polys.items ≡ replicate count None) }
{
    let mut polys = Vec::new(alloc);
    for _ in 0..count {
        polys.push(None)?;
    }
    Ok(polys)
}

// The fault of a stage of the block with this name.
fn block_fault(alloc: Global, fault: ReduceFault, name: &str) -> ComposeFault
    ensures { (result ≡ ComposeFault.OutOfMemory) ⊎ (result ≡ block_fault_of fault name.now) }
{
    let Ok(model) = Name::new(alloc, name) else {
        return ComposeFault::OutOfMemory;
    };
    match fault {
        ReduceFault::TooManyTerms { stage, terms } => ComposeFault::TooManyTerms {
            block: Some(model),
            stage,
            terms,
        },
        ReduceFault::OutOfMemory => ComposeFault::OutOfMemory,
    }
}

// The circuit of a block that has one.
fn circuit_at(circuits: &[Option<Combinational>], number: usize) -> &Combinational
    requires { HasCircuit circuits.now number }
    ensures { slice_get circuits.now number ≡ Some (Some result.now) }
{
    match &circuits[number] {
        Some(circuit) => circuit,
        None => unreachable!(),
    }
}

// The polynomial of a block.
fn block_poly<F: Field>(
    alloc: Global,
    field: &F,
    blocks: &[Block],
    circuits: &[Option<Combinational>],
    bases: &[Vec<Basis>],
    number: u32,
    bound: u32,
) -> Result<Poly, ComposeFault>
    requires kept { IsKept (F.degree field.now) (F.product field.now) blocks.now circuits.now (bases_in bases.now) number }
    ensures poly { IfOk result (λ poly. IsBlockPoly (F.degree field.now) (F.product field.now) blocks.now circuits.now (bases_in bases.now) bound number poly.terms) }
    ensures fault { IfErr result (IsRefusedBlock (F.degree field.now) (F.product field.now) blocks.now circuits.now (bases_in bases.now) bound number) }
{
    let place = number as usize;
    let circuit = circuit_at(circuits, place);
    let poly = match circuit_poly(alloc, field, circuit, &bases[place + 1], bound) {
        Ok(poly) => poly,
        Err(fault) => return Err(block_fault(alloc, fault, blocks[place].model())),
    };
    // the terms are in memory, so their count is below 2^32
    let Ok(_) = u32::try_from(poly.len()) else {
        return Err(ComposeFault::OutOfMemory);
    };
    Ok(poly)
}

// Puts the polynomial of a block.
fn put_poly(polys: &mut Vec<Option<Poly>>, number: usize, poly: Poly)
    requires { number < length polys.old.items }
    ensures { polys.new.items ≡ slice_set polys.old.items number (Some poly) }
{
    polys[number] = Some(poly);
}

// Adds the polynomial of a block, unless it has one.
fn add_poly<F: Field>(
    alloc: Global,
    field: &F,
    blocks: &[Block],
    circuits: &[Option<Combinational>],
    bases: &[Vec<Basis>],
    number: u32,
    bound: u32,
    polys: &mut Vec<Option<Poly>>,
) -> Result<(), ComposeFault>
    requires kept { IsKept (F.degree field.now) (F.product field.now) blocks.now circuits.now (bases_in bases.now) number }
    requires polys { ArePolys (F.degree field.now) (F.product field.now) blocks.now circuits.now (bases_in bases.now) bound polys.old.items }
    ensures polys { OnOk result (ArePolys (F.degree field.now) (F.product field.now) blocks.now circuits.now (bases_in bases.now) bound polys.new.items) }
    ensures keeps { OnOk result (KeepsPolys polys.old.items polys.new.items) }
    ensures has { OnOk result (HasPoly polys.new.items number) }
    ensures new { IfErr result (λ fault. slice_get polys.old.items number ≡ Some None) }
    ensures fault { IfErr result (IsRefusedBlock (F.degree field.now) (F.product field.now) blocks.now circuits.now (bases_in bases.now) bound number) }
{
    let place = number as usize;
    if polys[place].is_some() {
        return Ok(());
    }
    let poly = match block_poly(alloc, field, blocks, circuits, bases, number, bound) {
        Ok(poly) => poly,
        Err(fault) => return Err(fault),
    };
    put_poly(polys, place, poly);
    Ok(())
}

/// The polynomials in words of the blocks of these numbers, each by its number, or the first stage over the bound, of the first of
/// them that has one. Each block is abstracted once.
pub(crate) fn block_polys<F: Field>(
    alloc: Global,
    field: &F,
    blocks: &[Block],
    circuits: &[Option<Combinational>],
    bases: &[Vec<Basis>],
    numbers: &[u32],
    bound: u32,
) -> Result<Vec<Option<Poly>>, ComposeFault>
    requires { AreKeptBlocks (F.degree field.now) (F.product field.now) blocks.now circuits.now (bases_in bases.now) numbers.now }
    ensures polys { IfOk result (λ polys. ArePolys (F.degree field.now) (F.product field.now) blocks.now circuits.now (bases_in bases.now) bound polys.items) }
    ensures all { IfOk result (λ polys. (i number : ℕ) → slice_get numbers.now i ≡ Some number → HasPoly polys.items number) }
    ensures fault { IfErr result (IsFirstRefused (F.degree field.now) (F.product field.now) blocks.now circuits.now (bases_in bases.now) bound numbers.now) }
{
    let Ok(none) = no_polys(alloc, blocks.len()) else {
        return Err(ComposeFault::OutOfMemory);
    };
    let mut polys = none;
    for i in 0..numbers.len() {
        match add_poly(
            alloc, field, blocks, circuits, bases, numbers[i], bound, &mut polys,
        ) {
            Ok(()) => {}
            Err(fault) => return Err(fault),
        }
    }
    Ok(polys)
}

// The polynomial of a block that has one.
fn poly_at(polys: &[Option<Poly>], number: usize) -> &Poly
    requires { HasPoly polys.now number }
    ensures { slice_get polys.now number ≡ Some (Some result.now) }
{
    match &polys[number] {
        Some(poly) => poly,
        None => unreachable!(),
    }
}

// Adds a polynomial.
fn add_one<'a>(list: &mut Vec<&'a Poly>, poly: &'a Poly) -> Result<(), AllocError>
    ensures { OnOk result (map (λ q. q.now) list.new.items ≡ map (λ q. q.now) list.old.items ++ poly.now ∷ []) }
{
    let Ok(()) = list.push(poly) else {
        return Err(AllocError);
    };
    Ok(())
}

/// The polynomials of the blocks of these numbers, one by one.
pub(crate) fn polys_of<'a>(
    alloc: Global,
    polys: &'a [Option<Poly>],
    numbers: &[u32],
) -> Result<Vec<&'a Poly>, AllocError>
    requires { (i number : ℕ) → slice_get numbers.now i ≡ Some number → HasPoly polys.now number }
    ensures { IfOk result (λ list. AreTaken polys.now numbers.now (map (λ q. q.now) list.items)) }
{
    let mut list = Vec::new(alloc);
    for i in 0..numbers.len() {
        let Ok(()) = add_one(&mut list, poly_at(polys, numbers[i] as usize)) else {
            return Err(AllocError);
        };
    }
    Ok(list)
}
