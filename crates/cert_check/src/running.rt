//! The running sum of a certificate.
ghost use Rattle.std.specs.Prelude.{◌≡◌, ◌<◌, ℕ, bit_xor, cond, length, IfOk, OnOk};
ghost use Rattle.lists.specs.Lists.{Has};
ghost use Rattle.gf_basis.specs.BasisParts.{elements_of, IsBasisOver};
ghost use Rattle.net_core.specs.NetList.{nets};
ghost use Rattle.poly_mixed.specs.Polynomial.{IsElement, IsPoint, IsPolynomialOf, IsReduced, Point, value};
ghost use Rattle.circuit_model.specs.Bases.{AreBases};
ghost use Rattle.cert_check.specs.Certificate.{begun};
ghost use Rattle.cert_check.specs.Verdict.{IsRunningSum};
ghost use Rattle.cert_check.specs.private.Reading.{AreDrivers, multiplier_in};
ghost use Rattle.cert_check.specs.private.Generators.{word_value, IsOutputSum};
ghost use Rattle.cert_check.specs.private.Held.{dual_of, whole, AddsEntry, AddsPair, IsHeld, IsLast};
ghost use Rattle.cert_check.specs.private.Kept.{terms_of, IsGeneratorOf, IsNumbered};

use crate::generator::rank;
use crate::last::LastGenerator;
use crate::line::Multiplier;
use crate::running_sum::RunningSum;
use crate::term_list::{TermList, shared_terms};
use crate::term_map::TermMap;
use circuit_model::{output_basis, output_nets};
use gf_basis::Basis;
use gf_field::Field;
use net_words::Combinational;
use poly_mixed::{Generator, Poly, Term, scaled_bit};
use std::alloc::{AllocError, Global};

// Adds the bit of a rank times an element.
fn add_bit<F: Field>(
    alloc: Global,
    field: &F,
    element: u64,
    rank: u32,
    sum: &mut Poly,
) -> Result<(), AllocError>
    requires element { IsElement (F.degree field.now) element }
    requires sum { IsReduced (F.degree field.now) sum.old.terms }
    ensures reduced { OnOk result (IsReduced (F.degree field.now) sum.new.terms) }
    ensures values { OnOk result ((p : Point) → IsPoint (F.degree field.now) p → value (F.product field.now) p sum.new.terms ≡ bit_xor (value (F.product field.now) p sum.old.terms) (cond (p.is_one rank) element 0)) }
{
    let part = scaled_bit(alloc, field, element, rank)?;
    sum.add_into(field, &part)
}

// The sum of the basis elements of the bits of these nets.
fn word_poly<F: Field>(
    alloc: Global,
    field: &F,
    circuit: &Combinational,
    basis: &Basis,
    list: &[u32],
) -> Result<Poly, AllocError>
    requires basis { IsBasisOver (F.degree field.now) (F.product field.now) basis.now }
    requires long { length list.now ≡ F.degree field.now }
    requires inside { (n : ℕ) → Has list.now n → n < nets circuit.now.net }
    ensures { IfOk result (λ q. IsPolynomialOf (F.degree field.now) (F.product field.now) (word_value circuit.now (elements_of basis.now) list.now) q.terms) }
{
    let mut sum = Poly::zero(alloc);
    for place in 0..list.len() {
        let rank = rank(circuit, list[place]);
        add_bit(alloc, field, basis.element(place as u32), rank, &mut sum)?;
    }
    Ok(sum)
}

// The output word.
fn output_poly<F: Field>(
    alloc: Global,
    field: &F,
    circuit: &Combinational,
    bases: &[Basis],
) -> Result<Poly, AllocError>
    requires k { circuit.now.binding.k ≡ F.degree field.now }
    requires bases { AreBases (F.degree field.now) (F.product field.now) circuit.now bases.now }
    ensures { IfOk result (λ q. IsOutputSum (F.degree field.now) (F.product field.now) circuit.now bases.now q.terms) }
{
    let basis = output_basis(circuit.binding(), bases);
    let list = output_nets(alloc, circuit.binding())?;
    word_poly(alloc, field, circuit, basis, &list)
}

/// The sum of the output word and the claim.
pub(crate) fn first_sum<F: Field>(
    alloc: Global,
    field: &F,
    circuit: &Combinational,
    bases: &[Basis],
    claim: &Poly,
) -> Result<TermMap, AllocError>
    requires k { circuit.now.binding.k ≡ F.degree field.now }
    requires bases { AreBases (F.degree field.now) (F.product field.now) circuit.now bases.now }
    requires claim { IsReduced (F.degree field.now) claim.now.terms }
    ensures { IfOk result (λ q. IsRunningSum (F.degree field.now) (F.product field.now) circuit.now bases.now (begun claim.now.terms) q.terms) }
{
    let mut sum = output_poly(alloc, field, circuit, bases)?;
    sum.add_into(field, claim)?;
    TermMap::of(alloc, &sum)
}

// Adds the product of a generator and the terms of a multiplier.
fn add_product<F: Field>(
    alloc: Global,
    field: &F,
    circuit: &Combinational,
    bases: &[Basis],
    drivers: &[Option<u32>],
    generator: Generator,
    multiplier: &[Term],
    last: &mut LastGenerator,
    sum: &mut RunningSum,
) -> Result<(), AllocError>
    requires bases { AreBases (F.degree field.now) (F.product field.now) circuit.now bases.now }
    requires drivers { AreDrivers circuit.now.net drivers.now }
    requires generator { IsGeneratorOf (F.degree field.now) circuit.now bases.now generator }
    requires multiplier { IsReduced (F.degree field.now) multiplier.now }
    requires last { IsLast (F.degree field.now) (F.product field.now) circuit.now bases.now last.old }
    requires held { IsHeld circuit.now bases.now (F.degree field.now) sum.old }
    ensures last { OnOk result (IsLast (F.degree field.now) (F.product field.now) circuit.now bases.now last.new) }
    ensures held { OnOk result (IsHeld circuit.now bases.now (F.degree field.now) sum.new) }
    ensures reduced { OnOk result (IsReduced (F.degree field.now) (whole (F.degree field.now) (F.product field.now) (dual_of circuit.now bases.now) sum.new)) }
    ensures values { OnOk result (AddsPair (F.degree field.now) (F.product field.now) circuit.now bases.now sum.old sum.new generator multiplier.now) }
{
    last.make(alloc, field, circuit, bases, drivers, generator)?;
    sum.add_product(
        alloc,
        field,
        circuit,
        bases,
        multiplier,
        last.near.monos(),
        &last.form,
    )
}

/// Adds the product of a generator and a multiplier, where these are shared.
pub(crate) fn add_multiplier<F: Field>(
    alloc: Global,
    field: &F,
    circuit: &Combinational,
    bases: &[Basis],
    drivers: &[Option<u32>],
    generator: Generator,
    multiplier: &Multiplier,
    shared: &[TermList],
    last: &mut LastGenerator,
    sum: &mut RunningSum,
) -> Result<(), AllocError>
    requires bases { AreBases (F.degree field.now) (F.product field.now) circuit.now bases.now }
    requires drivers { AreDrivers circuit.now.net drivers.now }
    requires generator { IsGeneratorOf (F.degree field.now) circuit.now bases.now generator }
    requires number { IsNumbered (length shared.now) multiplier.now }
    requires multiplier { IsReduced (F.degree field.now) (multiplier_in (terms_of shared.now) multiplier.now) }
    requires last { IsLast (F.degree field.now) (F.product field.now) circuit.now bases.now last.old }
    requires held { IsHeld circuit.now bases.now (F.degree field.now) sum.old }
    ensures last { OnOk result (IsLast (F.degree field.now) (F.product field.now) circuit.now bases.now last.new) }
    ensures held { OnOk result (IsHeld circuit.now bases.now (F.degree field.now) sum.new) }
    ensures reduced { OnOk result (IsReduced (F.degree field.now) (whole (F.degree field.now) (F.product field.now) (dual_of circuit.now bases.now) sum.new)) }
    ensures values { OnOk result (AddsEntry (F.degree field.now) (F.product field.now) circuit.now bases.now sum.old sum.new (terms_of shared.now) generator multiplier.now) }
{
    match multiplier {
        Multiplier::Own(poly) => {
            let terms = poly.terms(alloc)?;
            add_product(
                alloc, field, circuit, bases, drivers, generator, &terms, last, sum,
            )
        }
        Multiplier::Shared(n) => {
            let terms = shared_terms(shared, *n);
            add_product(
                alloc, field, circuit, bases, drivers, generator, terms, last, sum,
            )
        }
    }
}
