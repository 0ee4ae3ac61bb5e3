//! Words in place of bits over fields of 2, 4 and 8 elements and over a tower of 16, one word and two, beside the plain
//! programs. The last number of each case is the size of its largest stage.
ghost use Rattle.std.specs.Prelude.{IfOk};
ghost use Rattle.gf_basis.specs.BasisParts.{IsBasisOver};
ghost use Rattle.circuit_model.specs.Flat.{AreOver};
ghost use Rattle.job_input.specs.Setting.{AreBasesOver, AreSaid};

use crate::plain_tests::{
    in_bits, outcome, plain_outcome, plain_output, plain_stages, poly_in_words, value_at,
};
use crate::program::{files_of, job, signed};
use circuit_model::CircuitWord;
use gf_basis::Basis;
use gf_field::Field;
use gf_tower::AnyField;
use job_input::Signed;
use job_io::MemShelf;
use net_signature::Signature;
use net_words::Combinational;
use std::alloc::{AllocError, Global};
use std::process::Abort;
use std::test::Fail;

// A copy of a basis, made anew out of its elements.
fn anew<F: Field>(
    rt: &impl Abort,
    alloc: Global,
    field: &F,
    basis: &Basis,
) -> Result<Basis, AllocError>
    requires { IsBasisOver (F.degree field.now) (F.product field.now) basis.now }
    ensures { IfOk result (λ made. IsBasisOver (F.degree field.now) (F.product field.now) made) }
{
    let mut elements = Vec::new(alloc);
    for i in 0..field.k() {
        elements.push(basis.element(i))?;
    }
    Ok(Basis::list(field, &elements).ok().expect(rt, "a basis"))
}

// A word of the circuit for the plain programs.
fn word<F: Field>(
    rt: &impl Abort,
    alloc: Global,
    field: &F,
    circuit: &Combinational,
    bases: &[Basis],
    w: u32,
) -> Result<CircuitWord, AllocError>
    requires { AreBasesOver (F.degree field.now) (F.product field.now) bases.now }
    ensures { IfOk result (λ made. IsBasisOver (F.degree field.now) (F.product field.now) made.basis) }
{
    let binding = circuit.binding();
    assert!(rt; w < binding.words());
    assert!(rt; (w as usize) < bases.len());
    let mut nets = Vec::new(alloc);
    for place in 0..binding.k() {
        nets.push(binding.net(w, place))?;
    }
    Ok(CircuitWord {
        role: binding.role(w),
        nets,
        basis: anew(rt, alloc, field, &bases[w as usize])?,
    })
}

// Compares the replacement at each bound up to the largest stage with the plain stages.
fn compare_stages<F: Field>(
    rt: &impl Abort,
    alloc: Global,
    field: &F,
    circuit: &Combinational,
    bases: &[Basis],
    words: &[CircuitWord],
    largest: u32,
) -> Result<(), Fail>
    requires bases { AreBasesOver (F.degree field.now) (F.product field.now) bases.now }
    requires words { AreOver (F.degree field.now) (F.product field.now) words.now }
{
    let bits = in_bits(rt, alloc, field, circuit, bases)?;
    let stages = plain_stages(rt, alloc, field, words, &bits)?;
    let found = stages.iter().map(|(_, size)| *size).max();
    assert_eq!(rt; found, Some(largest as usize));
    for bound in 0..=largest {
        let found = outcome(rt, alloc, field, circuit, bases, bound);
        assert_eq!(rt; found, plain_outcome(&stages, bound), "at bound {bound}");
    }
    Ok(())
}

// Compares the values of the polynomial in words at each input with the outputs of the plain program.
fn compare_values<F: Field>(
    rt: &impl Abort,
    alloc: Global,
    field: &F,
    circuit: &Combinational,
    bases: &[Basis],
    words: &[CircuitWord],
    to: &CircuitWord,
) -> Result<(), Fail>
    requires bases { AreBasesOver (F.degree field.now) (F.product field.now) bases.now }
    requires words { AreOver (F.degree field.now) (F.product field.now) words.now }
    requires over { IsBasisOver (F.degree field.now) (F.product field.now) to.now.basis }
{
    assert!(rt; field.k() <= 4 && words.len() <= 2);
    let poly = poly_in_words(rt, alloc, field, circuit, bases, u32::MAX)?;
    let size = 1u64 << field.k();
    for x in 0..size {
        for y in 0..size {
            let xs = [x, y];
            let plain = plain_output(rt, alloc, field, circuit, words, to, &xs[..words.len()])?;
            let found = value_at(rt, field, &poly, x, y);
            assert_eq!(rt; Some(found), plain, "at {x} and {y}");
        }
    }
    Ok(())
}

// Compares the replacement of one word or two, before the output word, with the plain programs.
fn compare<F: Field>(
    rt: &impl Abort,
    alloc: Global,
    field: &F,
    circuit: &Combinational,
    bases: &[Basis],
    largest: u32,
) -> Result<(), Fail>
    requires bases { AreBasesOver (F.degree field.now) (F.product field.now) bases.now }
{
    let first = word(rt, alloc, field, circuit, bases, 0)?;
    let second = word(rt, alloc, field, circuit, bases, 1)?;
    if bases.len() == 2 {
        let words = [first];
        compare_stages(rt, alloc, field, circuit, bases, &words, largest)?;
        compare_values(rt, alloc, field, circuit, bases, &words, &second)
    } else {
        let words = [first, second];
        let to = word(rt, alloc, field, circuit, bases, 2)?;
        compare_stages(rt, alloc, field, circuit, bases, &words, largest)?;
        compare_values(rt, alloc, field, circuit, bases, &words, &to)
    }
}

// Compares over the signature's field.
fn check_over<F: Field>(
    rt: &impl Abort,
    alloc: Global,
    field: &F,
    signature: Signature,
    shelf: &mut MemShelf,
    largest: u32,
) -> Result<(), Fail>
    requires { AreSaid signature }
{
    let (setting, circuit) = job(rt, alloc, field, signature, shelf);
    compare(
        rt,
        alloc,
        field,
        &circuit,
        setting.bases.as_slice(),
        largest,
    )
}

// Compares the stages of the texts of a signature and a netlist.
fn check(
    rt: &impl Abort,
    alloc: Global,
    signature: &str,
    net: &str,
    largest: u32,
) -> Result<(), Fail> {
    let mut shelf = MemShelf::new(
        files_of(alloc, &[("s", signature), ("net", net)])?,
        Vec::new(alloc),
    );
    let Signed { signature, field } = signed(rt, alloc, &mut shelf);
    match field {
        AnyField::Base(field) => check_over(rt, alloc, &field, signature, &mut shelf, largest),
        AnyField::Tower(field) => check_over(rt, alloc, &field, signature, &mut shelf, largest),
        AnyField::Upper(field) => check_over(rt, alloc, &field, signature, &mut shelf, largest),
    }
}

// The field of 2 elements: a negation, and a disjunction.
#[test]
fn fields_of_2_elements(rt: HostRuntime) -> Result<(), Fail> {
    let alloc = rt.alloc();
    let one = "gfsig 1\nfield 0x2\nword A input poly a\nword Z output poly z\n";
    let not = ".model not\n.inputs a\n.outputs z\n.names a z\n0 1\n.end\n";
    check(&rt, alloc, one, not, 2)?;
    let two =
        "gfsig 1\nfield 0x3\nword A input poly a\nword B input poly b\nword Z output poly z\n";
    let or = ".model or\n.inputs a b\n.outputs z\n.names a b z\n00 0\n.end\n";
    check(&rt, alloc, two, or, 3)
}

// The field of 4 elements: a conjunction beside an input, and the product of two words in two bases.
#[test]
fn fields_of_4_elements(rt: HostRuntime) -> Result<(), Fail> {
    let alloc = rt.alloc();
    let one = "gfsig 1\nfield 0x7\nword A input poly a0 a1\nword Z output poly z a1\n";
    let and = ".model and\n.inputs a0 a1\n.outputs z\n.names a0 a1 z\n11 1\n.end\n";
    check(&rt, alloc, one, and, 3)?;
    let two =
        "gfsig 1\nfield 0x7\nword A input poly a0 a1\nword B input normal:0x2 b0 b1\nword Z output poly z0 z1\n";
    let mul =
        ".model mul\n.inputs a0 a1 b0 b1\n.outputs z0 z1\n.names a0 b0 p0\n11 1\n.names a0 b1 p1\n11 1\n.names a1 b0 p2\n11 1\n.names a1 b1 p3\n11 1\n.names p0 p3 z0\n10 1\n01 1\n.names p1 p2 t\n10 1\n01 1\n.names t p3 z1\n10 1\n01 1\n.end\n";
    check(&rt, alloc, two, mul, 4)
}

// The field of 8 elements in a normal basis.
#[test]
fn fields_of_8_elements(rt: HostRuntime) -> Result<(), Fail> {
    let alloc = rt.alloc();
    let one =
        "gfsig 1\nfield 0xb\nword A input normal:0x3 a0 a1 a2\nword Z output normal:0x3 z0 a0 z1\n";
    let net =
        ".model one\n.inputs a0 a1 a2\n.outputs z0 z1\n.names a0 a1 a2 z0\n111 1\n.names a1 a2 z1\n10 1\n01 1\n.end\n";
    check(&rt, alloc, one, net, 7)?;
    let two =
        "gfsig 1\nfield 0xb\nword A input normal:0x3 a0 a1 a2\nword B input poly b0 b1 b2\nword Z output normal:0x3 z0 z1 b2\n";
    let net =
        ".model two\n.inputs a0 a1 a2 b0 b1 b2\n.outputs z0 z1\n.names a0 a1 b0 z0\n111 1\n.names a2 b1 z1\n11 1\n.end\n";
    check(&rt, alloc, two, net, 20)
}

// The tower of Y^2 + Y + x over the field of 4 elements.
#[test]
fn towers_of_16_elements(rt: HostRuntime) -> Result<(), Fail> {
    let alloc = rt.alloc();
    let one =
        "gfsig 1\nfield 0x7\ntower 0x2 0x1\nword A input poly a0 a1 a2 a3\nword Z output poly z0 z1 a1 a0\n";
    let net =
        ".model one\n.inputs a0 a1 a2 a3\n.outputs z0 z1\n.names a0 a1 a2 z0\n11- 1\n--1 1\n.names a1 a3 z1\n11 1\n.end\n";
    check(&rt, alloc, one, net, 14)?;
    let two =
        "gfsig 1\nfield 0x7\ntower 0x2 0x1\nword A input poly a0 a1 a2 a3\nword B input poly b0 b1 b2 b3\nword Z output poly z0 z1 a2 b0\n";
    let net =
        ".model two\n.inputs a0 a1 a2 a3 b0 b1 b2 b3\n.outputs z0 z1\n.names a0 a3 b1 z0\n111 1\n.names a1 b2 z1\n11 1\n.end\n";
    check(&rt, alloc, two, net, 48)
}
