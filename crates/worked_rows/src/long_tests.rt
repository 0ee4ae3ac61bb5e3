//! The values of the conjunction of two bits of a word of 64 bits.
ghost use Rattle.job_input.specs.Setting.{AreBasesOver};

use crate::plain_tests::{poly_in_words, value_at};
use crate::program::{files_of, job, signed};
use gf_basis::Basis;
use gf_field::Field;
use gf_tower::AnyField;
use job_input::Signed;
use job_io::MemShelf;
use net_words::Combinational;
use std::alloc::Global;
use std::process::Abort;
use std::test::Fail;

const SIGNATURE: &str =
    "gfsig 1\nfield 0x1000000000000001b\nword A input poly a0 a1 a2 a3 a4 a5 a6 a7 a8 a9 a10 a11 a12 a13 a14 a15 a16 a17 a18 a19 a20 a21 a22 a23 a24 a25 a26 a27 a28 a29 a30 a31 a32 a33 a34 a35 a36 a37 a38 a39 a40 a41 a42 a43 a44 a45 a46 a47 a48 a49 a50 a51 a52 a53 a54 a55 a56 a57 a58 a59 a60 a61 a62 a63\nword Z output poly z0 z1 z2 z3 z4 z5 z6 z7 z8 z9 z10 z11 z12 z13 z14 z15 z16 z17 z18 z19 z20 z21 z22 z23 z24 z25 z26 z27 z28 z29 z30 z31 z32 z33 z34 z35 z36 z37 z38 z39 z40 z41 z42 z43 z44 z45 z46 z47 z48 z49 z50 z51 z52 z53 z54 z55 z56 z57 z58 z59 z60 z61 z62 z63\n";

const NET: &str =
    ".model m\n.inputs a0 a1 a2 a3 a4 a5 a6 a7 a8 a9 a10 a11 a12 a13 a14 a15 a16 a17 a18 a19 a20 a21 a22 a23 a24 a25 a26 a27 a28 a29 a30 a31 a32 a33 a34 a35 a36 a37 a38 a39 a40 a41 a42 a43 a44 a45 a46 a47 a48 a49 a50 a51 a52 a53 a54 a55 a56 a57 a58 a59 a60 a61 a62 a63\n.outputs z0 z1 z2 z3 z4 z5 z6 z7 z8 z9 z10 z11 z12 z13 z14 z15 z16 z17 z18 z19 z20 z21 z22 z23 z24 z25 z26 z27 z28 z29 z30 z31 z32 z33 z34 z35 z36 z37 z38 z39 z40 z41 z42 z43 z44 z45 z46 z47 z48 z49 z50 z51 z52 z53 z54 z55 z56 z57 z58 z59 z60 z61 z62 z63\n.names a0 a1 z0\n11 1\n.names z1\n.names z2\n.names z3\n.names z4\n.names z5\n.names z6\n.names z7\n.names z8\n.names z9\n.names z10\n.names z11\n.names z12\n.names z13\n.names z14\n.names z15\n.names z16\n.names z17\n.names z18\n.names z19\n.names z20\n.names z21\n.names z22\n.names z23\n.names z24\n.names z25\n.names z26\n.names z27\n.names z28\n.names z29\n.names z30\n.names z31\n.names z32\n.names z33\n.names z34\n.names z35\n.names z36\n.names z37\n.names z38\n.names z39\n.names z40\n.names z41\n.names z42\n.names z43\n.names z44\n.names z45\n.names z46\n.names z47\n.names z48\n.names z49\n.names z50\n.names z51\n.names z52\n.names z53\n.names z54\n.names z55\n.names z56\n.names z57\n.names z58\n.names z59\n.names z60\n.names z61\n.names z62\n.names z63\n.end\n";

// Both bits are 1 at the element 3 alone.
fn check_values<F: Field>(
    rt: &impl Abort,
    alloc: Global,
    field: &F,
    circuit: &Combinational,
    bases: &[Basis],
) -> Result<(), Fail>
    requires { AreBasesOver (F.degree field.now) (F.product field.now) bases.now }
{
    let poly = poly_in_words(rt, alloc, field, circuit, bases, u32::MAX)?;
    for (element, wanted) in [(0, 0), (1, 0), (2, 0), (3, 1)] {
        let found = value_at(rt, field, &poly, element, 0);
        assert_eq!(rt; found, wanted, "at {element}");
    }
    Ok(())
}

#[test]
fn values_in_64_bits(rt: HostRuntime) -> Result<(), Fail> {
    let alloc = rt.alloc();
    let mut shelf = MemShelf::new(
        files_of(alloc, &[("s", SIGNATURE), ("net", NET)])?,
        Vec::new(alloc),
    );
    let Signed { signature, field } = signed(&rt, alloc, &mut shelf);
    match field {
        AnyField::Base(field) => {
            let (setting, circuit) = job(&rt, alloc, &field, signature, &mut shelf);
            check_values(&rt, alloc, &field, &circuit, setting.bases.as_slice())
        }
        AnyField::Tower(_field) => panic!(rt; "no base field"),
        AnyField::Upper(_field) => panic!(rt; "no base field"),
    }
}
