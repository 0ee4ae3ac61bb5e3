//! Nets that are unrolled beside the plain program of jobs, at all inputs over the field of 4 elements and for 0 to 5 cycles.
ghost use Rattle.std.specs.Prelude.{◌<◌};

use crate::bindings::{bound_to, unrolled};
use crate::jobs::{JOBS, Job};
use crate::plain_jobs::{circuit_at, plain_at};
use crate::small_nets::net_of;
use gf_field::Ring2k;
use irreducible::Proved;
use net_core::Net;
use net_words::{Bound, Combinational};
use std::alloc::Global;
use std::process::Abort;

// The field of 4 elements, whose element 2 is a root of x^2 + x + 1.
fn field(rt: &impl Abort) -> Proved<Ring2k> {
    let ring = Ring2k::new(0x7).expect(rt, "a modulus");
    Proved::new(ring).ok().expect(rt, "a field")
}

// The circuit of a job's net, unrolled.
fn circuit(rt: &impl Abort, alloc: Global, job: &Job, cycles: u32) -> Combinational
    requires { cycles < 6 }
{
    let net = net_of(rt, alloc, job.net);
    unrolled(rt, alloc, net, job.words, job.feeds, cycles)
        .ok()
        .expect(rt, "a circuit")
}

// Whether the circuit gives at these elements what the plain program gives of the job after so many cycles.
fn is_same(
    rt: &impl Abort,
    alloc: Global,
    net: &Net,
    binding: &Bound,
    circuit: &Combinational,
    xs: [u64; 2],
    cycles: u32,
) -> bool {
    let field = field(rt);
    let wanted = plain_at(rt, alloc, &field, net, binding, xs, cycles);
    let found = circuit_at(rt, alloc, &field, circuit, xs);
    found.is_some() && found == wanted
}

// Compares the unrolled net of a job with the plain program, at all inputs after so many cycles.
fn compare_after(rt: &impl Abort, alloc: Global, job: &Job, cycles: u32)
    requires { cycles < 6 }
{
    let net = net_of(rt, alloc, job.net);
    let bound = bound_to(rt, alloc, &net, job.words, job.feeds);
    let circuit = circuit(rt, alloc, job, cycles);
    for input in 0..16 {
        let xs = [input % 4, input / 4];
        assert!(rt;
            is_same(rt, alloc, &net, &bound, &circuit, xs, cycles),
            "{} after {cycles} cycles at {xs:?}",
            job.name
        );
    }
}

#[test]
fn unrolled_jobs(rt: HostRuntime) {
    for job in &JOBS {
        for cycles in 0..6 {
            compare_after(&rt, rt.alloc(), job, cycles);
        }
    }
}
