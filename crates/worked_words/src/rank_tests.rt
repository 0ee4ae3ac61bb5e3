//! The order of variables of a circuit.
ghost use Rattle.std.specs.Prelude.{◌<◌, ◌≤◌, IfOk};
ghost use Rattle.net_core.specs.NetList.{nets};

use crate::bindings::one_cycle;
use net_core::{Net, NetFault, NetMaker};
use net_words::Combinational;
use std::alloc::Global;
use std::process::Abort;

// A multiplier in GF(4): z0 = a0 b0 + a1 b1 and z1 = a0 b1 + a1 b0 + a1 b1, whose nets are numbered from z0 to t.
fn multiplier(alloc: Global) -> Result<Net, NetFault> {
    let mut maker = NetMaker::new(alloc);
    for name in &NETS {
        let _net = number_of(&mut maker, name)?;
    }
    add_inputs(&mut maker)?;
    for (out, a, b, is_sum) in &GATES {
        add_gate(&mut maker, out, a, b, *is_sum)?;
    }
    maker.finish()
}

// The number of the net of a short name.
fn number_of(maker: &mut NetMaker, name: &str) -> Result<u32, NetFault>
    ensures within { IfOk result (λ n. n < nets maker.new) }
    ensures grows { nets maker.old ≤ nets maker.new }
{
    if name.is_empty() || name.len() > 255 {
        return Err(NetFault::TooManyNets);
    }
    maker.net(name)
}

static NETS: [&str; 11] = [
    "z0", "z1", "p0", "a0", "a1", "p1", "b0", "b1", "p2", "p3", "t",
];

static GATES: [(&str, &str, &str, bool); 7] = [
    ("p0", "a0", "b0", false),
    ("p1", "a0", "b1", false),
    ("p2", "a1", "b0", false),
    ("p3", "a1", "b1", false),
    ("z0", "p0", "p3", true),
    ("t", "p1", "p2", true),
    ("z1", "t", "p3", true),
];

fn add_inputs(maker: &mut NetMaker) -> Result<(), NetFault> {
    for name in ["a0", "a1", "b0", "b1"] {
        let net = maker.net(name)?;
        maker.input(net)?;
    }
    Ok(())
}

fn add_gate(
    maker: &mut NetMaker,
    out: &str,
    a: &str,
    b: &str,
    is_sum: bool,
) -> Result<(), NetFault> {
    let out = number_of(maker, out)?;
    let a = number_of(maker, a)?;
    let b = number_of(maker, b)?;
    if is_sum {
        maker.gate(out, &[a, b], 6)
    } else {
        maker.gate(out, &[a, b], 8)
    }
}

fn circuit(rt: &impl Abort, alloc: Global) -> Combinational {
    let net = multiplier(alloc).ok().expect(rt, "a net");
    one_cycle(rt, alloc, net, "I0 a0 a1; O1 z0 z1; I2 b0 b1", &[]).expect(rt, "a circuit")
}

// The nets by their ranks.
static RANKED: [u32; 11] = [3, 4, 6, 7, 0, 1, 2, 5, 8, 9, 10];

#[test]
fn ranks(rt: HostRuntime) {
    let circuit = circuit(&rt, rt.alloc());
    assert!(rt; circuit.net().nets() == 11 && circuit.binding().words() == 3);
    for rank in 0..11 {
        let net = RANKED[rank as usize];
        assert!(rt;
            circuit.net_of(rank) == net && circuit.rank_of(net) == rank,
            "at rank {rank}"
        );
    }
}
