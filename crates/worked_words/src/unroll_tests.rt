//! Nets that are unrolled, worked by hand.
ghost use Rattle.std.specs.Prelude.{◌≤◌};

use crate::bindings::unrolled;
use crate::small_nets::net_of;
use net_core::{Net, NetFault, NetMaker, Start, eval};
use net_words::Combinational;
use std::alloc::Global;
use std::process::Abort;
use unroll::UnrollFault;

// A latch q with start 1 that holds d, unrolled.
fn register(rt: &impl Abort, alloc: Global, cycles: u32) -> Combinational
    requires { cycles ≤ 4096 }
{
    let net = net_of(
        rt,
        alloc,
        b".model register\n.inputs d\n.outputs q\n.latch d q 1\n",
    );
    unrolled(rt, alloc, net, "I0 d; O1 q", &[], cycles)
        .ok()
        .expect(rt, "a circuit")
}

// A latch q that keeps its bit, among 256 nets.
fn wide(alloc: Global) -> Result<Net, NetFault> {
    let mut maker = NetMaker::new(alloc);
    let q = maker.net("q")?;
    maker.latch(q, q, Start::Zero)?;
    widen(&mut maker)?;
    maker.finish()
}

// Adds 255 inputs.
fn widen(maker: &mut NetMaker) -> Result<(), NetFault> {
    for _ in 1..256 {
        let net = maker.fresh("x")?;
        maker.input(net)?;
    }
    Ok(())
}

// Why that net is not unrolled for the largest number of cycles.
fn fault(rt: &impl Abort, alloc: Global) -> Option<UnrollFault> {
    let net = wide(alloc).ok().expect(rt, "a net");
    unrolled(rt, alloc, net, "O0 q", &[], 4096).err()
}

#[test]
fn refuses_more_nets_than_the_limit(rt: HostRuntime) {
    assert!(rt; fault(&rt, rt.alloc()) == Some(UnrollFault::TooManyNets));
}

// The last bit of the register after so many cycles, where the input is this one.
fn held(rt: &impl Abort, alloc: Global, input: bool, cycles: u32) -> Option<bool>
    requires { cycles ≤ 4096 }
{
    let circuit = register(rt, alloc, cycles);
    assert!(rt; circuit.net().inputs().len() == 1);
    let bits = eval(alloc, circuit.net(), &[input])
        .ok()
        .expect(rt, "memory");
    bits.get(2 * cycles as usize + 1).copied()
}

#[test]
fn register_has_its_start_and_then_what_it_held(rt: HostRuntime) {
    for cycles in 0..2 {
        assert!(rt; held(&rt, rt.alloc(), false, cycles) == Some(cycles == 0));
        assert!(rt; held(&rt, rt.alloc(), true, cycles) == Some(true));
    }
}
