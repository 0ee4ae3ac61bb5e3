//! Faults of nets, numbers of nets and the limits, worked by hand.
ghost use Rattle.std.specs.Prelude.{◌≡◌, IfOk, OnOk};
ghost use Rattle.net_core.specs.NetList.{nets};

use crate::net_core_tests::with_labels;
use net_core::{Net, NetFault, NetMaker, Start};
use std::alloc::Global;

const MAX: u32 = 1 << 20;

// Whether a loop of these nets, the first of this label, is found.
fn is_loop(outcome: &Result<Net, NetFault>, wanted: &[u32], through: &str) -> bool {
    match outcome {
        Err(NetFault::Loop { nets, label }) => {
            nets.as_slice() == wanted && label.as_str() == through
        }
        _ => false,
    }
}

// Whether this net is found to be undriven.
fn is_undriven(outcome: &Result<Net, NetFault>, wanted: u32, called: &str) -> bool {
    match outcome {
        Err(NetFault::Undriven { net, label }) => *net == wanted && label.as_str() == called,
        _ => false,
    }
}

// Whether this net is found to be driven twice.
fn is_driven_twice(outcome: &Result<Net, NetFault>, wanted: u32, called: &str) -> bool {
    match outcome {
        Err(NetFault::DrivenTwice { net, label }) => *net == wanted && label.as_str() == called,
        _ => false,
    }
}

// Two gates that hold each other's outputs.
fn looped(alloc: Global) -> Result<Net, NetFault> {
    let mut maker = with_labels(alloc, &["x", "y"])?;
    maker.gate(1, &[0], 2)?;
    maker.gate(0, &[1], 2)?;
    maker.finish()
}

#[test]
fn cycle_of_two_found_from_its_second_net(rt: HostRuntime) {
    assert!(rt; is_loop(&looped(rt.alloc()), &[1, 0], "y"));
}

fn numbers_of(maker: &mut NetMaker) -> Result<[u32; 5], NetFault> {
    Ok([
        maker.net("a")?,
        maker.fresh("b")?,
        maker.net("b")?,
        maker.net("a")?,
        maker.fresh("a")?,
    ])
}

#[test]
fn numbers_of_nets(rt: HostRuntime) {
    let mut maker = NetMaker::new(rt.alloc());
    assert!(rt; numbers_of(&mut maker).ok() == Some([0, 1, 2, 0, 3]));
    assert!(rt; is_undriven(&maker.finish(), 0, "a"));
}

// Adds as many gates from net 0 to net 1 as a net list may have.
fn fill(maker: &mut NetMaker) -> Result<(), NetFault>
    requires { nets maker.old ≡ 2 }
    ensures { OnOk result (nets maker.new ≡ 2) }
{
    for _ in 0..MAX {
        maker.gate(1, &[0], 2)?;
    }
    Ok(())
}

// Adds as many nets as a net list may have.
fn fill_nets(maker: &mut NetMaker) -> Result<(), NetFault> {
    for _ in 0..MAX {
        maker.fresh("n")?;
    }
    Ok(())
}

fn refuses_nets(maker: &mut NetMaker) -> bool {
    matches!(maker.fresh("n"), Err(NetFault::TooManyNets))
        && matches!(maker.net("n"), Err(NetFault::TooManyNets))
}

#[test]
fn limit_of_nets(rt: HostRuntime) {
    let mut maker = NetMaker::new(rt.alloc());
    assert!(rt; fill_nets(&mut maker).is_ok());
    assert!(rt; refuses_nets(&mut maker));
    assert!(rt; is_undriven(&maker.finish(), 0, "n"));
}

// A maker with as many gates as a net list may have, all from net 0 to net 1.
fn filled(alloc: Global) -> Result<NetMaker, NetFault>
    ensures { IfOk result (λ maker. nets maker ≡ 2) }
{
    let mut maker = with_labels(alloc, &["x", "y"])?;
    maker.input(0)?;
    fill(&mut maker)?;
    Ok(maker)
}

fn refuses_gates(maker: &mut NetMaker) -> bool
    requires { nets maker.old ≡ 2 }
{
    matches!(maker.gate(1, &[0], 2), Err(NetFault::TooManyGates))
        && matches!(maker.latch(0, 1, Start::Zero), Err(NetFault::TooManyGates))
}

#[test]
fn limit_of_gates(rt: HostRuntime) {
    let mut maker = filled(rt.alloc()).ok().expect(&rt, "a maker");
    assert!(rt; refuses_gates(&mut maker));
    assert!(rt; is_driven_twice(&maker.finish(), 1, "y"));
}
