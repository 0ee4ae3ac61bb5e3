//! Nets, the lists that loops are named by, orders and values, worked by hand.
ghost use Rattle.std.specs.Prelude.{◌≡◌, IfOk, length};
ghost use Rattle.net_core.specs.NetList.{nets};

use net_core::{Latch, Name, Names, Net, NetFault, NetMaker, Numbers, Start, eval, order};
use std::alloc::{AllocError, Global};
use std::process::Abort;

/// A maker with nets that have these labels, numbered from 0.
pub(crate) fn with_labels(alloc: Global, labels: &[&str]) -> Result<NetMaker, NetFault>
    ensures { IfOk result (λ maker. nets maker ≡ length labels.now) }
{
    let mut maker = NetMaker::new(alloc);
    for label in labels {
        maker.fresh(label)?;
    }
    Ok(maker)
}

// The values of all nets, where the net has no latches and the inputs are as many as the values.
fn values(alloc: Global, net: &Net, bits: &[bool]) -> Result<Vec<bool>, AllocError> {
    match net.latches() {
        [] => {
            if bits.len() == net.inputs().len() {
                eval(alloc, net, bits)
            } else {
                Ok(Vec::new(alloc))
            }
        }
        _ => Ok(Vec::new(alloc)),
    }
}

fn latched(alloc: Global) -> Result<Net, NetFault> {
    let mut maker = with_labels(alloc, &["a", "l"])?;
    add_latch(&mut maker)?;
    maker.finish()
}

fn add_latch(maker: &mut NetMaker) -> Result<(), NetFault>
    requires { nets maker.old ≡ 2 }
{
    maker.input(0)?;
    maker.latch(0, 1, Start::One)?;
    maker.output(1)?;
    Ok(())
}

// Whether the net has the latch alone, and its output.
fn has_latch(net: &Net) -> bool {
    let started = Latch {
        next: 0,
        out: 1,
        start: Start::One,
    };
    match net.latches() {
        [latch] => *latch == started && net.outputs() == [1].as_slice(),
        _ => false,
    }
}

// A latch drives its output and not its next.
#[test]
fn latches(rt: HostRuntime) {
    let net = latched(rt.alloc()).ok().expect(&rt, "a net");
    assert!(rt; has_latch(&net));
}

// Gates 0 and 3 have level 3, gate 1 has level 1 and no inputs, gate 2 has level 2.
fn levelled(alloc: Global) -> Result<Net, NetFault> {
    let mut maker = with_labels(alloc, &["a", "b", "one", "xor", "and", "same"])?;
    maker.input(1)?;
    maker.input(0)?;
    add_gates(&mut maker)?;
    maker.finish()
}

fn add_gates(maker: &mut NetMaker) -> Result<(), NetFault>
    requires { nets maker.old ≡ 6 }
{
    maker.gate(4, &[0, 3], 4)?;
    maker.gate(2, &[], 1)?;
    maker.gate(3, &[1, 2], 6)?;
    maker.gate(5, &[3, 3], 8)
}

fn sure_levelled(rt: &impl Abort, alloc: Global) -> Net {
    levelled(alloc).ok().expect(rt, "a net")
}

fn has_order(rt: &impl Abort, alloc: Global, wanted: &[u32]) -> bool {
    let net = sure_levelled(rt, alloc);
    let found = order(alloc, &net).ok().expect(rt, "memory");
    found.as_slice() == wanted
}

fn has_values(rt: &impl Abort, alloc: Global, net: &Net, bits: &[bool], wanted: &[bool]) -> bool {
    let found = values(alloc, net, bits).ok().expect(rt, "memory");
    found.as_slice() == wanted
}

static VALUES: [(&[bool], &[bool]); 2] = [
    // b is 0 and a is 1: xor is 1, and the first gate has bit 1 + 2 * 1 of 4
    (&[false, true], &[true, false, true, true, false, true]),
    // b is 1 and a is 0: xor is 0
    (&[true, false], &[false, true, true, false, false, false]),
];

#[test]
fn order_and_values(rt: HostRuntime) {
    let alloc = rt.alloc();
    assert!(rt; has_order(&rt, alloc, &[1, 2, 0, 3]));
    for (bits, wanted) in &VALUES {
        let net = sure_levelled(&rt, alloc);
        assert!(rt; has_values(&rt, alloc, &net, bits, wanted), "at {bits:?}");
    }
}

// Whether the first gate is the one that was added first.
fn has_first(net: &Net) -> bool {
    match net.gates() {
        [gate, ..] => { gate.out() == 4 && gate.table() == 4 && gate.inputs() == [0, 3].as_slice() }
        [] => false,
    }
}

// Turns over bit 0 of the first gate's table.
fn turn_first(net: &mut Net) {
    if net.gates().len() > 0 {
        net.turn(0, 0);
    }
}

// Whether the values are these once it is turned.
fn has_turned_values(rt: &impl Abort, alloc: Global, bits: &[bool], wanted: &[bool]) -> bool {
    let mut net = sure_levelled(rt, alloc);
    turn_first(&mut net);
    has_values(rt, alloc, &net, bits, wanted)
}

#[test]
fn a_gate_whose_table_is_turned(rt: HostRuntime) {
    let alloc = rt.alloc();
    assert!(rt; has_first(&sure_levelled(&rt, alloc)));
    let wanted = [false, true, true, false, true, false];
    assert!(rt; has_turned_values(&rt, alloc, &[true, false], &wanted));
}

fn keeps_name(alloc: Global, text: &str) -> Result<bool, AllocError> {
    Ok(Name::new(alloc, text)?.as_str() == text)
}

fn keeps_names(alloc: Global) -> Result<bool, AllocError> {
    let mut list = Vec::new(alloc);
    list.push(Name::new(alloc, "a name")?)?;
    Ok(Names::new(list).as_slice().len() == 1)
}

fn keeps_numbers(alloc: Global) -> Result<bool, AllocError> {
    let numbers = Numbers::new([3u64, 5].to_vec(alloc)?);
    Ok(numbers.as_slice() == [3, 5].as_slice())
}

#[test]
fn names(rt: HostRuntime) {
    assert!(rt; keeps_name(rt.alloc(), "a name") == Ok(true));
    assert!(rt; keeps_names(rt.alloc()) == Ok(true));
    assert!(rt; keeps_numbers(rt.alloc()) == Ok(true));
}

// A net in which a net is named `a` and another has the label `b`.
fn named(alloc: Global) -> Result<Net, NetFault> {
    let mut maker = NetMaker::new(alloc);
    add_named(&mut maker)?;
    maker.finish()
}

fn add_named(maker: &mut NetMaker) -> Result<(), NetFault> {
    let a = maker.net("a")?;
    let b = maker.fresh("b")?;
    let c = maker.net("c")?;
    maker.input(c)?;
    maker.input(b)?;
    maker.input(a)?;
    Ok(())
}

fn finds_names(net: &Net) -> bool {
    net.find("a") == Some(0)
        && net.find("b").is_none()
        && net.find("c") == Some(2)
        && net.find("").is_none()
        && has_label(net)
}

fn has_label(net: &Net) -> bool {
    net.nets() > 1 && net.label(1) == "b"
}

#[test]
fn finds_named_nets_alone(rt: HostRuntime) {
    let net = named(rt.alloc()).ok().expect(&rt, "a net");
    assert!(rt; finds_names(&net));
}
