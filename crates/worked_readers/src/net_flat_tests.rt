//! The nets of chosen models; faults, covers, latches and instances are tried by rows.
use net_blif::{Design, read_blif};
use net_flat::flatten;
use std::alloc::Global;
use std::process::Abort;

// Whether the net of a model is a single one, with this number where it is named `z`.
fn is_single(
    rt: &impl Abort,
    alloc: Global,
    design: &Design,
    model: u32,
    number: Option<u32>,
) -> bool {
    let net = flatten(alloc, design, model).ok().expect(rt, "a net");
    net.nets() == 1 && net.find("z") == number
}

#[test]
fn chosen_models(rt: HostRuntime) {
    let text = b".model top\n.subckt b\n.model b\n.names z\n1\n.end\n";
    let design = read_blif(rt.alloc(), text).ok().expect(&rt, "a design");
    assert!(rt; is_single(&rt, rt.alloc(), &design, 1, Some(0)));
    assert!(rt; is_single(&rt, rt.alloc(), &design, 0, None));
}
