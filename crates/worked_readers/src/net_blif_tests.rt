//! Texts with their designs; faults are tried by rows.
use net_blif::{Design, read_blif};

fn has_models(design: &Design) -> bool {
    design.models() == 2
        && design.name(1) == "b"
        && design.model("b") == Some(1)
        && design.model("c").is_none()
}

#[test]
fn models(rt: HostRuntime) {
    let text = b".model top\n.model b\n.names z\n1\n.end\n";
    let design = read_blif(rt.alloc(), text).ok().expect(&rt, "a design");
    assert!(rt; has_models(&design));
    assert!(rt; design.gate_line().is_none());
    assert!(rt; design.instances() == 0);
}

fn has_instances(design: &Design) -> bool {
    design.gate_line() == Some(5)
        && design.instances() == 2
        && design.instance_model(0) == 1
        && design.instance_model(1) == 2
}

fn has_actuals(design: &Design) -> bool {
    design.instances() == 2
        && design.actual(0, "a") == Some("x")
        && design.actual(0, "z") == Some("y=z")
        && design.actual(0, "q").is_none()
        && design.actual(1, "a").is_none()
}

#[test]
fn instances(rt: HostRuntime) {
    let text =
        b".model top\n.inputs x\n.subckt b a=x z=y=z\n.subckt c\n.latch x q\n.model b\n.inputs a\n.outputs z\n.names a z\n.model c\n.end\n";
    let design = read_blif(rt.alloc(), text).ok().expect(&rt, "a design");
    assert!(rt; has_instances(&design));
    assert!(rt; has_actuals(&design));
}
