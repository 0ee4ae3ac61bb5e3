//! Texts that are read, flattened and written again.
use net_blif::read_blif;
use net_core::Net;
use net_flat::flatten;
use net_write::{plain_names, write_blif};
use std::alloc::Global;
use std::process::Abort;

// The net of a text.
fn net_of(rt: &impl Abort, alloc: Global, text: &str) -> Net {
    assert!(rt; text.len() <= 1000);
    let design = read_blif(alloc, text.as_bytes())
        .ok()
        .expect(rt, "a design");
    flatten(alloc, &design, 0).ok().expect(rt, "a net")
}

// Whether the net of a text is written so; `not plain` where a name is not plain.
fn gives(rt: &impl Abort, alloc: Global, text: &str, wanted: &str) -> bool {
    let net = net_of(rt, alloc, text);
    if !plain_names(&net) {
        return wanted == "not plain";
    }
    let found = write_blif(alloc, &net).ok().expect(rt, "memory");
    found.as_slice() == wanted.as_bytes()
}

static KEPT: [&str; 4] = [
    ".model make\n.inputs a0 a1 b0 b1\n.outputs z0 z1\n.names a0 b0 z0\n10 1\n01 1\n.names a1 b1 z1\n10 1\n01 1\n.end\n",
    ".model make\n.outputs q\n.latch n q 3\n.latch q r 0\n.latch r s 1\n.names q r s n\n000 1\n110 1\n111 1\n.end\n",
    ".model make\n.outputs\n.names one\n1\n.names none\n.end\n",
    ".model make\n.inputs a\n.outputs a a\n.end\n",
];

#[test]
fn written_as_read(rt: HostRuntime) {
    for text in &KEPT {
        assert!(rt; gives(&rt, rt.alloc(), text, text), "at {text}");
    }
}

static OTHERS: [(&str, &str); 3] = [
    (
        "# y is not x\n.model m\n.inputs x\n.outputs y\n.names x y\n1 0\n",
        ".model make\n.inputs x\n.outputs y\n.names x y\n0 1\n.end\n",
    ),
    (
        ".model m\n.latch n q re clock\n.names q n\n- 1\n",
        ".model make\n.outputs\n.latch n q 3\n.names q n\n0 1\n1 1\n.end\n",
    ),
    (
        ".model t\n.inputs x\n.subckt m a=x\n.model m\n.inputs a\n.names a b\n1 1\n",
        "not plain",
    ),
];

#[test]
fn other_texts_of_the_same_net(rt: HostRuntime) {
    for (text, wanted) in &OTHERS {
        assert!(rt; gives(&rt, rt.alloc(), text, wanted), "at {text}");
    }
}
