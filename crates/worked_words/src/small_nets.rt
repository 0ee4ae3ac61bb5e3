//! Nets that words are bound to.
use net_blif::read_blif;
use net_core::Net;
use net_flat::flatten;
use std::alloc::Global;
use std::process::Abort;

/// The net of a text in BLIF.
pub(crate) fn net_of(rt: &impl Abort, alloc: Global, text: &[u8]) -> Net {
    assert!(rt; text.len() <= 1000);
    let design = read_blif(alloc, text).ok().expect(rt, "a design");
    flatten(alloc, &design, 0).ok().expect(rt, "a net")
}

/// The net z = a & b, in which c drives nothing.
pub(crate) fn conjunction(rt: &impl Abort, alloc: Global) -> Net {
    net_of(
        rt,
        alloc,
        b".model conjunction\n.inputs a b c\n.names a b z\n11 1\n",
    )
}

/// A latch q with an unknown start that holds a, and a latch r with a known one that holds z = q.
pub(crate) fn latches(rt: &impl Abort, alloc: Global) -> Net {
    net_of(
        rt,
        alloc,
        b".model latches\n.inputs a\n.latch a q 3\n.latch z r 1\n.names q z\n1 1\n",
    )
}
