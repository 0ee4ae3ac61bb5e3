//! Feeds that are taken and refused, and bindings of nets in one cycle.
use crate::binding_tests::check;
use crate::bindings::one_cycle;
use crate::small_nets::{conjunction, latches};
use net_core::Net;
use net_words::Source;
use std::alloc::Global;
use std::process::Abort;

const BIT: Source = Source::Bit { word: 0, place: 0 };

// Words, a feed, and what comes of them.
static FREE_INPUTS: [(&str, &[(u32, &str, u32, Source)], &str); 9] = [
    ("F0; I1 b; O2 z", &[(6, "a", 0, BIT)], "3 words, 1 feeds"),
    (
        "F0 x y; I1 b; O2 z",
        &[(6, "a", 0, BIT)],
        "3 words, 1 feeds",
    ),
    (
        "I0 b; O1 z",
        &[(6, "a", 0, Source::One)],
        "2 words, 1 feeds",
    ),
    ("I0 b; O1 z", &[(6, "a", 0, BIT)], "no words"),
    (
        "I0 b; O1 z",
        &[(6, "x", 0, Source::Zero)],
        "feed at line 6 is no free input",
    ),
    (
        "I0 b; O1 z",
        &[(7, "z", 0, Source::Zero)],
        "feed at line 7 is no free input",
    ),
    (
        "I0 b; O1 z",
        &[(8, "b", 0, Source::Zero)],
        "feed at line 8 is no free input",
    ),
    (
        "I0 b; O1 z",
        &[(9, "c", 0, Source::Zero)],
        "input 0 is in no word",
    ),
    (
        "I0 z; O1 z",
        &[(9, "x", 0, Source::Zero)],
        "place 0 of word 0 is no input",
    ),
];

#[test]
fn feeds_of_free_inputs(rt: HostRuntime) {
    check(&rt, rt.alloc(), &conjunction(&rt, rt.alloc()), &FREE_INPUTS);
}

static BEFORE_STARTS: [(&str, &[(u32, &str, u32, Source)], &str); 3] = [
    (
        "I0 a; O1 z",
        &[(6, "q", 0, Source::One)],
        "feed at line 6 is no free input",
    ),
    (
        "S0 q; O1 z",
        &[(6, "a", 0, Source::One)],
        "2 words, 1 feeds",
    ),
    (
        "S0 r; O1 z",
        &[(6, "a", 0, Source::One)],
        "latch 1 has no start",
    ),
];

#[test]
fn feeds_before_starts(rt: HostRuntime) {
    check(&rt, rt.alloc(), &latches(&rt, rt.alloc()), &BEFORE_STARTS);
}

fn is_one_cycle(
    rt: &impl Abort,
    alloc: Global,
    net: Net,
    text: &str,
    rows: &[(u32, &str, u32, Source)],
) -> bool {
    one_cycle(rt, alloc, net, text, rows).is_some()
}

static CYCLES: [(&str, &[(u32, &str, u32, Source)], bool); 3] = [
    ("I0 a; I1 b; O2 z", &[], true),
    ("I0 b; O1 z", &[(6, "a", 0, Source::One)], false),
    ("F0; I1 a; I2 b; O3 z", &[], false),
];

#[test]
fn nets_in_one_cycle(rt: HostRuntime) {
    for (text, rows, is) in &CYCLES {
        let net = conjunction(&rt, rt.alloc());
        assert!(rt;
            is_one_cycle(&rt, rt.alloc(), net, text, rows) == *is,
            "at {text}"
        );
    }
    let net = latches(&rt, rt.alloc());
    assert!(rt; !is_one_cycle(&rt, rt.alloc(), net, "I0 a; S1 q; O2 z", &[]));
}
