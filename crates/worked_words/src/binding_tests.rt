//! Bindings that are taken and refused.
use crate::fitting::fit;
use crate::short_texts::{feeds_of, words_of};
use crate::small_nets::{conjunction, latches};
use net_core::Net;
use net_words::{BindFault, Bound, Source, bind};
use std::alloc::{AllocError, Global};
use std::process::Abort;

// What comes of a binding: the fault's text, or how many words and feeds are bound.
fn told(alloc: Global, outcome: Result<Bound, BindFault>) -> Result<String, AllocError> {
    match outcome {
        Ok(bound) => format!(in alloc; "{} words, {} feeds", bound.words(), bound.feeds().len()),
        Err(fault) => format!(in alloc; "{fault}"),
    }
}

// Whether this comes of the words of a text and of feeds; `no words` where they can't be bound.
fn gives(
    rt: &impl Abort,
    alloc: Global,
    net: &Net,
    text: &str,
    rows: &[(u32, &str, u32, Source)],
    wanted: &str,
) -> bool {
    let words = words_of(rt, alloc, text);
    let feeds = feeds_of(rt, alloc, rows);
    if !fit(&words, &feeds) {
        return wanted == "no words";
    }
    let found = told(alloc, bind(alloc, &words, &feeds, net))
        .ok()
        .expect(rt, "memory");
    found.as_str() == wanted
}

/// Asserts what comes of the words and feeds of each row.
pub(crate) fn check(
    rt: &impl Abort,
    alloc: Global,
    net: &Net,
    cases: &[(&str, &[(u32, &str, u32, Source)], &str)],
) {
    for (text, rows, wanted) in cases {
        assert!(rt;
            gives(rt, alloc, net, text, rows, wanted),
            "not {wanted} at {text}"
        );
    }
}

static INPUT_WORDS: [(&str, &[(u32, &str, u32, Source)], &str); 12] = [
    ("I0 a; I1 b; O2 z", &[], "3 words, 0 feeds"),
    ("O0 z a; I1 b a", &[], "2 words, 0 feeds"),
    ("I0 a; O1 z; I2 x", &[], "no net for place 0 of word 2"),
    ("I0 a z; O1 z x", &[], "place 1 of word 0 is no input"),
    ("I0 a a; O1 z x", &[], "net 0 stands twice"),
    ("I0 a b; O1 z x", &[], "no net for place 1 of word 1"),
    ("I0 a b; I1 b c; O2 z z", &[], "net 1 stands twice"),
    ("I0 z x; O1 z z", &[], "place 0 of word 0 is no input"),
    ("I0 b; O1 z", &[], "input 0 is in no word"),
    ("I0 a; O1 z", &[], "input 1 is in no word"),
    ("I0 a b; O1 z c", &[], "input 2 is in no word"),
    ("O0 z", &[], "input 0 is in no word"),
];

#[test]
fn inputs(rt: HostRuntime) {
    check(&rt, rt.alloc(), &conjunction(&rt, rt.alloc()), &INPUT_WORDS);
}

static STATE_WORDS: [(&str, &[(u32, &str, u32, Source)], &str); 7] = [
    ("I0 a; S1 q; O2 z", &[], "3 words, 0 feeds"),
    ("I0 a; S1 r; O2 z", &[], "latch 1 has no start"),
    ("I0 a; O1 z", &[], "latch 1 has no start"),
    ("S0 q; O1 z", &[], "input 0 is in no word"),
    ("I0 a q; O1 z z", &[], "place 1 of word 0 is no input"),
    ("S0 q a; O1 z z", &[], "place 1 of word 0 is no latch"),
    ("S0 q q; O1 z z", &[], "net 1 stands twice"),
];

#[test]
fn states(rt: HostRuntime) {
    check(&rt, rt.alloc(), &latches(&rt, rt.alloc()), &STATE_WORDS);
}
