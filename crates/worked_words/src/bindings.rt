//! Words and feeds that are bound to a net, and the net unrolled.
ghost use Rattle.std.specs.Prelude.{◌≤◌};
ghost use Rattle.net_words.specs.BoundTo.{IsBoundTo};
ghost use Rattle.net_words.specs.OneCycle.{IsFlat, IsOneCycle};

use crate::fitting::fit;
use crate::short_texts::{feeds_of, words_of};
use net_core::Net;
use net_words::{Bound, Combinational, Source, bind};
use std::alloc::Global;
use std::process::Abort;
use unroll::{UnrollFault, unroll};

/// The words of a text and feeds, bound to a net.
pub(crate) fn bound_to(
    rt: &impl Abort,
    alloc: Global,
    net: &Net,
    text: &str,
    rows: &[(u32, &str, u32, Source)],
) -> Bound
    ensures bound { IsBoundTo net.now result }
    ensures one_cycle { IsFlat net.now result → IsOneCycle net.now result }
{
    let words = words_of(rt, alloc, text);
    let feeds = feeds_of(rt, alloc, rows);
    assert!(rt; fit(&words, &feeds));
    match bind(alloc, &words, &feeds, net) {
        Ok(bound) => bound,
        Err(_fault) => panic!(rt; "not bound"),
    }
}

/// The net with these words and feeds as a circuit of one cycle, if it is one.
pub(crate) fn one_cycle(
    rt: &impl Abort,
    alloc: Global,
    net: Net,
    text: &str,
    rows: &[(u32, &str, u32, Source)],
) -> Option<Combinational> {
    let bound = bound_to(rt, alloc, &net, text, rows);
    Combinational::new(net, bound).ok()
}

/// The net with these words and feeds, unrolled.
pub(crate) fn unrolled(
    rt: &impl Abort,
    alloc: Global,
    net: Net,
    text: &str,
    rows: &[(u32, &str, u32, Source)],
    cycles: u32,
) -> Result<Combinational, UnrollFault>
    requires { cycles ≤ 4096 }
{
    let bound = bound_to(rt, alloc, &net, text, rows);
    unroll(alloc, net, bound, cycles)
}
