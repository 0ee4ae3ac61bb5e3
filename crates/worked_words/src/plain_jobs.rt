//! What the plain programs give of a job and of a circuit of one cycle.
ghost use Rattle.std.specs.Prelude.{◌<◌, length};
ghost use Rattle.gf_basis.specs.BasisParts.{IsBasisOver};

use circuit_model::{CircuitFeed, CircuitWord, FeedSource, output};
use gf_basis::Basis;
use gf_field::{Field, is_element};
use net_core::Net;
use net_words::{Bound, Combinational, Source};
use plain_runs::job_output;
use std::alloc::{AllocError, Global};
use std::process::Abort;

/// The output of the job after so many cycles, where two words and then the output word are bound to the net.
pub(crate) fn plain_at<F: Field>(
    rt: &impl Abort,
    alloc: Global,
    field: &F,
    net: &Net,
    binding: &Bound,
    xs: [u64; 2],
    cycles: u32,
) -> Option<u64> {
    let [x, y] = xs;
    assert!(rt; binding.words() == 3);
    assert!(rt; is_element(field, x) && is_element(field, y));
    let words = [
        word(rt, alloc, field, binding, 0),
        word(rt, alloc, field, binding, 1),
    ];
    let last = word(rt, alloc, field, binding, 2);
    let feeds = plain_feeds(alloc, binding).ok().expect(rt, "feeds");
    job_output(alloc, field, net, &words, &last, &feeds, &[x, y], cycles)
        .ok()
        .expect(rt, "memory")
}

/// The output of a circuit of one cycle with two words and then the output word.
pub(crate) fn circuit_at<F: Field>(
    rt: &impl Abort,
    alloc: Global,
    field: &F,
    circuit: &Combinational,
    xs: [u64; 2],
) -> Option<u64> {
    let [x, y] = xs;
    let binding = circuit.binding();
    assert!(rt; binding.words() == 3);
    assert!(rt; is_element(field, x) && is_element(field, y));
    let words = [
        word(rt, alloc, field, binding, 0),
        word(rt, alloc, field, binding, 1),
    ];
    let last = word(rt, alloc, field, binding, 2);
    output(alloc, field, circuit.net(), &words, &last, &[x, y])
        .ok()
        .expect(rt, "memory")
}

// A word with the polynomial basis, for the plain programs.
fn word<F: Field>(rt: &impl Abort, alloc: Global, field: &F, binding: &Bound, w: u32) -> CircuitWord
    requires { w < length binding.now.words }
    ensures { IsBasisOver (F.degree field.now) (F.product field.now) result.basis }
{
    CircuitWord {
        role: binding.role(w),
        nets: nets_of(alloc, binding, w).ok().expect(rt, "nets"),
        basis: Basis::poly(field),
    }
}

// The nets of a word; none where a fed word has none.
fn nets_of(alloc: Global, binding: &Bound, w: u32) -> Result<Vec<u32>, AllocError>
    requires { w < length binding.now.words }
{
    let mut nets = Vec::new(alloc);
    if binding.has_nets(w) {
        for place in 0..binding.k() {
            nets.push(binding.net(w, place))?;
        }
    }
    Ok(nets)
}

// What feeds a net, for the plain program; the output word is the last one, so the others keep their numbers.
fn plain_source(source: Source) -> FeedSource {
    match source {
        Source::Zero => FeedSource::Constant(false),
        Source::One => FeedSource::Constant(true),
        Source::Bit { word, place } => FeedSource::Bit { word, place },
    }
}

// The feeds for the plain program.
fn plain_feeds(alloc: Global, binding: &Bound) -> Result<Vec<CircuitFeed>, AllocError> {
    let mut feeds = Vec::new(alloc);
    for feed in binding.feeds() {
        feeds.push(CircuitFeed {
            net: feed.net,
            cycle: feed.cycle,
            source: plain_source(feed.source),
        })?;
    }
    Ok(feeds)
}
