//! What fed nets hold, cycle by cycle.
ghost use Rattle.std.specs.Prelude.{◌≡◌, ◌<◌, ◌≤◌, ◌+◌, ◌*◌, ℕ, length, slice_index_or, slice_set, IfOk};
ghost use Rattle.lists.specs.Limits.{most_nets};
ghost use Rattle.lists.specs.Lists.{Has};
ghost use Rattle.net_core.specs.NetList.{nets};
ghost use Rattle.net_words.specs.BoundTo.{IsBoundTo};
ghost use Rattle.net_words.specs.declared.feed.Source.TheVariants.{Zero};
ghost use Rattle.unroll.specs.Places.{cycle_nets, net_at};
ghost use Rattle.unroll.specs.Sources.{source_at};
ghost use Rattle.unroll.specs.private.Plan.{AreSources};

use net_core::Net;
use net_words::{Bound, Feed, Source};
use std::alloc::{AllocError, Global};

// The sources with that of a feed; a feed after the last cycle has no place.
fn put_source(sources: &mut [Source], nets: u32, cycles: u32, feed: &Feed)
    requires net { feed.now.net < nets }
    requires long { length sources.old ≡ cycle_nets nets cycles }
    requires few { cycle_nets nets cycles ≤ most_nets }
    ensures put { feed.now.cycle ≤ cycles → sources.new ≡ slice_set sources.old (net_at nets feed.now.cycle feed.now.net) feed.now.source }
    ensures kept { cycles < feed.now.cycle → sources.new ≡ sources.old }
{
    if feed.cycle <= cycles {
        sources[(feed.cycle * nets + feed.net) as usize] = feed.source;
    }
}

// Puts in the source of each feed; of two for one net and cycle the first.
fn put_sources(sources: &mut [Source], nets: u32, cycles: u32, feeds: &[Feed])
    requires nets { (feed : _) → Has feeds.now feed → feed.net < nets }
    requires long { length sources.old ≡ cycle_nets nets cycles }
    requires few { cycle_nets nets cycles ≤ most_nets }
    requires zeros { (i : ℕ) → i < length sources.old → slice_index_or sources.old i Zero ≡ Zero }
    ensures { (t n : ℕ) → t ≤ cycles → n < nets → slice_index_or sources.new (net_at nets t n) Zero ≡ source_at feeds.now n t }
{
    for i in (0..feeds.len()).rev() {
        put_source(sources, nets, cycles, &feeds[i]);
    }
}

/// The sources of all nets in all cycles: that of net n in cycle t stands at t times the number of nets, plus n.
pub fn sources(
    alloc: Global,
    net: &Net,
    binding: &Bound,
    cycles: u32,
) -> Result<Vec<Source>, AllocError>
    requires binding { IsBoundTo net.now binding.now }
    requires cycles { cycles ≤ 4096 }
    requires few { cycle_nets (nets net.now) cycles ≤ most_nets }
    ensures { IfOk result (λ sources. AreSources net.now binding.now cycles sources.items) }
{
    let nets = net.nets();
    let mut sources = vec![in alloc; Source::Zero; ((cycles + 1) * nets) as usize]?;
    put_sources(&mut sources, nets, cycles, binding.feeds());
    Ok(sources)
}
