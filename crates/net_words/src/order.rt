//! Bindings with their order of variables.
ghost use Rattle.std.specs.Prelude.{◌≡◌, IfOk};
ghost use Rattle.net_core.specs.NetList.{nets as nets_of};
ghost use Rattle.net_words.specs.Binding.{IsBinding};

use crate::bound::{Bound, BoundWord};
use crate::feed::Feed;
use crate::variables::{ranks, variables};
use net_core::Net;
use std::alloc::{AllocError, Global};

/// The words with their nets, the feeds, and the nets in the order of variables.
pub fn ordered(
    alloc: Global,
    k: u32,
    words: Vec<BoundWord>,
    feeds: Vec<Feed>,
    net: &Net,
) -> Result<Bound, AllocError>
    requires { IsBinding (record { k = k; words = words.items; feeds = feeds.items; nets = nets_of net.now }) }
    ensures { IfOk result (λ bound. bound ≡ record { k = k; words = words.items; feeds = feeds.items; nets = nets_of net.now }) }
{
    let count = net.nets();
    let order = variables(alloc, count, &words)?;
    let ranks = ranks(alloc, count, &order)?;
    Ok(Bound::of_parts(k, words, feeds, count, order, ranks))
}
