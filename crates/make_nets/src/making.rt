//! The net of a plan over the nets of a signature's words.
ghost use Rattle.std.specs.Prelude.{◌≡◌, ℕ, List, IfOk, map};
ghost use Rattle.make_nets.specs.MadeNet.{outer_net};
ghost use Rattle.make_nets.specs.Made.{made_of, IsPlanFor};
ghost use Rattle.make_nets.specs.MakerNames.{AreMakerNames};
ghost use Rattle.make_nets.specs.Ports.{outer_names};

use crate::finishing::finish;
use crate::plan_maker::PlanMaker;
use crate::ports::{count_of, push_range, role_nets};
use crate::prefixes::prefix_for;
use net_core::{Latch, Net, NetMaker};
use net_words::{FeedText, Role, WordText};
use std::alloc::{AllocError, Global};

/// The net of a plan and of latches over the nets of a signature's words and its fed nets, which `outer_nets` made. It answers
/// nothing but the net, or runs out of memory.
pub fn make(
    alloc: Global,
    maker: NetMaker,
    words: &[WordText],
    feeds: &[FeedText],
    latches: &[Latch],
    plan: &PlanMaker,
) -> Result<Net, AllocError>
    requires maker { maker ≡ outer_net (outer_names words.now (map (λ feed. feed.net) feeds.now)) }
    requires names { AreMakerNames (outer_names words.now (map (λ feed. feed.net) feeds.now)) }
    requires fits { (targets : List ℕ) × IsPlanFor words.now (map (λ feed. feed.net) feeds.now) latches.now targets plan.now }
    ensures { IfOk result (λ net. net ≡ made_of words.now (map (λ feed. feed.net) feeds.now) latches.now plan.now) }
{
    let count = count_of(words);
    let prefix = prefix_for(alloc, words, feeds)?;
    let mut inputs = role_nets(alloc, words, Role::Input)?;
    push_range(&mut inputs, count, feeds.len())?;
    let outputs = role_nets(alloc, words, Role::Output)?;
    let outer = count + feeds.len() as u32;
    finish(
        alloc,
        maker,
        outer,
        prefix.as_str(),
        &inputs,
        &outputs,
        latches,
        plan,
    )
}
